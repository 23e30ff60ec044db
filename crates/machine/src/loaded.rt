// The form of a text, ready to be matched block after block.
ghost use Rattle.std.specs.Prelude.{◌≡◌, ◌+◌, ◌≤◌, length};
ghost use Rattle.limits.specs.Limits.{heaviest};
ghost use Rattle.emit.specs.Whole.{program_of, table_of};
ghost use Rattle.machine.specs.Carrying.{count_of};
ghost use Rattle.machine.specs.Fitting.{Each-prop};
ghost use Rattle.program.specs.Compile.{Each, Within, classes_at, stars_at};

use crate::carries::Carries;
use emit::{Compiled, Sizes};
use tree::store::Tree;

#[derive(Drop)]
pub struct Matcher {
    // The form's tree, and room for that of a text which may yet be refused.
    tree: Tree,
    spare: Tree,
    root: usize,
    weight: usize,
    compiled: Compiled,
    sizes: Sizes,
    carries: Carries,
    // Whether a line starts at the next block's first place.
    starts: bool,
    ghost light: { weight ≤ heaviest },
    // what the program asks for is known once, and not tested at each step
    ghost classes: { length (table_of compiled) ≡ sizes.classes },
    ghost stars: { stars_at sizes.classes + sizes.stars ≤ sizes.rows },
    ghost rows: { sizes.rows ≤ classes_at + weight },
    ghost fits: { Each (Within sizes.rows heaviest (stars_at sizes.classes) (stars_at sizes.classes + sizes.stars)) (program_of compiled) } by { Each-prop sizes.rows heaviest (stars_at sizes.classes) (stars_at sizes.classes + sizes.stars) (program_of compiled) },
    ghost few: { sizes.carries ≤ heaviest },
    ghost long: { count_of carries ≡ heaviest },
}

mod blocks;
mod load;
