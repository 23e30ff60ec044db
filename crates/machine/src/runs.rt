// A form's program, and its run over one block.
ghost use Rattle.std.specs.Prelude.{◌≤◌};
ghost use Rattle.machine.specs.Blocks.{FormFits};
ghost use Rattle.machine.specs.Fitting.{Each-prop};
ghost use Rattle.program.specs.Compile.{Each, Within};

use program::Step;
use std::ops::Range;

// The steps, the stars' rows, and how many rows and carries there are in all: what the steps ask for is known once, and not tested at each. That a
// kind is narrow enough, and that there are so many blocks, is about the blocks that are lent: each function asks for it, since no
// ghost field can stand beside a mutable reference.
#[derive(Drop)]
pub(crate) struct Program<'a> {
    pub(crate) steps: &'a [Step],
    pub(crate) stars: Range<usize>,
    pub(crate) rows: usize,
    pub(crate) carries: usize,
    ghost order: { stars.start ≤ stars.end },
    ghost within: { stars.end ≤ rows },
    ghost fits: { Each (Within rows carries stars.start stars.end) steps.now } by { Each-prop rows carries stars.start stars.end steps.now },
}

mod passes;

// A form's program is in range wherever there are the rows and carries that it needs.
pub fn forms_fit()
    ensures { FormFits }
{}
