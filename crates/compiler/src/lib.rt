// Takes the text of a character if its form is light enough to be compiled.

#![tactic(auto)]

ghost use Rattle.std.specs.Prelude.{◌≡◌, ◌≤◌, MatchResult};
ghost use Rattle.compiler.specs.Faults.{Refused, Why};
ghost use Rattle.form.specs.Form.{Form, weight as weight_of};
ghost use Rattle.grammar.specs.Verdicts.{OneVerdict, Settles, accepted};
ghost use Rattle.limits.specs.Limits.{heaviest};
ghost use Rattle.tree.specs.Stands.{Stands};

use crate::fault::ProgramFault;
use crate::weigh::weight;
use limits::HEAVIEST;
use refusal::Refusal;
use tree::store::Tree;

pub mod fault;
mod weigh;

// A form that was taken: the node that stands for it, and what it weighs.
#[derive(Clone, Copy, Debug)]
pub struct Taken {
    pub root: usize,
    pub weight: u32,
}

// Reads the text's form into the tree, in the place of what it held, and weighs it before anything is expanded.
// A text that is refused leaves the tree with anything in it.
pub fn take(text: &[u8], tree: &mut Tree) -> Result<Taken, ProgramFault>
    ensures settles { MatchResult result
        (λ k. (f : Form) × Settles text.now (accepted f) × Stands tree.new f k.root × (k.weight ≡ weight_of f) × (weight_of f ≤ heaviest))
        (λ e. Why e text.now) }
    ensures once { OneVerdict text.now }
{
    let root = reader::read(text, tree)?;
    let weight = weight(tree, root);
    if weight > HEAVIEST {
        return Err(ProgramFault::TooHeavy);
    }
    Ok(Taken { root, weight })
}

// The same, as a refusal that has the number and the place of the fault.
pub fn read_text(text: &[u8], tree: &mut Tree) -> Result<Taken, Refusal>
    ensures settles { MatchResult result
        (λ k. (f : Form) × Settles text.now (accepted f) × Stands tree.new f k.root × (k.weight ≡ weight_of f) × (weight_of f ≤ heaviest))
        (λ e. Refused text.now e) }
    ensures once { OneVerdict text.now }
{
    Ok(take(text, tree)?)
}
