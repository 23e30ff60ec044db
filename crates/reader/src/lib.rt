// Reads the text of a character into a tree.

#![tactic(auto)]

ghost use Rattle.form.specs.Form.{Form};
ghost use Rattle.grammar.specs.Verdicts.{OneVerdict, Settles, accepted};
ghost use Rattle.reader.specs.Faults.{verdict};
ghost use Rattle.tree.specs.Stands.{Stands};
ghost use Rattle.std.specs.Prelude.{◌≡◌, MatchResult};

use crate::fault::FormFault;
use crate::whole::whole;
use tree::store::{LONGEST, Tree};

mod depth;
pub mod fault;
mod forms;
mod items;
mod whole;
mod words;

// Reads the text's form into the tree, in the place of what it held, and answers the node that stands for it.
// A text that is refused leaves the tree with anything in it.
pub fn read(text: &[u8], tree: &mut Tree) -> Result<usize, FormFault>
    ensures settles { MatchResult result
        (λ i. (f : Form) × Settles text.now (accepted f) × Stands tree.new f i × ((g : Form) → Stands tree.new g i → g ≡ f))
        (λ e. Settles text.now (verdict e)) }
    ensures once { OneVerdict text.now }
{
    if text.len() > LONGEST {
        return Err(FormFault::TooLong);
    }
    tree.clear();
    whole(text, tree)
}
