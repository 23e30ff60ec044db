// The items of a set.
ghost use Rattle.std.specs.Prelude.{◌≡◌, List, [], ◌∷◌, MatchResult};
ghost use Rattle.grammar.proofs.Wants.{item as item_wanted, items as items_wanted};
ghost use Rattle.lexer.specs.Places.{text_of};
ghost use Rattle.reader.specs.Reading.{ItemRead, ItemsRead, Over, Refuses, Room};

use crate::fault::FormFault;
use crate::words::{unexpected, word};
use grammar::spelt;
use lexer::Lexer;
use tree::node::Range;
use tree::store::Tree;

fn item(lexer: &mut Lexer, tree: &mut Tree) -> Result<(), FormFault>
    requires { Room lexer.old tree.old }
    ensures same { text_of lexer.new ≡ text_of lexer.old }
    ensures reads { MatchResult result
        (λ _. Over ItemRead lexer.old lexer.new tree.old tree.new)
        (Refuses lexer.old (item_wanted ∷ [])) }
{
    let w = word(lexer)?;
    let r = spelt(w).ok_or(unexpected(lexer))?;
    if r.high < r.low {
        return Err(FormFault::BadNumber { at: lexer.start() });
    }
    tree.range(r).unwrap();
    Ok(())
}

// The items up to the closing bracket. It and `some_items` call each other, as lists of forms do: what the grammar wants next differs.
#[cycle(items_some_items)]
pub(crate) fn items(lexer: &mut Lexer, tree: &mut Tree) -> Result<(), FormFault>
    requires { Room lexer.old tree.old }
    ensures same { text_of lexer.new ≡ text_of lexer.old }
    ensures reads { MatchResult result
        (λ _. (kept : List Range) × Over ItemsRead lexer.old lexer.new tree.old tree.new kept)
        (Refuses lexer.old (items_wanted ∷ [])) }
{
    if lexer.closes() {
        return Ok(());
    }
    some_items(lexer, tree)
}

// One item or more, up to the closing bracket.
#[cycle(items_some_items)]
pub(crate) fn some_items(lexer: &mut Lexer, tree: &mut Tree) -> Result<(), FormFault>
    requires { Room lexer.old tree.old }
    ensures same { text_of lexer.new ≡ text_of lexer.old }
    ensures reads { MatchResult result
        (λ _. (first : Range) × (kept : List Range) × Over ItemsRead lexer.old lexer.new tree.old tree.new (first ∷ kept))
        (Refuses lexer.old (item_wanted ∷ items_wanted ∷ [])) }
{
    item(lexer, tree)?;
    items(lexer, tree)
}
