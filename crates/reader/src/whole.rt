// A whole text.
ghost use Rattle.form.specs.Form.{Form};
ghost use Rattle.grammar.specs.Verdicts.{Says, accepted};
ghost use Rattle.reader.specs.Faults.{verdict};
ghost use Rattle.reader.specs.Reading.{RoomAt};
ghost use Rattle.tree.specs.Stands.{Stands};
ghost use Rattle.std.specs.Prelude.{MatchResult};

use crate::depth::Depth;
use crate::fault::FormFault;
use crate::forms::single;
use crate::words::{open, unexpected, word};
use lexer::{Lexer, Token};
use tree::store::Tree;

// The bracket of seek with its form, and the text's end; the tree is empty.
pub(crate) fn whole(text: &[u8], tree: &mut Tree) -> Result<usize, FormFault>
    requires { RoomAt text.now tree.old 0 }
    ensures { MatchResult result
        (λ i. (f : Form) × Says text.now (accepted f) × Stands tree.new f i)
        (λ e. Says text.now (verdict e)) }
{
    let mut lexer = Lexer::new(text);
    open(&mut lexer)?;
    let w = word(&mut lexer)?;
    if w != b"seek".as_slice() {
        return Err(unexpected(&lexer));
    }
    let part = single(&mut lexer, tree, Depth::outermost())?;
    match lexer.next()? {
        Token::End => Ok(part),
        _ => Err(unexpected(&lexer)),
    }
}
