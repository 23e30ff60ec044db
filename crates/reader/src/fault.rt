// Why a text is not read.
ghost use Rattle.reader.specs.declared.fault.FormFault.TheVariants.{NoToken};
ghost use Rattle.std.specs.Prelude.{◌≡◌};

use lexer::TokenFault;

// A fault of the text as a whole or of one of its tokens, with the token's place. A type of its own, and no `Refusal`: what a fault is
// called outside is said once, where the compiler hands it on.
#[derive(Clone, Copy, Debug)]
pub enum FormFault {
    TooLong,
    NoToken(TokenFault),
    Unexpected { at: usize },
    BadNumber { at: usize },
    TooDeep { at: usize },
}

// Written and not derived: only a written impl can have `from_gives`, by which a `?` tells which fault it has made.
impl From<TokenFault> for FormFault {
    ghost from_gives = { λ e r. r ≡ NoToken e };

    fn from(e: TokenFault) -> FormFault {
        FormFault::NoToken(e)
    }
}
