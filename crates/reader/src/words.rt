// The single tokens that the grammar asks for.
ghost use Rattle.std.specs.Prelude.{◌≡◌, ℕ, List, [], ◌∷◌, MatchResult};
ghost use Rattle.grammar.proofs.Refusals.{Refused};
ghost use Rattle.grammar.proofs.Wants.{Numeric, Want, Wordy, least as least_wanted, shut, top};
ghost use Rattle.lexer.specs.Places.{place_of, start_of, text_of};
ghost use Rattle.lexer.specs.Tokens.{Lexes, closing, opening, word as word_tok};
ghost use Rattle.reader.specs.Faults.{verdict};
ghost use Rattle.reader.specs.declared.fault.FormFault.TheVariants.{Unexpected};
ghost use Rattle.reader.specs.Reading.{CountRead, CountsRead, Over, Refuses};

use crate::fault::FormFault;
use grammar::number;
use lexer::{Lexer, Token};

// The fault of the token last read, where another is wanted.
pub(crate) fn unexpected(lexer: &Lexer) -> FormFault
    ensures { result ≡ Unexpected (start_of lexer.now) }
{
    FormFault::Unexpected { at: lexer.start() }
}

pub(crate) fn word<'a>(lexer: &mut Lexer<'a>) -> Result<&'a [u8], FormFault>
    ensures same { text_of lexer.new ≡ text_of lexer.old }
    ensures reads { MatchResult result
        (λ w. Lexes (text_of lexer.old) (place_of lexer.old) (word_tok w.now) (start_of lexer.new) (place_of lexer.new))
        (λ e. (w : Want) (σ : List Want) → Wordy w → Refused (text_of lexer.old) (place_of lexer.old) (w ∷ σ) (verdict e)) }
{
    match lexer.next()? {
        Token::Word(w) => Ok(w),
        _ => Err(unexpected(lexer)),
    }
}

// The bracket of seek. It and `close` are two functions: with the bracket differs what the grammar wants there, and one function would
// need a definition that pairs the two.
pub(crate) fn open(lexer: &mut Lexer) -> Result<(), FormFault>
    ensures same { text_of lexer.new ≡ text_of lexer.old }
    ensures reads { MatchResult result
        (λ _. Lexes (text_of lexer.old) (place_of lexer.old) opening (start_of lexer.new) (place_of lexer.new))
        (Refuses lexer.old (top ∷ [])) }
{
    match lexer.next()? {
        Token::Open => Ok(()),
        _ => Err(unexpected(lexer)),
    }
}

pub(crate) fn close(lexer: &mut Lexer) -> Result<(), FormFault>
    ensures same { text_of lexer.new ≡ text_of lexer.old }
    ensures reads { MatchResult result
        (λ _. Lexes (text_of lexer.old) (place_of lexer.old) closing (start_of lexer.new) (place_of lexer.new))
        (Refuses lexer.old (shut ∷ [])) }
{
    match lexer.next()? {
        Token::Close => Ok(()),
        _ => Err(unexpected(lexer)),
    }
}

// A count of copies, not below `least`.
fn count(lexer: &mut Lexer, least: u8) -> Result<u8, FormFault>
    ensures same { text_of lexer.new ≡ text_of lexer.old }
    ensures reads { MatchResult result
        (λ n. Over CountRead lexer.old lexer.new least n)
        (λ e. (w : Want) (σ : List Want) → Numeric w least → Refused (text_of lexer.old) (place_of lexer.old) (w ∷ σ) (verdict e)) }
{
    let w = word(lexer)?;
    let n = number(w).ok_or(unexpected(lexer))?;
    // no part is repeated more often than a byte can say
    match u8::try_from(n) {
        Ok(n) if n >= least => Ok(n),
        _ => Err(FormFault::BadNumber { at: lexer.start() }),
    }
}

// The two counts of a rep.
pub(crate) fn counts(lexer: &mut Lexer) -> Result<(u8, u8), FormFault>
    ensures same { text_of lexer.new ≡ text_of lexer.old }
    ensures reads { MatchResult result
        (λ c. Over CountsRead lexer.old lexer.new c.0 c.1)
        (λ e. (d : ℕ) → Refuses lexer.old (least_wanted d ∷ []) e) }
{
    let least = count(lexer, 0)?;
    let most = count(lexer, least)?;
    Ok((least, most))
}
