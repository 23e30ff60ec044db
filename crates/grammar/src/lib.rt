// The grammar of a character's text: what its words spell, and what follows from the grammar alone.

#![tactic(auto)]

ghost use Rattle.std.specs.Prelude.{◌≡◌, ◌-◌, ◌<◌, true, false, ◌&&◌, MatchOption, ◌≢◌};
ghost use Rattle.grammar.specs.Names.{name};
ghost use Rattle.grammar.specs.Verdicts.{SeekAlone};
ghost use Rattle.grammar.specs.Words.{byte_of, hex_of, is_digit, is_hex, item_of, number_of};
ghost use Rattle.std.specs.Option.{option_map};
ghost use Rattle.tree.specs.Stands.{item as item_in};

use tree::node::Range;

// The word behind an opening bracket.
#[derive(Clone, Copy, Debug, PartialEq, Eq)]
pub enum Head {
    Set,
    Out,
    Seq,
    Or,
    Star,
    Rep,
    Start,
    End,
}

pub fn named(w: &[u8]) -> Option<Head>
    ensures { MatchOption result ((h : Head) → w.now ≢ name h) (λ h. w.now ≡ name h) }
{
    match w {
        b"set" => Some(Head::Set),
        b"out" => Some(Head::Out),
        b"seq" => Some(Head::Seq),
        b"or" => Some(Head::Or),
        b"star" => Some(Head::Star),
        b"rep" => Some(Head::Rep),
        b"start" => Some(Head::Start),
        b"end" => Some(Head::End),
        _ => None,
    }
}

fn hex(b: u8) -> Option<u8>
    ensures { MatchOption result (is_hex b ≡ false) (λ d. (is_hex b ≡ true) × (d ≡ hex_of b) × (d < 16)) }
{
    match b {
        b'0'..=b'9' => Some(b - b'0'),
        b'A'..=b'F' => Some(b - b'A' + 10),
        _ => None,
    }
}

fn pair(a: u8, b: u8) -> Option<u8>
    ensures { MatchOption result ((is_hex a && is_hex b) ≡ false) (λ d. ((is_hex a && is_hex b) ≡ true) × (d ≡ byte_of a b)) }
{
    Some(hex(a)? * 16 + hex(b)?)
}

// The item that a word spells.
pub fn spelt(w: &[u8]) -> Option<Range>
    ensures { option_map item_in result ≡ item_of w.now }
{
    match w {
        [a, b] => {
            let low = pair(*a, *b)?;
            Some(Range { low, high: low })
        }
        [a, b, b'-', c, d] => {
            let low = pair(*a, *b)?;
            let high = pair(*c, *d)?;
            Some(Range { low, high })
        }
        _ => None,
    }
}

fn digit(b: u8) -> Option<u16>
    ensures { MatchOption result (is_digit b ≡ false) (λ d. (is_digit b ≡ true) × (d ≡ b - 48) × (d < 10)) }
{
    match b {
        b'0'..=b'9' => Some(u16::from(b - b'0')),
        _ => None,
    }
}

// The number that a word of one to three digits spells.
pub fn number(w: &[u8]) -> Option<u16>
    ensures { result ≡ number_of w.now }
{
    match w {
        [a] => digit(*a),
        [a, b] => Some(digit(*a)? * 10 + digit(*b)?),
        [a, b, c] => Some(digit(*a)? * 100 + digit(*b)? * 10 + digit(*c)?),
        _ => None,
    }
}

// A bracket of seek with no form in it is refused at its closing bracket.
pub fn seek_alone_is_refused()
    ensures { SeekAlone }
{}
