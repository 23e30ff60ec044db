// A line of a script.
ghost use Rattle.std.specs.Prelude.{◌<◌, IfSome};

use replay::Request;
use search::Call;
use std::alloc::{AllocError, Global};

// What a line asks of the search. A verb and no `Call`: a call borrows its bytes, and a line owns them.
#[derive(Clone, Copy)]
enum Verb {
    Load,
    Rewind,
    Feed,
    Draw,
    Close,
    Taken,
    Weight,
    Waiting,
}

// A call, with the bytes of its text or piece, and how many working blocks it gets.
#[derive(Drop)]
pub struct Line {
    verb: Verb,
    bytes: Vec<u8>,
    blocks: usize,
}

// What a line says.
#[derive(Drop)]
pub enum Parsed {
    Call(Line),
    // How many working blocks the calls behind it get.
    Blocks(usize),
}

impl Verb {
    fn named(word: &str) -> Option<Verb> {
        match word {
            "load" => Some(Verb::Load),
            "rewind" => Some(Verb::Rewind),
            "feed" => Some(Verb::Feed),
            "draw" => Some(Verb::Draw),
            "close" => Some(Verb::Close),
            "taken" => Some(Verb::Taken),
            "weight" => Some(Verb::Weight),
            "waiting" => Some(Verb::Waiting),
            _ => None,
        }
    }

    fn name(self) -> &'static str {
        match self {
            Verb::Load => "load",
            Verb::Rewind => "rewind",
            Verb::Feed => "feed",
            Verb::Draw => "draw",
            Verb::Close => "close",
            Verb::Taken => "taken",
            Verb::Weight => "weight",
            Verb::Waiting => "waiting",
        }
    }
}

impl Line {
    pub fn request(&self) -> Request<'_> {
        let bytes = self.bytes.as_slice();
        let call = match self.verb {
            Verb::Load => Call::Load(bytes),
            Verb::Rewind => Call::Rewind,
            Verb::Feed => Call::Feed(bytes),
            Verb::Draw => Call::Draw,
            Verb::Close => Call::Close,
            Verb::Taken => Call::Taken,
            Verb::Weight => Call::Weight,
            Verb::Waiting => Call::Waiting,
        };
        Request {
            call,
            blocks: self.blocks,
        }
    }

    pub fn name(&self) -> &'static str {
        self.verb.name()
    }
}

fn hex(digit: u8) -> Option<u8>
    ensures { IfSome result (λ d. d < 16) }
{
    match digit {
        b'0'..=b'9' => Some(digit - b'0'),
        b'A'..=b'F' => Some(digit - b'A' + 10),
        _ => None,
    }
}

// The byte that an escape stands for, and what is behind it; none where it is no escape.
fn escaped(text: &[u8]) -> Option<(u8, &[u8])> {
    match text {
        [b'n', rest @ ..] => Some((b'\n', rest)),
        [b'\\', rest @ ..] => Some((b'\\', rest)),
        [b'x', high, low, rest @ ..] => Some((hex(*high)? * 16 + hex(*low)?, rest)),
        _ => None,
    }
}

// The bytes of a piece or a text, or none where an escape is none.
fn unescape(heap: Global, text: &[u8]) -> Result<Option<Vec<u8>>, AllocError> {
    let mut bytes = Vec::with_capacity(heap, text.len())?;
    let mut rest = text;
    // counted, so that the loop is seen to end
    for _ in 0..text.len() {
        let Some((first, tail)) = rest.split_first() else {
            break;
        };
        let (byte, tail) = if *first == b'\\' {
            let Some(found) = escaped(tail) else {
                return Ok(None);
            };
            found
        } else {
            (*first, tail)
        };
        bytes.push(byte)?;
        rest = tail;
    }
    Ok(Some(bytes))
}

// Reads a line, where calls get so many working blocks; none where it is no call.
pub fn parse(heap: Global, text: &str, blocks: usize) -> Result<Option<Parsed>, AllocError> {
    let (word, rest) = text.split_once(' ').unwrap_or((text, ""));
    if word == "blocks" {
        return Ok(rest.parse::<usize>().ok().map(Parsed::Blocks));
    }
    let Some(verb) = Verb::named(word) else {
        return Ok(None);
    };
    let Some(bytes) = unescape(heap, rest.as_bytes())? else {
        return Ok(None);
    };
    Ok(Some(Parsed::Call(Line {
        verb,
        bytes,
        blocks,
    })))
}
