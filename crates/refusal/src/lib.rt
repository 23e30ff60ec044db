// Why a call of the reader is refused, and the record of an end.

#![tactic(auto)]

ghost use Rattle.std.specs.Prelude.{◌≡◌};
ghost use Rattle.refusal.specs.Refusals.{number_of, place_of};

mod ends;

pub use ends::End;

// A text has at most this many bytes.
pub const LONGEST_TEXT: usize = 4096;

// Why a call is refused, one type for all calls. A refused call leaves all as it was, but for a list whose table is too short,
// which keeps the first ends that fit.
#[derive(Clone, Copy, PartialEq, Eq, Debug)]
pub enum Refusal {
    // The block kind is wider than a search takes.
    KindTooWide,
    // The text has more than `LONGEST_TEXT` bytes.
    TextTooLong,
    // No token starts at `at`: a line feed before the text's last byte, a quote that meets a byte that no quote holds or the
    // text's end before it closes, or a byte that no token begins with.
    NoToken { at: usize },
    // The grammar has no such token at `at`. Where the text ends too early, `at` is its length.
    UnexpectedToken { at: usize },
    // The word at `at` is an item whose end is below its start, a count of copies that is too large, or a greatest count below
    // the least.
    BadNumber { at: usize },
    // The opening bracket at `at` nests too deep.
    TooDeep { at: usize },
    // The text weighs too much.
    TooHeavy,
    // No text was loaded.
    SearchEmpty,
    // The recording is closed.
    SearchClosed,
    // Ends that were matched are not drawn yet.
    EndsWaiting,
    // Too few working blocks, or a table of fewer than eight.
    TooFewBlocks,
    // More bytes than the call takes at once.
    TooManyBytes,
    // The recording would pass the longest allowed.
    RecordingTooLong,
    // The table of ends is full before the last end.
    TableTooShort,
    // The buffer is shorter than the line to print.
    BufferTooShort,
}

impl Refusal {
    // The number by which a refusal is reported. A method beside `place`, and no `From`: a report says both of a refusal.
    pub fn number(self) -> u8
        ensures { result ≡ number_of self }
    {
        match self {
            Refusal::KindTooWide => 1,
            Refusal::TextTooLong => 2,
            Refusal::NoToken { .. } => 3,
            Refusal::UnexpectedToken { .. } => 4,
            Refusal::BadNumber { .. } => 5,
            Refusal::TooDeep { .. } => 6,
            Refusal::TooHeavy => 7,
            Refusal::SearchEmpty => 8,
            Refusal::SearchClosed => 9,
            Refusal::EndsWaiting => 10,
            Refusal::TooFewBlocks => 11,
            Refusal::TooManyBytes => 12,
            Refusal::RecordingTooLong => 13,
            Refusal::TableTooShort => 14,
            Refusal::BufferTooShort => 15,
        }
    }

    // The place in the text that the refusal is about, if it is about one.
    pub fn place(self) -> Option<usize>
        ensures { result ≡ place_of self }
    {
        match self {
            Refusal::KindTooWide | Refusal::TooHeavy => Some(0),
            Refusal::TextTooLong => Some(LONGEST_TEXT),
            Refusal::NoToken { at }
            | Refusal::UnexpectedToken { at }
            | Refusal::BadNumber { at }
            | Refusal::TooDeep { at } => Some(at),
            Refusal::SearchEmpty
            | Refusal::SearchClosed
            | Refusal::EndsWaiting
            | Refusal::TooFewBlocks
            | Refusal::TooManyBytes
            | Refusal::RecordingTooLong
            | Refusal::TableTooShort
            | Refusal::BufferTooShort => None,
        }
    }
}

#[cfg(test)]
mod tests {
    use super::*;

    // Each refusal with its place, in the order of their numbers.
    const ALL: [(Refusal, Option<usize>); 15] = [
        (Refusal::KindTooWide, Some(0)),
        (Refusal::TextTooLong, Some(4096)),
        (Refusal::NoToken { at: 6 }, Some(6)),
        (Refusal::UnexpectedToken { at: 5 }, Some(5)),
        (Refusal::BadNumber { at: 11 }, Some(11)),
        (Refusal::TooDeep { at: 80 }, Some(80)),
        (Refusal::TooHeavy, Some(0)),
        (Refusal::SearchEmpty, None),
        (Refusal::SearchClosed, None),
        (Refusal::EndsWaiting, None),
        (Refusal::TooFewBlocks, None),
        (Refusal::TooManyBytes, None),
        (Refusal::RecordingTooLong, None),
        (Refusal::TableTooShort, None),
        (Refusal::BufferTooShort, None),
    ];

    #[test]
    fn numbers_count_from_one(rt: HostRuntime) {
        for (i, (refusal, _)) in ALL.iter().enumerate() {
            assert_eq!(rt; usize::from(refusal.number()), i + 1);
        }
    }

    #[test]
    fn places(rt: HostRuntime) {
        for (refusal, place) in ALL.iter() {
            assert_eq!(rt; refusal.place(), *place);
        }
    }
}
