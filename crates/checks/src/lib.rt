// Tests of the stream calls and of the flash library on the kinds that come with the reader. Expected values come from the
// rules, or from a plain loop over the bytes.

#![tactic(auto)]

use block::Block;
use flash::{Flashes, list_flashes};
use refusal::{End, Refusal};
use std::alloc::{AllocError, Global};
use stream::{BASIS, ByteSet, back, class, match_star, transpose};

// What the stream calls find in one block of samples, by places.
#[derive(Drop, PartialEq, Eq, Debug)]
pub struct Found {
    // Lit samples.
    pub lit: Vec<usize>,
    // What the first lit sample, if the first sample is dark, and the carry reach through lit samples.
    pub reached: Vec<usize>,
    // The bytes, transposed back.
    pub bytes: Vec<u8>,
}

// A table of blocks for the basis.
pub fn blocks<B: Block>(heap: Global) -> Result<Vec<B>, AllocError> {
    vec![in heap; B::none(); BASIS]
}

// The places below `n` that hold a one.
pub fn places<B: Block>(heap: Global, block: B, n: usize) -> Result<Vec<usize>, AllocError> {
    (0..n).filter(|p| block.first(*p) == Some(*p)).collect(heap)
}

// Transposes the samples, makes classes of them, matches and transposes back.
pub fn exercise<B: Block>(heap: Global, samples: &[u8], carry: bool) -> Result<Found, Fault> {
    let mut table = blocks::<B>(heap)?;
    transpose(samples, &mut table)?;
    let lit = class(&table, ByteSet::none().with(b'#'))?;
    let dark = class(&table, ByteSet::none().with(b'.'))?;
    let (after_dark, _) = dark.advance(false);
    let (reached, _) = match_star(after_dark.and(lit), lit, carry);
    let mut bytes = vec![in heap; 0; samples.len()]?;
    back(&table, &mut bytes)?;
    Ok(Found {
        lit: places(heap, lit, samples.len())?,
        reached: places(heap, reached, samples.len())?,
        bytes,
    })
}

// Why an exercise could not be made.
#[derive(Drop, Debug)]
pub enum Fault {
    Memory,
    Refused(Refusal),
}

impl From<AllocError> for Fault {
    fn from(_e: AllocError) -> Fault {
        Fault::Memory
    }
}

impl From<std::alloc::AllocFailed<usize>> for Fault {
    fn from(_e: std::alloc::AllocFailed<usize>) -> Fault {
        Fault::Memory
    }
}

impl From<Refusal> for Fault {
    fn from(e: Refusal) -> Fault {
        Fault::Refused(e)
    }
}

#[cfg(test)]
mod tests {
    use super::*;
    use doubled::Doubled;
    use runlist::RunList;
    use std::process::Abort;
    use std::test::Fail;
    use stream::transpose_and_back;
    use word::Word;

    const SAMPLES: &[u8] = b"##..#...###.\n\x00\xff#.#.##..##########..#...";

    const NOWHERE: End = End {
        line: 0,
        column: 0,
        position: 0,
    };

    #[test]
    fn match_star_steps_through_a_class(rt: HostRuntime) {
        assert_eq!(rt;
            match_star(Word { bits: 2 }, Word { bits: 14 }, false),
            (Word { bits: 30 }, false)
        );
        assert_eq!(rt;
            match_star(Word::none(), Word::all(), true),
            (Word::all(), true)
        );
        assert_eq!(rt;
            match_star(Word { bits: 8 }, Word::none(), false),
            (Word { bits: 8 }, false)
        );
    }

    // Each kind is held to the plain places, so all of them find the same.
    fn finds_lit<B: Block>(rt: &impl Abort, heap: Global, kind: &str) -> Result<(), Fail> {
        let found = exercise::<B>(heap, SAMPLES, true)?;
        assert_eq!(rt; found.bytes.as_slice(), SAMPLES, "{kind}");
        let lit: Vec<usize> = (0..SAMPLES.len())
            .filter(|i| SAMPLES[*i] == b'#')
            .collect(heap)?;
        assert_eq!(rt; found.lit, lit, "{kind}");
        assert_eq!(rt;
            found.reached.as_slice(),
            [
                0, 1, 2, 4, 5, 8, 9, 10, 11, 17, 18, 19, 20, 21, 23, 24, 25, 26, 27, 28, 29, 30,
                31, 32, 33, 35, 36,
            ]
            .as_slice(),
            "{kind}"
        );
        Ok(())
    }

    #[test]
    fn kinds_find_the_same_places(rt: HostRuntime) -> Result<(), Fail> {
        let heap = rt.alloc();
        finds_lit::<Word>(&rt, heap, "word")?;
        finds_lit::<RunList>(&rt, heap, "run list")?;
        finds_lit::<Doubled<Word>>(&rt, heap, "word doubled")?;
        finds_lit::<Doubled<Doubled<Word>>>(&rt, heap, "word doubled twice")?;
        finds_lit::<Doubled<RunList>>(&rt, heap, "run list doubled")
    }

    #[test]
    fn bytes_come_back(rt: HostRuntime) -> Result<(), Fail> {
        let heap = rt.alloc();
        let mut bytes = Vec::new(heap);
        for n in 0..65u8 {
            let mut table = blocks::<Word>(heap)?;
            let mut again = vec![in heap; 0; bytes.len()]?;
            transpose_and_back(&bytes, &mut table, &mut again)?;
            assert_eq!(rt; again, bytes);
            bytes.push(n.wrapping_mul(37).wrapping_add(200))?;
        }
        Ok(())
    }

    #[test]
    fn refusals_leave_all(rt: HostRuntime) {
        let long = [7u8; 65];
        let mut few = [Word { bits: 9 }; 7];
        assert_eq!(rt; transpose(&long, &mut few), Err(Refusal::TooFewBlocks));
        assert_eq!(rt; few, [Word { bits: 9 }; 7]);
        assert_eq!(rt; class(&few, ByteSet::none()), Err(Refusal::TooFewBlocks));
        let mut table = [Word { bits: 9 }; 9];
        assert_eq!(rt; transpose(&long, &mut table), Err(Refusal::TooManyBytes));
        assert_eq!(rt; table, [Word { bits: 9 }; 9]);
        let mut buffer = [3u8; 65];
        assert_eq!(rt; back(&table, &mut buffer), Err(Refusal::TooManyBytes));
        assert_eq!(rt; buffer.as_slice(), [3u8; 65].as_slice());
        assert_eq!(rt; transpose(&[1, 2], &mut table), Ok(()));
        assert_eq!(rt; table.last().copied(), Some(Word { bits: 9 }));
    }

    // The ends by a plain loop over the bytes.
    fn plain(heap: Global, bytes: &[u8]) -> Result<Vec<End>, AllocError> {
        let mut ends = Vec::new(heap);
        let mut here = End {
            line: 1,
            column: 0,
            position: 0,
        };
        let mut lit = false;
        for byte in bytes {
            if lit && *byte != b'#' {
                ends.push(here)?;
            }
            lit = *byte == b'#';
            here.position = here.position.wrapping_add(1);
            here.column = here.column.wrapping_add(1);
            if *byte == b'\n' {
                here.line = here.line.wrapping_add(1);
                here.column = 0;
            }
        }
        if lit {
            ends.push(here)?;
        }
        Ok(ends)
    }

    // A recording of about three blocks of words, with runs over both borders and up to its end.
    const RECORDING: &[u8] =
        b"#.##\n\n.......##########################################################..\n####################################################################....#\n###......##";

    fn cut_at<B: Block>(heap: Global, cut: usize) -> Result<Vec<End>, Fail> {
        let mut table = blocks::<B>(heap)?;
        let mut ends = vec![in heap; NOWHERE; RECORDING.len()]?;
        let mut all = Vec::new(heap);
        let mut reader = Flashes::new();
        let (early, late) = RECORDING.split_at(cut.min(RECORDING.len()));
        for piece in [early, late] {
            let n = reader.feed(piece, &mut table, &mut ends)?;
            all.extend(ends.iter().copied().take(n))?;
        }
        all.extend(reader.close())?;
        Ok(all)
    }

    fn any_cut<B: Block>(rt: &impl Abort, heap: Global, kind: &str) -> Result<(), Fail> {
        let expected = plain(heap, RECORDING)?;
        for cut in 0..RECORDING.len() {
            let found = cut_at::<B>(heap, cut)?;
            assert_eq!(rt; found, expected, "{kind}");
        }
        let mut table = blocks::<B>(heap)?;
        let mut ends = vec![in heap; NOWHERE; RECORDING.len() + 1]?;
        let n = list_flashes(RECORDING, &mut table, &mut ends)?;
        assert_eq!(rt; ends.get(..n), Some(expected.as_slice()), "{kind}");
        Ok(())
    }

    #[test]
    fn any_cut_gives_the_ends(rt: HostRuntime) -> Result<(), Fail> {
        let heap = rt.alloc();
        any_cut::<Word>(&rt, heap, "word")?;
        any_cut::<RunList>(&rt, heap, "run list")?;
        any_cut::<Doubled<Word>>(&rt, heap, "word doubled")?;
        any_cut::<Doubled<Doubled<Word>>>(&rt, heap, "word doubled twice")?;
        any_cut::<Doubled<RunList>>(&rt, heap, "run list doubled")
    }

    #[test]
    fn flash_refusals_leave_all(rt: HostRuntime) {
        let mut few = [Word { bits: 9 }; 7];
        let mut table = [Word { bits: 9 }; 8];
        let mut ends = [NOWHERE; 2];
        let mut reader = Flashes::new();
        assert_eq!(rt;
            reader.feed(b"##.", &mut few, &mut ends),
            Err(Refusal::TooFewBlocks)
        );
        assert_eq!(rt;
            reader.feed(b"##.", &mut table, &mut ends),
            Err(Refusal::TableTooShort)
        );
        assert_eq!(rt;
            list_flashes(b"##", &mut table, &mut ends),
            Err(Refusal::TableTooShort)
        );
        assert_eq!(rt; reader, Flashes::new());
        assert_eq!(rt; table, [Word { bits: 9 }; 8]);
        assert_eq!(rt; ends, [NOWHERE; 2]);
        assert_eq!(rt; list_flashes(b"#", &mut table, &mut ends), Ok(1));
        assert_eq!(rt;
            ends,
            [
                End {
                    line: 1,
                    column: 1,
                    position: 1,
                },
                NOWHERE,
            ]
        );
    }
}
