// Tests of the matcher on the kinds that come with the reader: forms over recordings of every length up to 200, and a flash at every place
// of two blocks. Expected ends come from plain loops over the bytes of a line, one for each text.

#![tactic(auto)]

#[cfg(test)]
mod tests {
    use block::Block;
    use doubled::Doubled;
    use limits::{LINE_FEED, blocks_needed};
    use machine::Matcher;
    use marks::{Lines, list_block};
    use refusal::End;
    use runlist::RunList;
    use std::alloc::{AllocError, Global};
    use std::process::Abort;
    use std::test::Fail;
    use word::Word;

    type Pair = Doubled<Word>;

    type Four = Doubled<Doubled<Word>>;

    // Every end that the text has in a recording, block after block; a last line without line feed gets one.
    fn matched<B: Block>(heap: Global, text: &[u8], recording: &[u8]) -> Result<Vec<End>, Fail> {
        let mut bytes = Vec::new(heap);
        bytes.extend_from_slice(recording)?;
        if recording.last().is_some_and(|b| *b != LINE_FEED) {
            bytes.push(LINE_FEED)?;
        }
        let mut matcher = Matcher::new(heap)?;
        matcher.load(text)?;
        let mut blocks = vec![in heap; B::all(); blocks_needed(matcher.weight())]?;
        let mut table = vec![in heap; End::default(); bytes.len()]?;
        let mut count = 0;
        let mut lines: Option<Lines<B>> = None;
        for piece in bytes.chunks(B::width().max(1)) {
            let shown = matcher.match_block(piece, blocks.as_mut_slice())?;
            let mut here = match lines {
                None => Lines::first(shown.feeds),
                Some(mut before) => {
                    before.next(shown.feeds)?;
                    before
                }
            };
            count = list_block(shown.ends, &mut here, table.as_mut_slice(), count)?;
            lines = Some(here);
        }
        table.truncate(count);
        Ok(table)
    }

    // The ends at which `ends_at` holds, line by line: it is given a line and a column of it.
    fn plain<F: Fn(&[u8], usize) -> bool>(
        heap: Global,
        recording: &[u8],
        ends_at: F,
    ) -> Result<Vec<End>, AllocError>
        requires { F.IsAlwaysCallable ends_at }
    {
        let mut ends = Vec::new(heap);
        let mut line = 1usize;
        let mut position = 0usize;
        for bytes in recording.split(|b| *b == LINE_FEED) {
            if bytes.is_empty() && position == recording.len() {
                break;
            }
            for column in 0..bytes.len().saturating_add(1) {
                if ends_at(bytes, column) {
                    ends.push(End {
                        line,
                        column,
                        position: position.saturating_add(column),
                    })?;
                }
            }
            line = line.saturating_add(1);
            position = position.saturating_add(bytes.len()).saturating_add(1);
        }
        Ok(ends)
    }

    // Whether the line's bytes before the column are these.
    fn behind(line: &[u8], column: usize, bytes: &[u8]) -> bool {
        line.get(..column)
            .is_some_and(|early| early.ends_with(bytes))
    }

    // A made recording: the four bytes in no order, with runs of each.
    fn made(heap: Global, length: usize) -> Result<Vec<u8>, AllocError> {
        let mut bytes = Vec::with_capacity(heap, length)?;
        let mut state = 1u64;
        for _ in 0..length {
            state = state
                .wrapping_mul(6364136223846793005)
                .wrapping_add(1442695040888963407);
            bytes.push(match (state >> 33) % 16 {
                0 => b'\n',
                1..=3 => b'!',
                4..=9 => b'#',
                _ => b'.',
            })?;
        }
        Ok(bytes)
    }

    fn same<B: Block>(
        rt: &impl Abort,
        heap: Global,
        text: &[u8],
        recording: &[u8],
        expected: &[End],
        kind: &str,
    ) -> Result<(), Fail> {
        let found = matched::<B>(heap, text, recording)?;
        assert_eq!(rt; found.as_slice(), expected, "{kind}");
        Ok(())
    }

    fn on_all_kinds(
        rt: &impl Abort,
        heap: Global,
        text: &[u8],
        recording: &[u8],
        expected: &[End],
    ) -> Result<(), Fail> {
        same::<Word>(rt, heap, text, recording, expected, "word")?;
        same::<RunList>(rt, heap, text, recording, expected, "run list")?;
        same::<Pair>(rt, heap, text, recording, expected, "word doubled")?;
        same::<Four>(rt, heap, text, recording, expected, "word doubled twice")?;
        same::<Doubled<RunList>>(rt, heap, text, recording, expected, "run list doubled")
    }

    // The beginnings of a made recording, up to 200 bytes.
    fn every_length<F: Fn(&[u8], usize) -> bool>(
        rt: &impl Abort,
        heap: Global,
        text: &[u8],
        ends_at: F,
    ) -> Result<(), Fail>
        requires { F.IsAlwaysCallable ends_at }
    {
        let whole = made(heap, 200)?;
        for length in 0..=200usize {
            let recording = whole.get(..length).unwrap_or(&[]);
            let expected = plain(heap, recording, &ends_at)?;
            on_all_kinds(rt, heap, text, recording, expected.as_slice())?;
        }
        Ok(())
    }

    #[test]
    fn bytes_in_order(rt: HostRuntime) -> Result<(), Fail> {
        let heap = rt.alloc();
        every_length(
            &rt,
            heap,
            b"(seek \"##\")",
            |line, p| behind(line, p, b"##"),
        )
    }

    #[test]
    fn a_counted_flash(rt: HostRuntime) -> Result<(), Fail> {
        let heap = rt.alloc();
        every_length(&rt, heap, FLASH, flashes)
    }

    #[test]
    fn a_byte_of_none(rt: HostRuntime) -> Result<(), Fail> {
        let heap = rt.alloc();
        every_length(
            &rt,
            heap,
            b"(seek (out 2E 21))",
            |line, p| behind(line, p, b"#"),
        )
    }

    #[test]
    fn whole_lines(rt: HostRuntime) -> Result<(), Fail> {
        let heap = rt.alloc();
        every_length(
            &rt,
            heap,
            b"(seek (seq (start) (star (set 23 2E)) (end)))",
            |line, p| p == line.len() && line.iter().all(|b| *b == b'#' || *b == b'.'),
        )
    }

    // `!`, then any number of `#.`, then `!`: found by going back from the column.
    fn pairs_back(line: &[u8], column: usize) -> bool {
        let Some(early) = line.get(..column) else {
            return false;
        };
        let Some(mut early) = early.strip_suffix(b"!") else {
            return false;
        };
        for _ in 0..line.len() {
            let Some(rest) = early.strip_suffix(b"#.") else {
                break;
            };
            early = rest;
        }
        early.ends_with(b"!")
    }

    #[test]
    fn a_star_of_several_steps(rt: HostRuntime) -> Result<(), Fail> {
        let heap = rt.alloc();
        every_length(
            &rt,
            heap,
            b"(seek (seq \"!\" (star \"#.\") \"!\"))",
            pairs_back,
        )
    }

    // `!`, then `#` and `.` of which the last is no `#`, then `!`.
    fn between_marks(line: &[u8], column: usize) -> bool {
        let Some(early) = line.get(..column) else {
            return false;
        };
        let Some(rest) = early.strip_suffix(b"!") else {
            return false;
        };
        match rest.iter().rposition(|b| *b == b'!') {
            Some(_) => !rest.ends_with(b"#"),
            None => false,
        }
    }

    #[test]
    fn a_star_in_a_star(rt: HostRuntime) -> Result<(), Fail> {
        let heap = rt.alloc();
        every_length(
            &rt,
            heap,
            b"(seek (seq \"!\" (star (seq (star \"#\") \".\")) \"!\"))",
            between_marks,
        )
    }

    #[test]
    fn every_place(rt: HostRuntime) -> Result<(), Fail> {
        let heap = rt.alloc();
        every_length(&rt, heap, b"(seek (star (or \"#\" \"..\")))", |_, _| true)
    }

    const FLASH: &[u8] = b"(seek (seq \".\" (rep 2 3 \"#\") \".\"))";

    fn flashes(line: &[u8], column: usize) -> bool {
        behind(line, column, b".##.") || behind(line, column, b".###.")
    }

    // The same flash at every place of two blocks, on each kind's own width.
    fn shifted<B: Block>(rt: &impl Abort, heap: Global, kind: &str) -> Result<(), Fail> {
        let two = B::width().saturating_mul(2);
        for place in 0..two {
            let mut recording = vec![in heap; b'.'; place]?;
            recording.extend_from_slice(b"###")?;
            recording.extend_from_slice(vec![in heap; b'.'; two.saturating_sub(
                place
            )]?.as_slice())?;
            let expected = plain(heap, recording.as_slice(), flashes)?;
            assert_eq!(rt; expected.len(), usize::from(place > 0));
            same::<B>(
                rt,
                heap,
                FLASH,
                recording.as_slice(),
                expected.as_slice(),
                kind,
            )?;
        }
        Ok(())
    }

    #[test]
    fn a_flash_at_every_place(rt: HostRuntime) -> Result<(), Fail> {
        let heap = rt.alloc();
        shifted::<Word>(&rt, heap, "word")?;
        shifted::<RunList>(&rt, heap, "run list")?;
        shifted::<Pair>(&rt, heap, "word doubled")?;
        shifted::<Four>(&rt, heap, "word doubled twice")
    }
}
