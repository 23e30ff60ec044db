// Lists the flashes of a recording: reads it from standard input and prints, for each run of lit samples, the turn and the
// column behind its last one.

#![tactic(auto)]

ghost use Rattle.std.specs.Prelude.{◌≤◌, length, IfOk};

use block::Block;
use flash::{Flashes, LONGEST};
use refusal::{End, Refusal};
use report::{print_declined, print_end};
use std::io::Read;
use stream::BASIS;
use word::Word;

// How many bytes are read at a time.
const PIECE: usize = 65_536;

// More bytes than any printed line has. The reader allocates nothing, so each line is printed into a buffer of this length.
const LINE: usize = 64;

fn main(rt: HostRuntime) -> anyhow::Result<()> {
    run::<Word>(&rt)
}

// The whole program, on any kind of block. Memory stays the same however long the recording is.
fn run<B: Block>(rt: &HostRuntime) -> anyhow::Result<()> {
    let heap = rt.alloc();
    let mut piece = vec![in heap; 0; PIECE]?;
    let mut table = vec![in heap; B::none(); BASIS]?;
    let mut ends = vec![in heap; End::default(); PIECE]?;
    list(rt, &mut piece, &mut table, &mut ends)
}

// Reads, searches and prints piece after piece, and then a run that is still lit.
fn list<B: Block>(
    rt: &HostRuntime,
    piece: &mut [u8],
    table: &mut [B],
    ends: &mut [End],
) -> anyhow::Result<()> {
    let mut text = Vec::new(rt.alloc());
    let mut reader = Flashes::new();
    let mut left = LONGEST;
    // Every loop is proved to end: no input has as many pieces as this.
    for _ in 0..u64::MAX {
        let n = read_some(rt, piece, left)?;
        if n == 0 {
            break;
        }
        if n > left {
            return decline(rt, Refusal::RecordingTooLong);
        }
        left -= n;
        match reader.feed(&piece[0..n], table, ends) {
            Ok(count) => print_all(rt, &mut text, &ends[0..count])?,
            Err(refusal) => return decline(rt, refusal),
        }
    }
    if let Some(end) = reader.close() {
        print_all(rt, &mut text, &[end])?;
    }
    Ok(())
}

// Reads at most `left` bytes, or one more where none is left: a recording within its limit has none there.
fn read_some(rt: &HostRuntime, piece: &mut [u8], left: usize) -> anyhow::Result<usize>
    ensures { IfOk result (λ n. n ≤ length piece.old) }
{
    let most = piece.len().min(left.max(1));
    Ok(rt.stdin().read(&mut piece[0..most])?)
}

// Prints a line for each end.
fn print_all(rt: &HostRuntime, text: &mut Vec<u8>, ends: &[End]) -> anyhow::Result<()> {
    text.clear();
    for end in ends {
        add_line(text, *end)?;
    }
    rt.write_all(text)?;
    Ok(())
}

fn add_line(text: &mut Vec<u8>, end: End) -> anyhow::Result<()> {
    let mut line = [0u8; LINE];
    if let Ok(n) = print_end(end, &mut line) {
        text.extend_from_slice(&line[0..n])?;
    }
    Ok(())
}

fn decline(rt: &HostRuntime, refusal: Refusal) -> anyhow::Result<()> {
    let mut line = [0u8; LINE];
    if let Ok(n) = print_declined(refusal, &mut line) {
        rt.write_all(&line[0..n])?;
    }
    Ok(())
}
