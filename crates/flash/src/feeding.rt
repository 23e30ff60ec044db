// A recording read piece by piece, or whole.
ghost use Rattle.std.specs.Prelude.{◌≡◌, ℕ, ◌+◌, ◌<◌, ◌≤◌, List, length};
ghost use Rattle.std.specs.Option.{option_to_list};
ghost use Rattle.flash.specs.Flashes.{longest, between};
ghost use Rattle.flash.specs.Marks.{Fills};
ghost use Rattle.flash.specs.Feeding.{Tells, Agrees, ReadsBlock, Feeds, Lists};

use crate::LONGEST;
use crate::reader::Flashes;
use crate::runs::mark_block;
use block::{Block, WIDEST};
use marks::{Lines, Spot, list_to};
use refusal::{End, Refusal};
use stream::BASIS;

// How many bytes go into one block: as many as it has places, but so few that the place behind them can still be asked about
// where the block has more.
fn step<B: Block>() -> usize
    ensures some { 0 < result }
    ensures fills { (n : ℕ) → n ≤ result → Fills B.places n }
{
    B::width().min(WIDEST - 1)
}

impl Flashes {
    // At the start of a recording, whatever it holds.
    pub fn new() -> Flashes
        ensures start { result.here.position ≡ 0 }
        ensures tells { (b : List ℕ) → Tells result b }
    {
        Flashes {
            lit: false,
            here: Spot::first(),
        }
    }

    // Takes the recording's next bytes, cut anywhere, and writes the ends at their positions to the table from its first
    // place on; answers how many. Refused, all left: a table of fewer than eight blocks, a recording over its limit, a table
    // of fewer ends than the piece has bytes.
    pub fn feed<B: Block>(
        &mut self,
        piece: &[u8],
        table: &mut [B],
        ends: &mut [End],
    ) -> Result<usize, Refusal>
        ensures { Feeds self.old self.new piece.now table.old table.new ends.old ends.new result }
    {
        self.agree(piece, table, ends, 0)?;
        let mut count = 0;
        for bytes in piece.chunks(step::<B>()) {
            count = self.read_block(bytes, table, ends, count)?;
        }
        Ok(count)
    }

    // The end of a run that is still lit where the recording ends.
    pub fn close(self) -> Option<End>
        ensures { (b : List ℕ) → Tells self b → self.here.position ≡ length b → option_to_list result ≡ between b (length b) 1 }
    {
        self.lit.then_some(self.here.end())
    }

    // Whether bytes can be taken: blocks for the basis, a recording within its limit, a place for the end at each byte and
    // `spare` more.
    fn agree<B: Block>(
        self,
        bytes: &[u8],
        table: &[B],
        ends: &[End],
        spare: usize,
    ) -> Result<(), Refusal>
        requires { spare ≤ 1 }
        ensures { Agrees (length table.now) self.here.position (length bytes.now) spare (length ends.now) result }
    {
        if table.len() < BASIS {
            return Err(Refusal::TooFewBlocks);
        }
        if bytes.len() > LONGEST - self.here.position {
            return Err(Refusal::RecordingTooLong);
        }
        if ends.len() < bytes.len() + spare {
            return Err(Refusal::TableTooShort);
        }
        Ok(())
    }

    // One block more; its ends go into the table from `count` on. Answers the count then reached.
    fn read_block<B: Block>(
        &mut self,
        bytes: &[u8],
        table: &mut [B],
        ends: &mut [End],
        count: usize,
    ) -> Result<usize, Refusal>
        requires eight { 8 ≤ length table.old }
        requires fills { Fills B.places (length bytes.now) }
        requires far { self.old.here.position + length bytes.now ≤ longest }
        requires room { count + length bytes.now ≤ length ends.old }
        ensures { ReadsBlock self.old self.new bytes.now ends.old ends.new count result }
    {
        let marks = mark_block(self.lit, bytes, table)?;
        let mut lines = Lines::at(marks.feeds, self.here)?;
        let count = list_to(marks.complete, &mut lines, bytes.len(), ends, count)?;
        *self = Flashes {
            lit: marks.lit,
            here: lines.here(),
        };
        Ok(count)
    }
}

// All ends of a recording, in order, in the table from its first place on; answers how many. Refused, all left: a table of
// fewer than eight blocks, a recording over its limit, a table of ends with no place more than the recording has bytes.
pub fn list_flashes<B: Block>(
    recording: &[u8],
    table: &mut [B],
    ends: &mut [End],
) -> Result<usize, Refusal>
    ensures { Lists recording.now table.old table.new ends.old ends.new result }
{
    let mut reader = Flashes::new();
    reader.agree(recording, table, ends, 1)?;
    let n = reader.feed(recording, table, ends)?;
    let Some(last) = reader.close() else {
        return Ok(n);
    };
    ends[n] = last;
    Ok(n + 1)
}
