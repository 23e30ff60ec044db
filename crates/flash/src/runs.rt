// One block's marks: where runs of lit samples are complete, and its line feeds.
ghost use Rattle.std.specs.Prelude.{◌≡◌, ℕ, ◌<◌, ◌≤◌, length};
ghost use Rattle.block.specs.Rows.{bit};
ghost use Rattle.block.specs.Calls.{answered};
ghost use Rattle.flash.specs.Marks.{Fills, Marked};

use block::Block;
use limits::LINE_FEED;
use refusal::Refusal;
use stream::{ByteSet, class, match_star, transpose};

// The byte of a lit sample.
pub const LIT: u8 = b'#';

#[derive(Clone, Copy)]
pub(crate) struct Marks<B> {
    // Where a run is complete.
    pub complete: B,
    // Where a turn is closed.
    pub feeds: B,
    // Whether the last sample is lit: the carry into the next block.
    pub lit: bool,
}

// Whether place `n` is reached; behind the block the fallen bit says so.
fn reaches<B: Block>(reached: B, fallen: bool, n: usize) -> bool
    ensures within { n < answered B.places → result ≡ bit (B.Block.row reached) n }
    ensures behind { answered B.places ≤ n → result ≡ fallen }
{
    if n < B::width() {
        reached.first(n) == Some(n)
    } else {
        fallen
    }
}

// The marks of `bytes`, with the carry `lit` from the block before. A run reaches from each lit sample, and from the carry,
// to the place behind its last lit sample, which is no lit sample itself.
pub(crate) fn mark_block<B: Block>(
    lit: bool,
    bytes: &[u8],
    table: &mut [B],
) -> Result<Marks<B>, Refusal>
    requires eight { 8 ≤ length table.old }
    requires fills { Fills B.places (length bytes.now) }
    ensures { Marked B.Block.row lit bytes.now result }
{
    transpose(bytes, table)?;
    let samples = class(table, ByteSet::none().with(LIT))?;
    let feeds = class(table, ByteSet::none().with(LINE_FEED))?;
    let (reached, fallen) = match_star(samples, samples, lit);
    let complete = reached.and(samples.not());
    Ok(Marks {
        complete,
        feeds,
        lit: reaches(reached, fallen, bytes.len()),
    })
}
