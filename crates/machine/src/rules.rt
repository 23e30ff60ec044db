// The rows that a program reads, made from the bytes of a block.
ghost use Rattle.std.specs.Prelude.{◌≡◌, ℕ, ◌+◌, ◌-◌, ◌<◌, ◌≤◌, length, MatchResult, slice_index_or};
ghost use Rattle.block.specs.Rows.{bit, tab};
ghost use Rattle.block.specs.Calls.{answered};
ghost use Rattle.program.specs.Compile.{classes_at};
ghost use Rattle.stream.specs.Sets.{has};
ghost use Rattle.stream.specs.Tables.{held, rows};
ghost use Rattle.machine.specs.Matching.{feeds_of};
ghost use Rattle.machine.specs.Ruling.{Rules, no_set};

use block::Block;
use limits::LINE_FEED;
use program::{CLASSES, FEEDS, STARTS};
use refusal::Refusal;
use stream::{ByteSet, class, transpose};

// The row of each class, from the bytes that the first eight blocks hold.
fn classify<B: Block>(blocks: &mut [B], sets: &[ByteSet]) -> Result<(), Refusal>
    requires { classes_at + length sets.now ≤ length blocks.old }
    ensures classes { MatchResult result (λ _. (c : ℕ) → c < length sets.now → rows B.Block.row blocks.new (classes_at + c) ≡ tab B.places (λ i. has (slice_index_or sets.now c no_set) (held (rows B.Block.row blocks.old) i))) (λ _. ⊥) }
    ensures others { (i : ℕ) → i < classes_at → rows B.Block.row blocks.new i ≡ rows B.Block.row blocks.old i }
{
    let (table, rows) = blocks.split_at_mut(CLASSES);
    // By number: of a loop over a zip with `iter_mut` the proof does not know what it has written.
    for (c, set) in sets.iter().enumerate() {
        rows[c] = class(table, *set)?;
    }
    Ok(())
}

// Makes the rows of a block: the bytes' line feeds, the line starts, of which the first place's comes from the block before, and the
// classes of the sets. Answers the line feeds, and whether a line starts behind the block.
pub(crate) fn rule<B: Block>(
    bytes: &[u8],
    start: bool,
    sets: &[ByteSet],
    blocks: &mut [B],
) -> Result<(B, bool), Refusal>
    requires room { classes_at + length sets.now ≤ length blocks.old }
    requires fit { length bytes.now ≤ answered B.places }
    ensures { MatchResult result (λ x. Rules B.places bytes.now start sets.now (rows B.Block.row blocks.new) × (B.Block.row x.0 ≡ feeds_of B.places bytes.now) × (x.1 ≡ bit (feeds_of B.places bytes.now) (B.places - 1))) (λ _. ⊥) }
{
    transpose(bytes, blocks)?;
    let feeds = class(blocks, ByteSet::none().with(LINE_FEED))?;
    let (starts, behind) = feeds.advance(start);
    classify(blocks, sets)?;
    blocks[FEEDS] = feeds;
    blocks[STARTS] = starts;
    Ok((feeds, behind))
}
