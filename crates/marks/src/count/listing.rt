// The ends of one block, written in order into a table.
ghost use Rattle.std.specs.Prelude.{min};
ghost use Rattle.block.specs.Calls.{answered};
ghost use Rattle.marks.specs.Listing.{ListsEnds};

use crate::count::Lines;
use crate::ones::ones_between;
use block::Block;
use refusal::{End, Refusal};

// Writes the ends at the ones of `ends`, from where the lines stand on, into the table from `count` on, and answers the count
// then reached. The lines move on behind the block's last place. Where the table is full before the last end, it keeps those that
// fit, the lines move on to the first that does not, and the answer is a refusal. The table is handed over whole, with the
// count of its ends beside it, since block after block is listed into the same table, and the contract says what all of it holds.
pub fn list_block<B: Block>(
    ends: B,
    lines: &mut Lines<B>,
    table: &mut [End],
    count: usize,
) -> Result<usize, Refusal>
    ensures { ListsEnds B.Block.row (answered B.places) ends lines.old lines.new table.old table.new count result }
{
    list_to(ends, lines, B::width(), table, count)
}

// The same for the places before `to`, as where a recording ends within a block.
pub fn list_to<B: Block>(
    ends: B,
    lines: &mut Lines<B>,
    to: usize,
    table: &mut [End],
    count: usize,
) -> Result<usize, Refusal>
    ensures { ListsEnds B.Block.row (min to (answered B.places)) ends lines.old lines.new table.old table.new count result }
{
    let end = to.min(B::width());
    let mut got = count;
    for p in ones_between(ends, lines.at, end) {
        lines.reach(p);
        if got >= table.len() {
            return Err(Refusal::TableTooShort);
        }
        table[got] = lines.here().end();
        got += 1;
    }
    lines.reach(end);
    Ok(got)
}
