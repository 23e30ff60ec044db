// Character class streams: the places whose byte is of a set, made of logic on the basis blocks.
ghost use Rattle.std.specs.Prelude.{◌≡◌, ◌^◌, ◌<◌, ◌≤◌, if◌then◌else◌};
ghost use Rattle.block.specs.Rows.{bit, tab, bit_of};
ghost use Rattle.stream.specs.Tables.{rows, held_by};
ghost use Rattle.stream.specs.Sets.{Classes};

use crate::set::ByteSet;
use crate::transposition::BASIS;
use block::Block;
use refusal::Refusal;

// Each place of `high` where `by` has a one, and of `low` where it has none.
fn choose<B: Block>(by: B, high: B, low: B) -> B
    ensures { B.Block.row result ≡ tab B.places (λ i. (if bit (B.Block.row by) i then bit (B.Block.row high) i else bit (B.Block.row low) i)) }
{
    low.xor(low.xor(high).and(by))
}

// The places at which the first `n` rows hold a number of the set; value v is in the set where its bit v is one.
#[cycle(among_halves)]
fn among<B: Block>(set: u128, n: usize, basis: &[B; BASIS]) -> B
    requires few { n ≤ 7 }
    requires set { set < 2 ^ (2 ^ n) }
    ensures { B.Block.row result ≡ tab B.places (λ i. bit_of set (held_by n (rows B.Block.row basis.now) i)) }
{
    if set == 0 {
        return B::none();
    }
    if n == 0 {
        return B::all();
    }
    let half = 1usize << (n - 1);
    halves(set & ((1 << half) - 1), set >> half, n - 1, basis)
}

// The places at which the first `n` rows hold a number of the set `low`, where row `n` has a zero, or of `high`, where it
// has a one. A half that is empty, or like the other, costs nothing.
#[cycle(among_halves)]
fn halves<B: Block>(low: u128, high: u128, n: usize, basis: &[B; BASIS]) -> B
    requires few { n ≤ 7 }
    requires low { low < 2 ^ (2 ^ n) }
    requires high { high < 2 ^ (2 ^ n) }
    ensures { B.Block.row result ≡ tab B.places (λ i. (if bit (rows B.Block.row basis.now n) i then bit_of high (held_by n (rows B.Block.row basis.now) i) else bit_of low (held_by n (rows B.Block.row basis.now) i))) }
{
    if low == high {
        return among(low, n, basis);
    }
    let by = basis[n];
    if high == 0 {
        return among(low, n, basis).and(by.not());
    }
    if low == 0 {
        return among(high, n, basis).and(by);
    }
    choose(by, among(high, n, basis), among(low, n, basis))
}

// The block whose place i is one exactly where the byte that blocks 0 to 7 hold at place i is in the set. A table of fewer
// than eight blocks is refused.
pub fn class<B: Block>(table: &[B], set: ByteSet) -> Result<B, Refusal>
    ensures { Classes B.Block.row B.places table.now set result }
{
    // Tested before the array is taken, as in `transpose`.
    if table.len() < BASIS {
        return Err(Refusal::TooFewBlocks);
    }
    let basis = table.first_chunk::<BASIS>().unwrap();
    Ok(halves(set.low, set.high, 7, basis))
}
