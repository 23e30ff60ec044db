// Sets of byte values, by arithmetic on their halves.
// Functions and no methods of `ByteSet`: it is a type of `stream`, which needs none of them.
ghost use Rattle.std.specs.Prelude.{◌≡◌, ℕ, ◌<◌, ◌≤◌, not, ◌&&◌, ◌||◌, ◌==◌, nat_le, nat_lt};
ghost use Rattle.block.specs.Rows.{bit_of};
ghost use Rattle.stream.specs.Sets.{has};

use stream::ByteSet;

// A number whose first n bits are ones.
fn ones(n: u32) -> u128
    ensures { (v : ℕ) → v < 128 → bit_of result v ≡ nat_lt v n }
{
    if n >= 128 {
        return u128::MAX;
    }
    (1 << n) - 1
}

// The values below n.
fn below(n: u32) -> ByteSet
    ensures { (v : ℕ) → v < 256 → has result v ≡ nat_lt v n }
{
    ByteSet {
        low: ones(n),
        high: ones(n.saturating_sub(128)),
    }
}

// The values of either set.
pub fn union(a: ByteSet, b: ByteSet) -> ByteSet
    ensures { (v : ℕ) → v < 256 → has result v ≡ (has a v || has b v) }
{
    ByteSet {
        low: a.low | b.low,
        high: a.high | b.high,
    }
}

// The values that the set has not.
pub fn complement(a: ByteSet) -> ByteSet
    ensures { (v : ℕ) → v < 256 → has result v ≡ not (has a v) }
{
    ByteSet {
        low: !a.low,
        high: !a.high,
    }
}

// The values of the first set that the other has not.
pub fn minus(a: ByteSet, b: ByteSet) -> ByteSet
    ensures { (v : ℕ) → v < 256 → has result v ≡ (has a v && not (has b v)) }
{
    let b = complement(b);
    ByteSet {
        low: a.low & b.low,
        high: a.high & b.high,
    }
}

// The values from low to high, both included.
pub fn range(low: u8, high: u8) -> ByteSet
    ensures { (v : ℕ) → v < 256 → has result v ≡ (nat_le low v && nat_le v high) }
{
    minus(below(u32::from(high) + 1), below(u32::from(low)))
}

// The set without one value.
pub fn without(a: ByteSet, byte: u8) -> ByteSet
    ensures { (v : ℕ) → v < 256 → has result v ≡ (has a v && not (v == byte)) }
{
    minus(a, ByteSet::none().with(byte))
}
