// The block interface: a block kind is known by what its calls do to a row of bits.
//
// A block is a row of `places` bits, place 0 the earliest and place i worth 2^i. A kind is lawful exactly when it
// implements this trait: its laws and the contract of each call are proved for all of its blocks.

#![tactic(auto)]

ghost use Rattle.std.specs.Prelude.{◌≡◌, ℕ, ◌%◌, ◌≤◌, Bool, List, length};
ghost use Rattle.block.specs.Calls.{answered, none_row, all_row, and_row, or_row, xor_row, not_row, Advance, Add, Put, Read, First};
ghost use Rattle.block.specs.Sums.{SumsAgree};

// The widest answer of `width`: the largest multiple of 8 that fits in 16 bits.
pub const WIDEST: usize = 65_528;

// Blocks are small values that are passed and kept by copy, as machine words are.
pub trait Block: Copy {
    // The kind's width W: how many places a block has.
    ghost places: { ℕ };

    // What a block holds, the earliest place first.
    ghost row: { Self → List Bool };

    // W, or 65,528 where W is larger.
    fn width() -> usize
        ensures { result ≡ answered places };

    // All zeros.
    fn none() -> Self
        ensures { row result ≡ none_row places };

    // All ones.
    fn all() -> Self
        ensures { row result ≡ all_row places };

    fn and(self, other: Self) -> Self
        ensures { row result ≡ and_row places (row self) (row other) };

    fn or(self, other: Self) -> Self
        ensures { row result ≡ or_row places (row self) (row other) };

    fn xor(self, other: Self) -> Self
        ensures { row result ≡ xor_row places (row self) (row other) };

    fn not(self) -> Self
        ensures { row result ≡ not_row places (row self) };

    // The block one place on, with the bit that falls out of the last place.
    fn advance(self, enter: bool) -> (Self, bool)
        ensures { Advance places (row self) enter (row result.0) result.1 };

    // The sum of two blocks and a bit as numbers, with the bit that falls out.
    fn add(self, other: Self, enter: bool) -> (Self, bool)
        ensures { Add places (row self) (row other) enter (row result.0) result.1 };

    // The byte's bits at the group `k`, places 8k to 8k + 7; the block as it is where the group is not served.
    fn put(self, k: usize, byte: u8) -> Self
        ensures { Put places (row self) k byte (row result) };

    // The group `k` as a byte; 0 where the group is not served.
    fn read(self, k: usize) -> u8
        ensures { Read places (row self) k result };

    // The least place from `i` on, below the answered width, that holds a one.
    fn first(self, i: usize) -> Option<usize>
        ensures { First places (row self) i result };

    ghost whole_bytes: { places % 8 ≡ 0 };

    ghost some: { 8 ≤ places };

    ghost wide: { (b : Self) → length (row b) ≡ places };
}

// Adding numbers and adding bit by bit with a carry are one: what `add` owes can be shown either way.
pub fn sums_agree()
    ensures { SumsAgree }
{}
