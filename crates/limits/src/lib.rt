// The limits of the reader, each said once.

#![tactic(auto)]

ghost use Rattle.std.specs.Prelude.{◌≡◌, ◌≤◌};
ghost use Rattle.limits.specs.Limits.{heaviest, need};

// The byte that closes a line and is part of none.
pub const LINE_FEED: u8 = 0x0a;

// The heaviest form that is taken.
pub const HEAVIEST: u32 = 1000;

// The widest kind of block that is matched.
pub const WIDEST_KIND: usize = 256;

// The most bytes that a feed or a list takes at once.
pub const LONGEST_PIECE: usize = 65_536;

// The most bytes that a recording has.
pub const LONGEST_RECORDING: usize = 1_000_000_000;

// How many working blocks a form of this weight asks for.
pub fn blocks_needed(weight: usize) -> usize
    ensures { weight ≤ heaviest → result ≡ need weight }
{
    weight.saturating_mul(2).saturating_add(32)
}
