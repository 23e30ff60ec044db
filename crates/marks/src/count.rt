// Where the counting of lines stands.
ghost use Rattle.std.specs.Prelude.{◌≡◌, ◌+◌, ◌≤◌, ⊤};
ghost use Rattle.block.specs.Calls.{widest};
ghost use Rattle.marks.specs.Bounds.{farthest};

use crate::line::Line;
use block::WIDEST;
use limits::LONGEST_RECORDING;
use std::alloc::AllocError;

mod listing;
mod walk;

pub use crate::count::listing::{list_block, list_to};

// No block begins behind this position, so that no sum of a position and a place wraps.
pub const FARTHEST: usize = LONGEST_RECORDING + WIDEST;

// Lines are counted by the line feeds of one block after the other.
pub struct Lines<B> {
    // The block's line feeds.
    feeds: B,
    // The position of the block's first place.
    base: usize,
    // The place up to which lines are counted.
    at: usize,
    // The line of that place.
    line: Line,
    ghost within: { at ≤ widest },
    ghost far: { base ≤ farthest },
    ghost counted: { line.number ≤ base + at + 1 },
    ghost begun: { line.start ≤ base + at },
}

// By hand: `Clone` is not derived for a struct that has a type parameter and ghost fields.
impl<B: Copy> Clone for Lines<B> {
    ghost is_clone = { λ x y. y ≡ x };

    ghost is_infallible = { λ _. ⊤ };

    fn clone(&self) -> Result<Lines<B>, AllocError> {
        Ok(*self)
    }
}

impl<B: Copy> Copy for Lines<B> {}
