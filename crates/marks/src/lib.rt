// Blocks of marks, and the ends that they stand for, drawn in order with their lines and columns.

#![tactic(auto)]

mod count;
mod line;
mod ones;

pub use count::{FARTHEST, Lines, list_block, list_to};
pub use line::{Line, Spot};
pub use ones::{below, one};
