// The stream calls, written once for every kind of block, on lent slices of blocks.

#![tactic(auto)]

mod classes;
mod set;
mod spread;
mod star;
mod transposition;

pub use classes::class;
pub use set::ByteSet;
pub use star::{match_star, match_star_examples};
pub use transposition::{BASIS, back, transpose, transpose_and_back};
