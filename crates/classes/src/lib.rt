// The classes of a form's leaves as sets of byte values, by number, in memory that is reserved once.

#![tactic(auto)]

mod listed;
mod sets;
mod table;

pub use listed::{inside, outside, quoted};
pub use sets::{complement, minus, range, union, without};
pub use table::ClassTable;
