// The form of a text as nodes that are named by their index, in memory that is reserved once.

#![tactic(auto)]

pub mod node;
pub mod store;
