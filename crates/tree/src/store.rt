// The tree's nodes and pools.
ghost use Rattle.std.specs.Prelude.{◌≡◌, ◌≤◌, true, vec_capacity};
ghost use Rattle.tree.specs.Nodes.{all_fall, longest};

use crate::node::{Node, Range};

#[derive(Drop)]
pub struct Tree {
    nodes: Vec<Node>,
    bytes: Vec<u8>,
    ranges: Vec<Range>,
    // room for all that the longest text can ask for
    ghost wide: { (longest ≤ vec_capacity nodes) × (longest ≤ vec_capacity bytes) × (longest ≤ vec_capacity ranges) },
    // a walk from a node to its parts ends
    ghost falling: { all_fall 0 nodes.items ≡ true },
}

mod build;

pub use crate::store::build::LONGEST;
