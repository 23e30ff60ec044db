// The nodes of a tree.
// A range of byte values, both ends included.
#[derive(Clone, Copy, Debug, PartialEq, Eq)]
pub struct Range {
    pub low: u8,
    pub high: u8,
}

// A form, or a list of forms (`Nil`, `Cons`). Parts are named by the index of their node, and not boxed: a tree's memory is
// reserved once, so that reading a text asks for none and cannot fail for want of it. Quoted bytes and ranges are named by where they
// lie in the tree's pools; `from` and `to` stand in the variants and have no type of their own, since which pool they
// lie in is told by the variant alone. Who walks a tree is handed the tree and an index, and not one value of the two: from
// call to call the tree stays, and the index changes.
#[derive(Clone, Copy, Debug, PartialEq, Eq)]
pub enum Node {
    Quote { from: usize, to: usize },
    Set { from: usize, to: usize },
    Out { from: usize, to: usize },
    Seq { parts: usize },
    Or { parts: usize },
    Star { part: usize },
    Rep { least: u8, most: u8, part: usize },
    Start,
    End,
    Nil,
    Cons { head: usize, tail: usize },
}
