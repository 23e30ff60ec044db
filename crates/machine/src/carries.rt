// The bits that go from block to block.

// The bit that enters a step from the block before, and the one that falls out of it, for the next.
#[derive(Clone, Copy, Debug, Default, PartialEq, Eq)]
struct Carry {
    enter: bool,
    leave: bool,
}

// The carries of a program, or more than it asks for.
#[derive(Drop)]
pub struct Carries {
    bits: Vec<Carry>,
}

mod handing;
