// A form's program and its classes, in memory that is reserved once.
use crate::code::Code;
use classes::ClassTable;

#[derive(Drop)]
pub struct Compiled {
    code: Code,
    table: ClassTable,
}

// What a form's program needs: how many classes, stars' rows and carries it has, and how many rows in all.
#[derive(Clone, Copy, PartialEq, Eq, Debug)]
pub struct Sizes {
    pub classes: usize,
    pub stars: usize,
    pub carries: usize,
    pub rows: usize,
}

mod compile;
