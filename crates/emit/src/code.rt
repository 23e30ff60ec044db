// A program that is being written.
ghost use Rattle.std.specs.Prelude.{◌≤◌, vec_capacity};
ghost use Rattle.emit.specs.Limit.{longest};

use program::Step;

#[derive(Drop)]
pub struct Code {
    steps: Vec<Step>,
    // the numbers that come next: of a carry, of a star's row, of a row in which a union gathers
    pub(crate) carry: usize,
    pub(crate) star: usize,
    pub(crate) gather: usize,
    // room for the program of the heaviest form
    ghost wide: { longest ≤ vec_capacity steps },
}

mod walk;
mod write;
