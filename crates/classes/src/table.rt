// A table of classes.
ghost use Rattle.std.specs.Prelude.{◌≤◌, vec_capacity};
ghost use Rattle.limits.specs.Limits.{heaviest};

use stream::ByteSet;

#[derive(Drop)]
pub struct ClassTable {
    sets: Vec<ByteSet>,
    // room for the classes of the heaviest form
    ghost wide: { heaviest ≤ vec_capacity sets },
}

mod fill;
