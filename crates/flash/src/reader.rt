// What is kept of a recording between its pieces.
ghost use Rattle.std.specs.Prelude.{◌≤◌};
ghost use Rattle.flash.specs.Flashes.{longest};

use marks::Spot;

#[derive(Clone, Copy, PartialEq, Eq, Debug)]
pub struct Flashes {
    // Whether the last sample was lit: the carry into the next block.
    pub(crate) lit: bool,
    // Behind the last byte that was read.
    pub(crate) here: Spot,
    ghost within: { here.position ≤ longest },
}
