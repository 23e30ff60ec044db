// A search: a text, the bytes that it took so far, and the ends that it has found.
use crate::calls::State;
use crate::finder::Finder;
use arrayvec::ArrayVec;
use limits::WIDEST_KIND;

#[derive(Drop)]
pub struct Search<B> {
    state: State,
    finder: Finder<B>,
    // The bytes that do not fill a block yet. There is room for one of the widest kind, and none on the heap: taking bytes asks for
    // no memory.
    gathered: ArrayVec<u8, WIDEST_KIND>,
    // How many bytes were taken.
    taken: usize,
}

mod gather;
mod perform;
mod steps;
