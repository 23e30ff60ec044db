// Programs of steps run over blocks of any kind: the rows are working blocks that are lent, and the marks go by value. `Matcher` keeps
// a form's program and the carries from block to block. The calls that it makes stand inside the crate: they ask that there are
// the rows and carries that the program needs, which the matcher tests once.

#![tactic(auto)]

mod carries;
mod loaded;
mod registers;
mod rules;
mod runs;
mod shown;
mod steps;

pub use loaded::Matcher;
pub use registers::Registers;
pub use runs::forms_fit;
pub use shown::Shown;
