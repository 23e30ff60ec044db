// Runs of lit samples in a recording of turns: the small worked caller of the stream calls.

#![tactic(auto)]

mod feeding;
mod reader;
mod runs;

pub use feeding::list_flashes;
pub use limits::{LINE_FEED, LONGEST_RECORDING as LONGEST};
pub use reader::Flashes;
pub use runs::LIT;
