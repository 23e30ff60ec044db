// The search.

#![tactic(auto)]

mod calls;
mod finder;
mod state;

pub use calls::{Answer, Call, State};
pub use state::Search;
