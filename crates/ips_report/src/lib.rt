//! How a run ends.
#![tactic(auto)]

mod outcome;
mod page;
mod paper;
mod pieces;
mod taken;
mod telling;
mod unsolved;

pub use outcome::{Outcome, Status};
pub use page::{Page, report};
pub use unsolved::Tried;
