//! What `send` answers: the outcomes, the texts that tell them, and the numbers that a program ends with.
#![tactic(auto)]

mod outcome;
mod telling;

pub use outcome::{SendOutcome, SendStatus};
pub use telling::report;
