//! Whether a plan is within its limits, by its steps and by the files that it writes itself, and how many packages it changes.
#![tactic(auto)]

mod counting;
mod large;
mod limits;
mod names;

pub use counting::counts;
pub use limits::{Excess, first_excess};
