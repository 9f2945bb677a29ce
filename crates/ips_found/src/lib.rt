//! What was found at a path.
#![tactic(auto)]

mod found;

pub use found::{Found, Thing};
