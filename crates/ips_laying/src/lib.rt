//! What account files and records lay.
#![tactic(auto)]

mod laying;

pub use laying::{Laid, Laying};
