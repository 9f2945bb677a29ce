//! What account files and records lay, by what is due and outstanding.
#![tactic(auto)]

mod laws;
mod laying;

pub use laws::due_is_laid;
pub use laying::DueLaying;
