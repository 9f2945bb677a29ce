//! Directories that are emptied: no one stated them, no one wants them any longer, and nothing is left in them.
//!
//! In reading order: where something goes or is made, with what account files and records say (`settling`), the directories that may be
//! emptied as far as rows know (`candidates`), the children of one (`children`), which are emptied (`emptying`), and what
//! becomes of all rows, with the layers below (`settled`, `joining`).
//!
//! Beside it, with its own contracts: the order of a plan (`order`).
#![tactic(auto)]

mod candidates;
mod children;
mod emptying;
mod joining;
pub mod order;
mod settled;
mod settling;

pub use emptying::emptied;
pub use joining::settle;
pub use settled::Settled;
