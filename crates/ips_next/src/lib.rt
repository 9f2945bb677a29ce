//! The state that a changing command leads to, or why it leads to none: from what the command asks over the choice of packages to
//! the new records.
//!
//! Promised, where the source tells what it holds: an answer is the next state (`specs/Next`: `IsNext`), or a fault under its cause
//! (`ComesNext`), each at its turn; a command that looks for no versions needs no source that tells. Whatever it tells, the next state can be
//! recorded, and a source fault comes only where a call failed.
//!
//! In reading order: faults (`fault`); the repository (`opening`), the puzzle (`posing`), what there was to try (`tried`), the choice
//! (`choosing`, `deciding`); the index (`indexing`), what differs (`alike`, `unchanged`), the line of the history (`line`); the next
//! state (`next`), and the laws (`laws`).
#![tactic(auto)]

mod alike;
mod choosing;
mod deciding;
mod fault;
mod indexing;
mod laws;
mod line;
mod next;
mod opening;
mod posing;
mod tried;
mod unchanged;

pub use fault::NextFault;
pub use laws::{
    decided_excludes_none, decided_is_best, decided_is_one, faults_are_of_their_kinds,
    next_excludes_nothing, next_is_one, none_fits,
};
pub use line::add_line;
pub use next::next_state;
