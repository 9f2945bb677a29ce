//! The steps of a plan, with the contents that are staged for them.
//!
//! Each path of the plan's order adds the step of what becomes of it: of a change by what is wanted (`push`), of a file with bytes of its own,
//! as records and account files are (`push_text`), of a copy of a file that stands (`push_standing`), or of a symbolic link that says any bytes
//! (`push_link`). `is_journal` tells whether a journal can list the steps, `count_puts` how many of them put a content, and `is_private` whether a path is one of the updater's own.
#![tactic(auto)]

mod emitting;
mod law;
mod listing;
mod names;

pub use emitting::Emitted;
pub use law::emitted_steps_are_a_plan;
pub use listing::{count_puts, is_journal};
pub use names::is_private;
