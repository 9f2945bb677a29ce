//! Laws of what a command comes to: it is one.
//!
//! Promised: words are one command, or go wrong in one way, and never both (`words`). A command on given records and a given source leads to one next
//! state, or to none under one cause, and never to both (`laws`; that the next state is one is a law of `ips_next`). Two causes are apart from this: a
//! call that failed may come at any time, and that the search was spent may come beside whatever the search would have come to.
mod laws;
mod words;

pub use laws::{causes_are_one, next_excludes_causes};
pub use words::{command_is_one, usage_excludes_command, usage_is_one};
