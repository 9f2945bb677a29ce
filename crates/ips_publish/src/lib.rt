//! The top call of publishing: all that `send` does, from its words to its report.
//!
//! What was stopped in the target is brought to its end; then a repository is made, or a package is published in it; and then the outcome is told. Wherever that is stopped,
//! each publication stands whole in the repository or not at all.
//!
//! `specs/Comes` says under which cause each outcome comes, `specs/Stops` what holds wherever a run is stopped, and `laws` what follows of any number of runs. In reading order:
//! the kinds of steps (`takers`), the request (`requests`), the whole (`sending`), and its report (`telling`).
#![tactic(auto)]

mod laws;
mod requests;
mod sending;
mod takers;
mod telling;

pub use laws::{later_runs_find, memory_runs_out_early, runs_go_on, what_is_told_is_so};
pub use sending::send;
