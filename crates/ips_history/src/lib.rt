//! Histories of runs on one image folder: what is owed behind any number of runs, stopped at any of their moments.
//!
//! `specs/Transition` says what one run does to what the folder owes, `specs/Run` what a run claims by its outcome, and
//! `specs/History` what a list of runs is, of which each may be stopped. `restored` is the law over them: whatever was stopped,
//! the folder owes, and a recovery leaves, the image before the last request or the one that this means.
#![tactic(auto)]

mod effect;
mod laws;

pub use effect::Effect;
pub use laws::{Requests, done_is_meant, each_moment_is_left, restored, run_restores};
