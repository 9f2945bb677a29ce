//! Laws over histories of runs, and on what a fix lays.
//!
//! In reading order: a command is a run of a history, and what stopped runs and the one behind them leave (`histories`); which steps a fix lays, and how few of
//! them again (`resuming`).
mod histories;
mod resuming;

pub use histories::{commands_are_runs, histories_are_restored};
pub use resuming::{fixes_lay_few_again, fixes_lay_what_is_left};
