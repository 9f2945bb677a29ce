//! Lays the steps of a journal on a folder, each carried out by the first kind that takes it.
//!
//! A step is judged before it is laid: one that isn't possible then ends the run, and so does a line that isn't of the
//! journal's grammar. At every moment only what the steps say is changed. No memory is taken.
//!
//! In reading order: `applying` goes through the journal, `judging` says whether a step is possible, `known` has the directory
//! that needn't be looked at again, `carrying` finds the step's kind and follows that kind's acts, and `acting` does one act.
#![tactic(auto)]

mod acting;
mod applying;
mod carrying;
mod judging;
mod known;

pub use applying::{apply, apply_block};
pub use ips_journal::{StepFault, StepReader};
pub use ips_kinds::{Act, Kind, Step};
