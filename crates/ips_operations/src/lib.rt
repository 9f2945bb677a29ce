//! The operations of a run that may change an image: what each sort of command decides on.
//!
//! In reading order, each with its own contracts: the commands that lead from one state to another (`changing`), that make an image (`creating`) and that
//! repair one (`fixing`).
#![tactic(auto)]

pub mod changing;
pub mod creating;
pub mod fixing;
