//! How a run is told: its ending as an outcome, and the outcome's report.
//!
//! In reading order, each with its own contracts: how a run's ending is told (`told`), its report (`telling`), an operation that is carried out and told
//! (`performing`), and why records are refused (`refusals`).
#![tactic(auto)]

pub mod performing;
pub mod refusals;
pub mod telling;
pub mod told;
