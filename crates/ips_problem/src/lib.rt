//! What a request on an image asks of its packages, as a puzzle.
//!
//! A request names stems by patterns. Each stem has candidates: the versions to which it may come, and absence where it may be
//! absent. A selection is admissible where it gives each stem one of its candidates, and every dependency of what it selects
//! holds. The stems in reach are the named and the installed ones, and those that a candidate's dependencies want. The puzzle is
//! over these alone, and that is enough: it is a law that it has a solution exactly where a selection over all stems is
//! admissible, and that its first solution is the best selection.
//!
//! What a request asks of one stem, and how its manifests are read, is the crate `ips_request`. In reading order: what is known of a
//! stem in reach (`forms`, `fetching`, `rows`, `gathered`, `gathering`); the stems gone through one by one (`growing`, `building`); the puzzle (`problem`,
//! `numbering`, `answers`, `picked`, `puzzle`); what a choice selects and avoids (`taking`, `avoiding`); and the laws (`laws`).
#![tactic(auto)]

mod answers;
mod avoiding;
mod building;
mod fetching;
mod forms;
mod gathered;
mod gathering;
mod growing;
mod laws;
mod numbering;
mod picked;
mod problem;
mod puzzle;
mod rows;
mod taking;

pub use ips_request::{Kind, ProblemFault, Request};
pub use laws::{best_selection_is_one, reach_is_enough, reach_is_one};
pub use problem::Problem;
