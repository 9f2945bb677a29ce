//! How a run is told: from its ending to an outcome, of the sort of what was decided, with what the outcome claims and whose fault it is.
//!
//! In reading order: from endings to outcomes (`outcome`), that both claim the same (`laws`), and a change of steps alone with what is told of it (`laying`), whose
//! payloads have names (`naming`).
mod laws;
mod laying;
mod naming;
mod outcome;

pub use laws::{outcomes_blame_alike, outcomes_claim_alike};
pub use laying::change_of_steps;
pub use naming::payloads_are_named;
pub use outcome::outcome_of;
