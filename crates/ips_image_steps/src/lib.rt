//! The steps of a request over an image: from a table of its paths to the plan, or to the first path at which it can't be carried out.
//!
//! In reading order: why there are no steps (`fault`), the whole (`steps`), what is found on the way, one finding behind the other (`settled`, `saved`,
//! `named`), the steps by what was found (`found`), whether they can be listed (`listed`),
//! and when nothing is saved (`laws`).
//!
//! Below it, each with its own contracts: the steps row by row (`draft`), what they make of the image (`plan_steps`), and the steps of what is saved
//! (`saving`). Above it: what they promise of what is staged for them (`staged_plans`).
#![tactic(auto)]

pub mod draft;
mod fault;
mod found;
mod laws;
mod listed;
mod named;
pub mod plan_steps;
mod saved;
pub mod saving;
mod settled;
pub mod staged_plans;
mod steps;

pub use fault::StepsFault;
pub use laws::unchanged_wants_save_nothing;
pub use listed::can_be_listed;
pub use steps::image_steps;
