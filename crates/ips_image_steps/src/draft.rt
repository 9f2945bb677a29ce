//! The steps of a plan, row by row in its order.
//!
//! In reading order: the steps (`drafting`), and what is known of the changes they are made of and of them all (`laws`).
mod drafting;
mod laws;

pub use drafting::draft;
pub use laws::{changes_have_targets, drafted_saving_steps_are_a_plan, drafted_steps_are_a_plan};
