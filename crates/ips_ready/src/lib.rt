//! What a publication writes, made ready before anything is written.
//!
//! The directories on the way, the contents at the places of their names, and the steps that put the manifest and the catalog, with
//! their bytes. `specs/Plans` says what is ready.
#![tactic(auto)]

mod planning;

pub use planning::{Plan, plan_of};
