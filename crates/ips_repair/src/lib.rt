//! The plan of a repair: what is found damaged in an image is made as its packages mean it, and the history is put.
//!
//! Promised, where the folder tells what it holds: the steps can be staged there, and what is seen once they are laid is the repaired image (`specs/Meant`). In
//! reading order: why there is no plan (`fault`), the plan (`repairing`), what is gathered for it from the image (`gathering`), the record of the history (`putting`),
//! and the steps (`drawing`).
#![tactic(auto)]

mod drawing;
mod fault;
mod gathering;
mod putting;
mod repairing;

pub use fault::RepairFault;
pub use repairing::repair;
