//! Actuators: the words that the actuator of an image is run with before and after a change, and running them one after
//! another.
#![tactic(auto)]

mod lists;
mod run;
mod running;
mod services;
mod sets;

pub use lists::words;
pub use run::Words;
pub use running::{ActFault, run_all};
