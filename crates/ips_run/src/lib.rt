//! One run on an image, from its opening sync to the last actuator: what an operation decides is staged, committed and, where it
//! was stopped, recovered.
//!
//! An `Operation` decides what is to change, or what is to be shown. `perform` does the rest, whatever the operation: it makes
//! safe what was written before, looks at the gate, recovers or decides, stages, runs the actuators before, commits, and runs
//! the actuators after. `specs/Planned` says what a decision must promise, `specs/Comes` under which cause each ending comes, and
//! `specs/Ending` what each claims of the image. Read on with `performing`.
#![tactic(auto)]

mod carrying;
mod creating;
mod deciding;
mod ending;
mod laws;
mod next;
mod operation;
mod performing;
mod preparing;
mod recovering;
mod requesting;

pub use ending::Ending;
pub use laws::one_way;
pub use operation::{Change, DecideFault, Decision, Operation};
pub use performing::perform;
