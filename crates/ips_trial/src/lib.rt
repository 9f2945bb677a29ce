//! The trial of the command `gen`, in memory alone: a repository is made, and an image, in which the package that requires all others is installed; then it is
//! verified.
//!
//! In reading order: the objects (`world`), the commands (`worded`), what an operation on them comes to (`trying`), and the whole with its summary (`summing`).
#![tactic(auto)]

mod summing;
mod trying;
mod worded;
mod world;

pub use summing::tried;
pub use worded::command_of;
