//! What a request changes, in numbers: how many packages are installed, updated and removed, and how many steps of each sort are laid.
#![tactic(auto)]

mod counts;
mod sorts;

pub use counts::Counts;
pub use sorts::Sorts;
