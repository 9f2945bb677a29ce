//! The steps of a plan: what each makes of an image, what a list of them leaves, and what a folder owes while they are
//! laid.
//!
//! A step names a path and what is to stand there. A sound list can be laid again over whatever a stop left of it, and
//! leaves the same image; what it leaves is told path by path.
#![tactic(auto)]

mod laws;
mod step;
mod target;

pub use laws::{
    laid_again, laid_again_apart, laid_by_path, laid_turn_by_turn, numbered_apart, owed_again,
    private_touched, stays_formed, still_owed, still_ready,
};
pub use step::{Sort, Step};
pub use target::{Target, TargetFault};
