//! Directories on the way to what is to be written, made where nothing stands, or an empty file that a crash left in the place of one.
#![tactic(auto)]

mod looking;
mod making;
mod room;

pub use looking::first_in_the_way;
pub use making::{Unmade, make_directories};
