//! Directories and contents written beside a repository, and made safe.
//!
//! Nothing that the repository lists is changed: `specs/Writing` says what is written, at each moment.
#![tactic(auto)]

mod fault;
mod writing;

pub use fault::BesideFault;
pub use writing::write_beside;
