//! Whether what is salvaged can be moved into the salvage folder.
//!
//! In reading order: the first thing that can't be moved (`fixing`), and that this is so by what stands in an image (`laws`).
#![tactic(auto)]

mod fixing;
mod laws;

pub use fixing::fixed;
pub use laws::things_are_fixed_by_what_stands;
