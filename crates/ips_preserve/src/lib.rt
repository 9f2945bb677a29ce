//! What becomes of a packaged file that may have been edited: the keep table over `preserve`, what happens to the file,
//! what stands at its path, and whether the payload changed. It is this project's own reading of `preserve` (pkg(7), "File
//! Actions").
#![tactic(auto)]

mod case;
mod deciding;
mod keep;

pub use case::{Case, Event, Standing};
pub use deciding::decide;
pub use keep::Keep;
