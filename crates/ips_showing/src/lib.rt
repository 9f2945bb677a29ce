//! The commands that show something of an image, as an operation: what each decides on, and why it refuses.
//!
//! Promised, where the folder tells what it holds: what is decided is shown by that image, each outcome under its cause
//! (`specs/Shows`). Nothing is written, and the repository is never asked.
//!
//! In reading order: what is asked (`showing`), texts and names as they are answered (`answers`), what the records tell (`stated`),
//! what differs from the packages (`comparing`), what a search finds (`searching`), all of it (`operation`).
#![tactic(auto)]

mod answers;
mod comparing;
mod operation;
mod searching;
mod showing;
mod stated;

pub use showing::Showing;
