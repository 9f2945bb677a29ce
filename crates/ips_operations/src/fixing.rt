//! The command that repairs an image, as an operation: what it decides on where nothing is pending, and why it refuses.
//!
//! Promised, where the folder tells what it holds: each refusal comes under its cause, nothing is to do exactly where nothing is found, and the change repairs what is
//! found (`specs/Decides`).
//!
//! In reading order: the command (`fix`), the steps of a decision (`deciding`), and the operation (`operation`).
mod deciding;
mod fix;
mod operation;

pub use fix::Fixing;
