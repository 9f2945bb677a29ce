//! The command that makes an image, as an operation: what it decides on, and why it refuses.
//!
//! Promised, where the folder tells what it holds: each refusal comes under its cause, and the change makes the image with the records of the state that the
//! command begins (`specs/Decides`).
//!
//! In reading order: the command (`creation`), the state that it begins (`beginning`), the steps of a decision (`deciding`), and the operation (`operation`).
mod beginning;
mod creation;
mod deciding;
mod operation;

pub use creation::Creating;
