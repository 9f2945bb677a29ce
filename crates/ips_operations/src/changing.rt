//! The commands that lead an image from one state to another, as an operation: what each decides on, and why it refuses.
//!
//! Such a command loads the records, finds the next state, plans the request to it and hands over the change. Promised, where the
//! folder tells what it holds: each refusal comes under its cause, and the change is the plan of the request from the state that the
//! records tell to the one that the command leads to (`specs/Decides`). Where the repository tells what it holds too, the image
//! behind the change is the image after that request (`specs/Leads`).
//!
//! In reading order: the commands (`changing`), how faults are told (`refusing`, `laws`), the steps of a decision (`deciding`), and the operation (`operation`).
mod changing;
mod deciding;
mod laws;
mod operation;
mod refusing;

pub use changing::Changing;
