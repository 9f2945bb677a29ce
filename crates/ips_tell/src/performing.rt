//! An operation, carried out and told.
//!
//! Promised: what the outcome claims of the image at every moment and at the end, its cause, and whose fault it is (`specs/Performed`).
mod performing;

pub use performing::performed;
