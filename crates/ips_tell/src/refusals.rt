//! How a run tells why it refuses where the records can't be read, or the packages mean no image: as the outcome that is refused, or, where
//! a call failed or memory ran out, as what decides nothing.
//!
//! Promised: each fault is told as one outcome, with all that it carries (`specs/Told`).
mod telling;

pub use telling::{unmeant, unread};
