//! Payload names: the digest of a payload's bytes, read, printed and computed piece by piece.
#![tactic(auto)]

mod hasher;
mod name;
mod taken;

pub use hasher::Hasher;
pub use name::{PayloadName, one_spelling, reads_back};
