//! Kinds: each carries out steps of some sorts, act by act, and counts the steps that it has finished.
//!
//! A kind only says which act comes next; whoever holds the folder does it. The acts of each sort are one table,
//! `specs/Acts`. What a list of kinds counts is told by `specs/Tallies`.
#![tactic(auto)]

mod kind;
mod sorts;

pub use ips_steps::{Sort, Step, Target, TargetFault};
pub use kind::{Act, Kind, counts_each_step, ends_once};
pub use sorts::{FreshKind, GoneKind, HardKind, LinkKind, ModeKind, PutKind};
