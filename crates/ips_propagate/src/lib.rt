//! An engine that looks ahead of a search: it propagates, learns from conflicts, and says why a candidate fails.
//!
//! Each pair of a stem and a candidate is a literal. The engine keeps which candidates are left for each stem, and why the others
//! aren't; what a test removes is found by watching one good candidate of it. A conflict is resolved into a learned set, each
//! resolution as a line of a refutation. Solutions are sought in the stems' order first, and then by activity. What it hands over
//! is believed by nobody: `ips_search` keeps a line only where it is a nogood, and rejects a candidate only where its reason holds.
#![tactic(auto)]

mod analysis;
mod board;
mod engine;
mod gathered;
mod learned;
mod lines;
mod numbers;
mod order;
mod searching;
mod spreading;
mod tables;
mod trail;

pub use engine::{Engine, Found};
