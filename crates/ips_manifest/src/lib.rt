//! Manifests: what a package consists of, read exactly and printed in one spelling.
//!
//! A manifest is UTF-8 text whose logical lines are actions. It is read exactly where each of them is one, and else the first
//! line is told that isn't, with its fault. What is printed reads back.
#![tactic(auto)]

mod draft;
mod fault;
mod line;
mod logical;
mod manifest;
mod package;
mod physical;

pub use draft::{Draft, read_draft};
pub use fault::{LineFault, ManifestFault};
pub use line::Line;
pub use logical::{Held, Remaining, is_skipped, next_logical};
pub use manifest::{Manifest, faults_have_lines, manifests_read_back};
pub use package::Package;
