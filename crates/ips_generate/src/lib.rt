//! The repository that `gen` makes, in memory: so many small packages that require one another, and one that requires them all.
//!
//! `specs/Generated` says which files it has, byte by byte. In reading order: texts of manifests and of the catalog (`texts`), files
//! and directories (`files`), the repository (`generating`).
#![tactic(auto)]

mod files;
mod generating;
mod texts;

pub use generating::generate;
