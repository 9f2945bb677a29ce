//! The installed packages of an image, loaded from its records, in both formats.
//!
//! In format 1 the names of the packages are listed, and a manifest stands for each; in format 2 each has a record in one
//! folder. The first record that can't be read is told, in the order of loading. In reading order: packages of format 1
//! (`listed`), the text of a package's record (`record`), the record of a package (`child`), packages of format 2 (`folder`).
#![tactic(auto)]

mod child;
mod folder;
mod listed;
mod record;

pub use child::load_child;
pub use folder::load_folder;
pub use listed::load_manifests;
pub use record::read_record;
