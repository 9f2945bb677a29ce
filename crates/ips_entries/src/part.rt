//! Parts of a state that have a record each.

use ips_text::RelPath;

/// A part of a state that has a record.
#[derive(Clone, Copy, Drop)]
pub enum Part {
    /// What the image is by itself.
    Image,
    /// The list of packages, in format 1.
    Installed,
    /// The stems that group dependencies don't ask for.
    Avoid,
    /// The stems that are kept at a version.
    Freeze,
    /// What is set of mediators.
    Mediators,
    /// The requests that were carried out.
    History,
    /// The index, where the state has one.
    Index,
    /// The package of this number: its manifest in format 1, its record in format 2.
    Package(usize),
}

/// The place of a record.
#[derive(Drop)]
pub struct Place {
    /// Where it stands.
    pub path: RelPath,
    /// Of which part it is.
    pub part: Part,
}
