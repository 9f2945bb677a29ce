//! What is prepared.

use ips_digest::PayloadName;
use ips_manifest::Manifest;
use ips_text::{RelPath, Text};

/// A content that the package has.
#[derive(Drop)]
pub struct Content {
    /// Where it stands in the folder of what is published.
    pub path: RelPath,
    /// Its name.
    pub name: PayloadName,
}

/// A manifest, and the contents that its actions have.
#[derive(Drop)]
pub struct Prepared {
    /// The manifest.
    pub manifest: Manifest,
    /// The contents, in the order of their lines.
    pub contents: Vec<Content>,
}

/// The texts that are put.
#[derive(Drop)]
pub struct Texts {
    /// That of the manifest.
    pub manifest: Text,
    /// That of the catalog.
    pub catalog: Vec<u8>,
}
