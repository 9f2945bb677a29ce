//! Versions whose manifests were read.

use ips_depend::Test;
use ips_fmri::Version;
use ips_manifest::Manifest;

/// A version of a stem whose manifest was read.
#[derive(Drop)]
pub struct Read {
    /// The version.
    pub version: Version,
    /// What it consists of.
    pub manifest: Manifest,
    /// The dependencies that the image takes, in order.
    pub tests: Vec<Test>,
    /// It is obsolete.
    pub gone: bool,
    /// The stem may come to it.
    pub comes: bool,
    /// It is installed.
    pub stands: bool,
    /// It is the greatest of the catalog.
    pub newest: bool,
}
