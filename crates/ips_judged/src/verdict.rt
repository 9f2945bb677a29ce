//! What is asked, and what is answered.

use ips_fmri::Version;
use ips_manifest::ManifestFault;
use ips_prepare::{Prepared, Texts};
use ips_repo::RepoFault;
use ips_text::{RelPath, Text, Which};

/// What is to be published: a version of a stem, by a manifest.
#[derive(Drop)]
pub struct Asked {
    /// The publisher.
    pub publisher: Text,
    /// The stem.
    pub stem: Text,
    /// The version.
    pub version: Version,
    /// Where the manifest stands in the folder of what is published.
    pub path: RelPath,
}

/// What is put.
#[derive(Drop)]
pub struct Publication {
    /// The manifest, and its contents.
    pub prepared: Prepared,
    /// The directories on the way to what is written, each behind those that it stands in.
    pub ways: Vec<RelPath>,
    /// The texts of the manifest and of the catalog.
    pub texts: Texts,
}

/// Why nothing is published.
#[derive(Drop)]
pub enum Refusal {
    /// The repository isn't opened.
    Unopened { fault: RepoFault },
    /// No file stands at the manifest's path.
    ManifestMissing,
    /// The manifest isn't one.
    BadManifest { fault: ManifestFault },
    /// The text names no file that is the content of a line.
    ContentMissing { text: Text },
    /// The version is listed already.
    Exists,
    /// Something else than a directory stands at the path, on the way to what is written.
    Blocked { path: RelPath },
    /// A count passes its limit.
    TooLarge { which: Which, count: u64 },
}

/// Why it isn't judged that this can be published.
#[derive(Drop)]
pub enum JudgeFault {
    /// It is refused.
    Refused { refusal: Refusal },
    /// A call on the folder of what is published failed.
    SourceFault,
    /// A call on the repository failed.
    FolderFault,
}
