//! Why a request poses no problem.

use ips_manifest::ManifestFault;
use ips_text::{Text, Which};

/// Why a request poses no problem.
#[derive(Debug, Drop)]
pub enum ProblemFault {
    /// A pattern matches no stem.
    NoMatch {
        /// The pattern.
        pattern: Text,
    },
    /// A pattern without a wildcard matches several stems, and equals none.
    Ambiguous {
        /// The pattern.
        pattern: Text,
        /// The stems that it matches, by their bytes.
        stems: Vec<Text>,
    },
    /// The repository has no manifest of a version that is needed.
    ManifestMissing {
        /// The stem and the version.
        fmri: Text,
    },
    /// A manifest of the repository isn't one.
    BadManifest {
        /// The stem and the version that it is of.
        fmri: Text,
        /// What is wrong with it.
        fault: ManifestFault,
    },
    /// A `depend` action that the image takes asks for nothing that is known.
    BadDepend {
        /// The stem and the version whose manifest has it.
        fmri: Text,
        /// The number of its line.
        line: u64,
    },
    /// A count is greater than its limit.
    TooLarge {
        /// The limit.
        which: Which,
        /// The count.
        count: u64,
    },
    /// A call on the source failed.
    SourceFault,
}
