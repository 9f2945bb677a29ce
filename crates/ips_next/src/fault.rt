//! Why a command leads to no new state.

use ips_catalog::CatalogFault;
use ips_manifest::ManifestFault;
use ips_refute::Refutation;
use ips_report::Tried;
use ips_text::{Text, Which};

/// Why a command leads to no new state.
#[derive(Drop)]
pub enum NextFault {
    /// The image's records are of the first format.
    OldFormat,
    /// The repository isn't marked as one.
    NoRepository,
    /// The publisher's catalog isn't one.
    BadCatalog {
        /// What is wrong with it.
        fault: CatalogFault,
    },
    /// A pattern matches no stem.
    NoMatch {
        /// The pattern.
        pattern: Text,
    },
    /// A pattern without a wildcard matches several stems, and equals none.
    Ambiguous {
        /// The pattern.
        pattern: Text,
        /// The stems that it matches, by their bytes.
        stems: Vec<Text>,
    },
    /// The repository has no manifest of a version that is needed.
    ManifestMissing {
        /// The stem and the version.
        fmri: Text,
    },
    /// A manifest of the repository isn't one.
    BadManifest {
        /// The stem and the version that it is of.
        fmri: Text,
        /// What is wrong with it.
        fault: ManifestFault,
    },
    /// A `depend` action that the image takes asks for nothing that is known.
    BadDepend {
        /// The stem and the version whose manifest has it.
        fmri: Text,
        /// The number of its line.
        line: u64,
    },
    /// A count is greater than its limit.
    TooLarge {
        /// The limit.
        which: Which,
        /// The count.
        count: u64,
    },
    /// No selection is admissible.
    NoSolution {
        /// The stems in reach, in order, each with its candidates.
        stems: Vec<Tried>,
        /// Why no choice of them fits together.
        refutation: Refutation,
    },
    /// The search needs more beginnings than its limit.
    SearchSpent {
        /// The limit.
        limit: u64,
    },
    /// The image is as the command asks.
    NothingToDo,
    /// A call on the source failed.
    SourceFault,
}
