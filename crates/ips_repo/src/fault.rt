//! Why something of a repository isn't given.

use ips_catalog::CatalogFault;
use ips_digest::PayloadName;
use ips_manifest::ManifestFault;
use ips_text::Which;

/// Why something of a repository isn't given.
#[derive(Debug, Drop)]
pub enum RepoFault {
    /// The folder isn't marked as a repository of format 4.
    NoRepository,
    /// The publisher's catalog isn't one; where its file is absent it is `NotJson`.
    BadCatalog(CatalogFault),
    /// No file stands at the manifest's place.
    ManifestMissing,
    /// The manifest's bytes aren't those of one: its first fault.
    BadManifest(ManifestFault),
    /// No file stands at the payload's place.
    PayloadMissing,
    /// The payload's bytes have another digest, and don't begin as a gzip file does.
    PayloadDamaged {
        /// The digest that the bytes have.
        found: PayloadName,
    },
    /// The payload's bytes have another digest, and begin as a gzip file does: with `1f 8b`.
    Compressed {
        /// The digest that the bytes have.
        found: PayloadName,
    },
    /// A count is greater than its limit.
    TooLarge {
        /// The limit.
        which: Which,
        /// The count.
        count: u64,
    },
    /// A call on the source failed.
    SourceFault,
}
