//! The limits of this program.

/// Which limit a count passed.
#[derive(Clone, Copy, Debug, PartialEq, Eq, Drop)]
pub enum Which {
    /// The size of a catalog file, in bytes.
    CatalogBytes,
    /// The number of stems in a catalog.
    Stems,
    /// The number of versions in a catalog.
    Versions,
    /// The size of one manifest, in bytes.
    ManifestBytes,
    /// The size of all manifests that one run reads from the repository, in bytes, each counted once.
    AllManifests,
    /// The size of one payload, in bytes.
    PayloadBytes,
    /// The size of one file of the image's records, in bytes.
    ImageFileBytes,
    /// The size of one account file, in bytes.
    AccountBytes,
    /// The number of steps that lay the changes of one request.
    Steps,
    /// The number of names that one file gets by the steps of one request.
    Names,
}
