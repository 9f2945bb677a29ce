//! What is laid, and why it isn't.

use ips_digest::PayloadName;
use ips_text::RelPath;

/// A content that is to be laid.
#[derive(Drop)]
pub struct Content {
    /// Where it stands in the source.
    pub path: RelPath,
    /// Its name.
    pub name: PayloadName,
    /// Where it is to stand in the repository.
    pub place: RelPath,
}

/// Why contents aren't laid.
#[derive(Clone, Copy, Debug, PartialEq, Eq, Drop)]
pub enum LayFault {
    /// The source has no file with that name at the path of this content.
    Missing {
        /// The place of the content in the list.
        at: u64,
    },
    /// A call on the source failed.
    SourceFault,
    /// A call on the folder failed.
    FolderFault,
}

/// Why one content isn't laid.
#[derive(Clone, Copy, Debug, PartialEq, Eq, Drop)]
pub(crate) enum ContentFault {
    /// The source has no file with that name there.
    Missing,
    /// A call on the source failed.
    SourceFault,
    /// A call on the folder failed.
    FolderFault,
}
