//! Why a repository isn't made.

use ips_text::RelPath;

/// Why a repository isn't made.
#[derive(Drop)]
pub enum CreateFault {
    /// One is there already.
    Exists,
    /// Something that is no directory and gives way to none stands at the path of one of its directories.
    Blocked {
        /// The least such path, by bytes.
        path: RelPath,
    },
    /// A call on the folder failed.
    FolderFault {
        /// Whether a call was made that may have changed something.
        unfinished: bool,
    },
}
