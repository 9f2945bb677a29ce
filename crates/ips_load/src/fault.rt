//! Why the records of an image can't be loaded.

use ips_text::{RelPath, Which};

/// Why the records of an image can't be loaded.
#[derive(Drop)]
pub enum StateFault {
    /// Nothing stands at `var/pkg/image`.
    NoImage,
    /// A file of the records isn't of its grammar, or isn't there.
    BadImage {
        /// The file.
        file: RelPath,
        /// The first line that can't stand there, from 1; 0 where there is no file.
        line: u64,
    },
    /// A file of the records has too many bytes.
    TooLarge {
        /// The limit: that of such files.
        which: Which,
        /// How many it has.
        count: u64,
    },
    /// A call on the folder failed.
    FolderFault,
}
