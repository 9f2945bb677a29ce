//! What was found at a path.

use ips_text::RelPath;

/// What was found at a path.
#[derive(Drop)]
pub enum Found {
    /// A directory.
    Dir {
        /// Its permission bits.
        mode: u16,
        /// Whether it also holds names that are no paths.
        foreign: bool,
    },
    /// A file.
    File {
        /// Its permission bits.
        mode: u16,
    },
    /// A symbolic link.
    Link {
        /// What it says, which may be any bytes.
        target: Vec<u8>,
    },
    /// Anything else, as a device or a named pipe.
    Other,
}

/// A path with what was found there.
#[derive(Drop)]
pub struct Thing {
    /// The path.
    pub path: RelPath,
    /// What was found.
    pub found: Found,
}
