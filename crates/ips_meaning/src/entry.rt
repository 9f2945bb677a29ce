//! What is wanted at a path.

use ips_action::Preserve;
use ips_digest::PayloadName;
use ips_text::{RelPath, Text};

/// What an image should hold at a path (pkg(7), "Actions").
#[derive(Drop)]
pub enum Entry {
    /// A directory.
    Dir {
        /// Its mode: none where no action gives the directory, so that it may have any.
        mode: Option<u16>,
    },
    /// A file.
    File {
        /// Its content.
        payload: PayloadName,
        /// Its mode.
        mode: u16,
        /// How it is kept where it was changed.
        preserve: Preserve,
    },
    /// A symbolic link.
    Link {
        /// What it says.
        target: Text,
    },
    /// A hard link.
    Hard {
        /// The path of the file that it is another name of.
        to: RelPath,
    },
}
