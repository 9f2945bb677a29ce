//! What becomes of a path, and what is put beside it.

use ips_digest::PayloadName;
use ips_text::{RelPath, Text};

/// What becomes of a path. What is laid is lent by what is wanted.
#[derive(Clone, Copy, Drop)]
pub enum Change<'a> {
    /// Nothing.
    Kept,
    /// It goes, with all below it.
    Removed,
    /// A directory is made.
    Dir {
        /// Its mode.
        mode: u16,
    },
    /// A file is laid.
    File {
        /// Its content.
        payload: &'a PayloadName,
        /// Its mode.
        mode: u16,
    },
    /// A symbolic link is made.
    Link {
        /// What it says.
        target: &'a Text,
    },
    /// One more name of a file is made.
    Hard {
        /// The path of the file.
        to: &'a RelPath,
    },
    /// What stands stays, with another mode.
    Mode {
        /// That mode.
        mode: u16,
    },
}

/// A file that is put beside a path.
#[derive(Clone, Copy, Drop)]
pub enum Beside {
    /// What stands, with the extension `.old`.
    Old,
    /// What stands, with the extension `.legacy`.
    Legacy,
    /// What is wanted, with the extension `.new`.
    New,
}
