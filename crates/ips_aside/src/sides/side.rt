//! A file that is put beside a path.

ghost use Rattle.std.specs.Prelude.{◌≡◌};
ghost use Rattle.ips_aside.specs.sides.Sides.{ending_of};

use ips_digest::PayloadName;
use ips_text::RelPath;

/// Which file is put beside a path.
#[derive(Clone, Copy, Drop)]
pub enum Put<'a> {
    /// The file that stands there, with the extension `.old`.
    Old {
        /// Its mode.
        mode: u16,
    },
    /// The file that stands there, with the extension `.legacy`.
    Legacy {
        /// Its mode.
        mode: u16,
    },
    /// The file that is wanted there, with the extension `.new`.
    New {
        /// Its content.
        payload: &'a PayloadName,
        /// Its mode.
        mode: u16,
    },
}

impl Put<'_> {
    /// The extension of its name.
    pub fn ending(self) -> &'static [u8]
        ensures { result.now ≡ ending_of self.entry }
    {
        match self {
            Put::Old { .. } => b".old",
            Put::Legacy { .. } => b".legacy",
            Put::New { .. } => b".new",
        }
    }
}

/// What becomes of a name beside a path.
#[derive(Drop)]
pub enum SideName {
    /// It can be used.
    Free(RelPath),
    /// It can't be used: something was or is wanted there, or something other than a file or a symbolic link stands there. The file goes into the
    /// salvage folder.
    Lost,
    /// It is too long for a path.
    TooLong,
}

/// A file that is put beside a path.
#[derive(Drop)]
pub struct Side<'a> {
    /// The path.
    pub path: &'a RelPath,
    /// The file.
    pub put: Put<'a>,
    /// What becomes of its name, which is the path with the file's extension.
    pub name: SideName,
}
