//! What is left of a file.

use ips_digest::PayloadName;

/// What is left of a file at a path.
#[derive(Clone, Copy, Drop)]
pub enum Left {
    /// No file.
    Nothing,
    /// The file that stands, with this mode.
    Standing { mode: u16 },
    /// The file of this payload, with this mode.
    Laid { payload: PayloadName, mode: u16 },
}
