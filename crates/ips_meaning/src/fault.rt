//! Why packages mean no image.

use ips_conflict::Clash;
use ips_text::RelPath;

/// Why packages mean no image.
#[derive(Drop)]
pub enum WantFault {
    /// An action gives a path where the image keeps its own records.
    Reserved {
        /// The least such path.
        path: RelPath,
    },
    /// Two actions can't stand in one image.
    Clash(Clash),
}
