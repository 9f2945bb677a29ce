//! What is made of a draft, and why it isn't.

use ips_manifest::Line;
use ips_text::{RelPath, Text};

/// A line of a draft with the name of its content.
#[derive(Drop)]
pub struct Filled {
    /// The line.
    pub line: Line,
    /// Where its content stands in the folder, where it has one.
    pub path: Option<RelPath>,
}

/// Why contents aren't taken in.
#[derive(Drop)]
pub enum ContentFault {
    /// No file stands where this text names a content.
    Missing {
        text: Text,
    },
    /// A content has more bytes than a payload may have.
    TooLarge {
        /// How many it has.
        count: u64,
    },
    /// A call on the source failed.
    SourceFault,
}
