//! What `send` is asked for.

use ips_fmri::Version;
use ips_text::{RelPath, Text};

/// What the words ask for.
#[derive(Drop)]
pub enum Request {
    /// Make a repository of this publisher.
    Create {
        publisher: Text,
    },
    /// Publish a version of a stem.
    Publish {
        publisher: Text,
        stem: Text,
        /// The version, with a timestamp.
        version: Version,
        /// Where its manifest stands, in the folder of what is published.
        path: RelPath,
    },
}
