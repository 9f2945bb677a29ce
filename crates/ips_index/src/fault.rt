//! What is wrong with the text of an index.

/// The text isn't that of an index.
#[derive(Clone, Copy, Drop)]
pub struct BadIndex {
    /// The first line, from 1, that no index goes on with.
    pub line: u64,
}
