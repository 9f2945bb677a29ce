//! Where a folder in memory stops, and what a crash there leaves.

/// What a crash leaves of the names that were touched since the last sync.
#[derive(Clone, Copy, Debug, PartialEq, Eq)]
pub enum Choice {
    /// They are as at the last sync.
    Before,
    /// They are as they were changed.
    After,
    /// Nothing stands there.
    Gone,
    /// Each is a directory of mode 0700 with an empty file `junk`.
    Junk,
    /// Each file is cut to half its length, where it has no other name that wasn't touched.
    Torn,
}

/// A call, numbered from 1 on, at which a folder stops: this call and each later one fails.
#[derive(Clone, Copy, Debug, PartialEq, Eq)]
pub struct Stop {
    pub call: u64,
    pub choice: Choice,
}
