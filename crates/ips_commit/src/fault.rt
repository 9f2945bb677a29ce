//! Why a change isn't committed or recovered.

/// Why a change isn't committed or recovered.
#[derive(Drop)]
pub enum CommitFault {
    /// A call on the folder failed before the gate was to open, or before an open one was to be recovered from: the image
    /// that is seen is as before.
    Unchanged,
    /// A call on the folder failed later: the gate may stand open, and `recover` goes on.
    Unfinished,
    /// The journal behind an open gate can't be read or laid.
    BadJournal {
        /// The number of the line, from 1.
        line: u64,
    },
}
