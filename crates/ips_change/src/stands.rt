//! What a rule learned of what stands at a path.

/// What stands at a path, as far as a rule asks.
#[derive(Clone, Copy, Drop)]
pub enum Stands {
    /// No rule asks: an equal entry was wanted, or nothing was and is.
    Unasked,
    /// Nothing.
    Absent,
    /// A directory.
    Dir {
        /// Its mode.
        mode: u16,
    },
    /// A file.
    File {
        /// Its mode.
        mode: u16,
        /// Whether it has the payload that counts as the same: that of a file that was wanted, else of the one that is. False where no rule
        /// asks.
        known: bool,
        /// Whether it has the payload of the file that is wanted. False where no rule asks.
        fresh: bool,
    },
    /// A symbolic link.
    Link {
        /// Whether it says what one that is wanted says.
        wanted: bool,
    },
    /// Anything else.
    Other,
}
