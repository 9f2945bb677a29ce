//! What the keep table answers.

/// What becomes of a file.
#[derive(Clone, Copy, Drop)]
pub enum Keep {
    /// What stands at the path stays.
    Stay,
    /// The new content is laid.
    Lay,
    /// What stands at the path is salvaged where it isn't given up, and the new content is laid.
    SalvageLay,
    /// What stands is kept with the extension `.old`, and the new content is laid.
    SaveOld,
    /// What stands stays, and the new content is laid with the extension `.new`.
    LayNew,
    /// What stands is kept with the extension `.legacy`, and the new content is laid.
    SaveLegacy,
    /// The file is removed.
    Drop,
    /// The file is salvaged and removed.
    SalvageDrop,
}
