//! What a request asks for.

/// What a request asks for.
#[derive(Clone, Copy, Debug, PartialEq, Eq, Drop)]
pub enum Kind {
    /// Packages are to be there.
    Install,
    /// Packages are to be as new as can be.
    Update,
    /// Packages are to be absent.
    Uninstall,
    /// The selection is to stay.
    Keep,
}
