//! What is wrong at a wanted path.

use ips_text::RelPath;

/// A wanted path at which something else stands.
#[derive(Drop)]
pub struct Finding {
    /// The path.
    pub path: RelPath,
    /// What is wrong there.
    pub damage: Damage,
}

/// What is wrong, the first that holds of a path.
#[derive(Clone, Copy, Drop)]
pub enum Damage {
    /// Nothing stands there.
    Missing,
    /// Something of another kind stands there.
    WrongKind,
    /// The file has other bytes.
    WrongContent,
    /// The mode is another one.
    WrongMode,
    /// The link leads elsewhere.
    WrongTarget,
    /// The hardlink isn't the file that it leads to.
    NotSame,
}
