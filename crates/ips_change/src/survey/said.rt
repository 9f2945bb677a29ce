//! What account files and records say of a path.

use ips_text::RelPath;

/// What account files and records say of a path.
#[derive(Clone, Copy, Drop)]
pub enum Said {
    /// An entry is laid there.
    Lays,
    /// What stands there is taken away.
    Takes,
}

/// A path that account files and records name: one of which they speak, or one above such.
#[derive(Clone, Copy, Drop)]
pub struct Spoken<'a> {
    /// The path.
    pub path: &'a RelPath,
    /// What is said of it; nothing of one that is only above such.
    pub said: Option<Said>,
}
