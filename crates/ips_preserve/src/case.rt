//! Cases of the keep table.

use ips_action::Preserve;

/// What happens to a file.
#[derive(Clone, Copy, Drop)]
pub enum Event {
    /// A file is wanted at the path, and none was before.
    First,
    /// A file is wanted at the path, and one was before.
    Update,
    /// A file was wanted at the path, and nothing is any more.
    Removal,
}

/// What stands at a file's path.
#[derive(Clone, Copy, Drop)]
pub enum Standing {
    /// Nothing.
    Absent,
    /// A file with the bytes of the payload: of the new one at `First`, of the old one else.
    Same,
    /// A file with other bytes.
    Different,
    /// A directory, a symlink or anything else that is no file.
    NotFile,
}

/// A case of the keep table.
#[derive(Clone, Copy, Drop)]
pub struct Case {
    /// The file's `preserve`: that of the new action, at a removal that of the old one.
    pub preserve: Preserve,
    /// What happens to it.
    pub event: Event,
    /// What stands at its path.
    pub standing: Standing,
    /// Whether the new payload differs from the old one. It matters at an update alone.
    pub changed: bool,
}
