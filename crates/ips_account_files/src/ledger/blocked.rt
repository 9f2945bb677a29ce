//! Account files that can't be edited.

/// Whether something other than a file stands or is wanted at the path of each account file.
#[derive(Clone, Copy, Drop)]
pub struct Blocked {
    /// At `etc/passwd`, or something other than a directory is wanted at `etc`.
    pub passwd: bool,
    /// At `etc/shadow`.
    pub shadow: bool,
    /// At `etc/group`.
    pub group: bool,
}
