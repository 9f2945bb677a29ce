//! The account files.

/// The texts of the three files; a file that doesn't stand is empty.
#[derive(Drop)]
pub struct Books {
    /// `etc/passwd`: users, with their numbers.
    pub passwd: Vec<u8>,
    /// `etc/shadow`: their passwords.
    pub shadow: Vec<u8>,
    /// `etc/group`: groups, with their numbers and members.
    pub group: Vec<u8>,
}

/// One of the files.
#[derive(Clone, Copy, Drop)]
pub enum Book {
    /// `etc/passwd`.
    Passwd,
    /// `etc/shadow`.
    Shadow,
    /// `etc/group`.
    Group,
}
