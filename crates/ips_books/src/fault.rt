//! What is wrong with account files, and with names.

use crate::books::Book;
use ips_text::Text;

/// Why account files can't be edited.
#[derive(Drop)]
pub enum AccountFault {
    /// A line isn't one of its file. Lines are counted from 1.
    BadAccountLine { book: Book, line: u64 },
    /// The number that an action wants is another name's.
    IdTaken { id: u32 },
    /// The group of a user has no number.
    UnknownGroup { name: Text },
}

/// Which name has no number.
#[derive(Clone, Copy, Drop)]
pub enum Unknown {
    /// The owner.
    Owner,
    /// The group.
    Group,
}
