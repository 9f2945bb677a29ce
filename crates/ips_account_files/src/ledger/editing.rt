//! The edit of account files.

ghost use Rattle.std.specs.Prelude.{◌≡◌, [], IfOk};
ghost use Rattle.ips_text.specs.Reading.{Fails, Gives};
ghost use Rattle.ips_books.specs.Seen.{texts};
ghost use Rattle.ips_account_files.specs.ledger.Editing.{edited_where, first_bad};

use crate::ledger::blocked::Blocked;
use ips_accounts::edit;
use ips_action::Action;
use ips_books::{AccountFault, Book, Books, read_books};
use ips_text::Or;
use std::alloc::{AllocError, Global};

/// The texts of the account files after the users and groups of the old packages gave way to those of the new ones, where the paths of some files are
/// blocked: then the first bad line is told, which is line 0 of a blocked file.
pub fn edit_where(
    alloc: Global,
    blocked: Blocked,
    base: &Books,
    old: &[Action],
    new: &[Action],
) -> Result<Books, Or<AccountFault>>
    ensures { Gives texts result (edited_where blocked (texts base.now) old.now new.now) }
{
    if blocked.passwd {
        return Err(refused(alloc, Book::Passwd, b"", b""));
    }
    if blocked.shadow {
        return Err(refused(alloc, Book::Shadow, &base.passwd, b""));
    }
    if blocked.group {
        return Err(refused(alloc, Book::Group, &base.passwd, &base.shadow));
    }
    edit(alloc, base, old, new)
}

// The first bad line of files that are before one whose path is blocked, or else its line 0.
fn refused(alloc: Global, book: Book, passwd: &[u8], shadow: &[u8]) -> Or<AccountFault>
    ensures { Fails result (first_bad book passwd.now shadow.now) }
{
    let Ok(front) = front(alloc, passwd, shadow) else {
        return Or::OutOfMemory;
    };
    match read_books(alloc, &front) {
        Ok(_) => Or::Bad(AccountFault::BadAccountLine { book, line: 0 }),
        Err(fault) => fault,
    }
}

// Both files, and none for groups.
fn front(alloc: Global, passwd: &[u8], shadow: &[u8]) -> Result<Books, AllocError>
    ensures { IfOk result (λ books. texts books ≡ record { passwd = passwd.now; shadow = shadow.now; group = [] }) }
{
    let passwd = Vec::from_slice(alloc, passwd)?;
    let shadow = Vec::from_slice(alloc, shadow)?;
    Ok(Books {
        passwd,
        shadow,
        group: Vec::new(alloc),
    })
}
