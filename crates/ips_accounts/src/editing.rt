//! The edit.

ghost use Rattle.ips_text.specs.Reading.{Gives};
ghost use Rattle.ips_books.specs.Seen.{texts};
ghost use Rattle.ips_accounts.specs.Editing.{edited};
ghost use Rattle.ips_accounts.specs.Seen.{cleared, edited_from, tables_seen};

use crate::groups::add_groups;
use crate::tables::Tables;
use crate::users::{add_users, are_known};
use ips_action::Action;
use ips_books::{AccountFault, Books, read_books};
use ips_text::Or;
use ips_turnover::{fresh, remove_gone};
use std::alloc::Global;

/// The texts of the account files after the users and groups of the old packages gave way to those of the new ones.
///
/// The lines of gone names go, and gone users leave all member lists. Then the new groups and users whose line differs from
/// every old one get theirs, groups first, each by the bytes of their names. A number is the one given, else that of the line
/// that stands, else the least free one. Every other line keeps its bytes.
///
/// Told are, in this order: the first line that isn't one of its file, the first number that is another name's, and the first
/// user whose group has no number.
pub fn edit(
    alloc: Global,
    base: &Books,
    old: &[Action],
    new: &[Action],
) -> Result<Books, Or<AccountFault>>
    ensures { Gives texts result (edited (texts base.now) old.now new.now) }
{
    let mut tables = read(alloc, base, old, new)?;
    change(alloc, &mut tables, old, new)?;
    Ok(tables.print(alloc)?)
}

// The files without gone names.
fn read(
    alloc: Global,
    base: &Books,
    old: &[Action],
    new: &[Action],
) -> Result<Tables, Or<AccountFault>>
    ensures { Gives tables_seen result (cleared (texts base.now) old.now new.now) }
{
    let mut files = read_books(alloc, base)?;
    remove_gone(alloc, &mut files, old, new)?;
    Ok(Tables::new(alloc, files)?)
}

// Adds the new groups and users to files without gone names.
fn change(
    alloc: Global,
    tables: &mut Tables,
    old: &[Action],
    new: &[Action],
) -> Result<(), Or<AccountFault>>
    ensures { Gives (λ _. tables_seen tables.new) result (edited_from (tables_seen tables.old) old.now new.now) }
{
    let groups = fresh(alloc, "group", "groupname", old, new)?;
    add_groups(alloc, tables, &groups)?;
    let users = fresh(alloc, "user", "username", old, new)?;
    add_users(alloc, tables, &users)?;
    are_known(alloc, tables, &users)
}
