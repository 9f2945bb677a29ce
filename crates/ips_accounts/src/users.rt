//! Users.

ghost use Rattle.std.specs.Prelude.{◌≡◌, map, Ok, IfOk, OnOk};
ghost use Rattle.ips_text.specs.Reading.{Gives};
ghost use Rattle.ips_accounts.specs.Editing as spec;
ghost use Rattle.ips_accounts.specs.Seen.{tables_seen};

use crate::groups::join_groups;
use crate::numbers::number_for;
use crate::tables::Tables;
use ips_action::Action;
use ips_books::{AccountFault, join};
use ips_passwd::{Named, gid_at};
use ips_text::{Or, Text};
use ips_turnover::{given_or, number_given, value_of};
use std::alloc::{AllocError, Global};

/// Adds each user in turn, or tells the first whose number is another name's.
pub fn add_users(
    alloc: Global,
    tables: &mut Tables,
    users: &[&Action],
) -> Result<(), Or<AccountFault>>
    ensures { Gives (λ _. tables_seen tables.new) result (spec.each spec.with_user (map (λ a. a.now) users.now) (tables_seen tables.old)) }
{
    for user in users {
        add_user(alloc, tables, user)?;
    }
    Ok(())
}

// Adds a user: its line in passwd, a line in shadow where it has none, and its place in the groups that it asks for.
fn add_user(alloc: Global, tables: &mut Tables, user: &Action) -> Result<(), Or<AccountFault>>
    ensures { Gives (λ _. tables_seen tables.new) result (spec.with_user user.now (tables_seen tables.old)) }
{
    let name = value_of(user, "username");
    let uid = number_for(
        &mut tables.passwd,
        name.as_bytes(),
        number_given(user, "uid"),
    )?;
    let gid = gid_at(tables.group.named(), value_of(user, "group")).unwrap_or(0);
    let text = passwd_text(alloc, user, uid, gid)?;
    tables.passwd.put(alloc, name.as_bytes(), text)?;
    add_password(alloc, &mut tables.shadow, user)?;
    join_groups(
        alloc,
        &mut tables.group,
        name,
        user.attrs.values("group-list"),
    )?;
    Ok(())
}

// The line of a user in passwd.
fn passwd_text(alloc: Global, user: &Action, uid: u32, gid: u32) -> Result<Vec<u8>, AllocError>
    ensures { IfOk result (λ text. text.items ≡ spec.passwd_text user.now uid gid) }
{
    let uid = format!(in alloc; "{uid}")?;
    let gid = format!(in alloc; "{gid}")?;
    join(
        alloc,
        b':',
        &[
            value_of(user, "username").as_bytes(),
            "x".as_bytes(),
            uid.as_bytes(),
            gid.as_bytes(),
            given_or(user, "gcos-field", "& User").as_bytes(),
            given_or(user, "home-dir", "/").as_bytes(),
            given_or(user, "login-shell", "").as_bytes(),
        ],
    )
}

// Adds a line for the user to shadow, where it has none.
fn add_password(alloc: Global, lines: &mut Named, user: &Action) -> Result<(), AllocError>
    ensures { OnOk result (lines.new ≡ spec.with_shadow user.now lines.old) }
{
    match lines.place_of(value_of(user, "username").as_bytes()) {
        Some(_) => Ok(()),
        None => lines.add(alloc, shadow_text(alloc, user)?),
    }
}

// The line of a user in shadow: the password, and seven empty fields.
fn shadow_text(alloc: Global, user: &Action) -> Result<Vec<u8>, AllocError>
    ensures { IfOk result (λ text. text.items ≡ spec.shadow_text user.now) }
{
    let name = value_of(user, "username").as_bytes();
    let password = given_or(user, "password", "*LK*").as_bytes();
    let none = "".as_bytes();
    join(
        alloc,
        b':',
        &[name, password, none, none, none, none, none, none, none],
    )
}

/// Tells the first user whose group has no number.
pub fn are_known(alloc: Global, tables: &Tables, users: &[&Action]) -> Result<(), Or<AccountFault>>
    ensures { Gives (λ _. tables_seen tables.now) result (spec.if_known (map (λ a. a.now) users.now) (tables_seen tables.now)) }
{
    for user in users {
        let group = value_of(user, "group");
        if gid_at(tables.group.named(), group).is_none() {
            let name = Text::new(alloc, group)?;
            return Err(Or::Bad(AccountFault::UnknownGroup { name }));
        }
    }
    Ok(())
}
