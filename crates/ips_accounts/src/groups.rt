//! Groups.

ghost use Rattle.std.specs.Prelude.{◌≡◌, ◌<◌, length, map, slice_index_or, slice_set, unwrap_or, IfOk, OnOk};
ghost use Rattle.std.specs.List.{list_any};
ghost use Rattle.ips_text.specs.Reading.{Gives};
ghost use Rattle.ips_action.specs.Attrs.{is_same};
ghost use Rattle.ips_books.specs.Lines as lines_spec;
ghost use Rattle.ips_books.specs.Accounts as books_spec;
ghost use Rattle.ips_accounts.specs.Editing as spec;
ghost use Rattle.ips_books.specs.Writing as writing_spec;
ghost use Rattle.ips_accounts.specs.Seen.{tables_seen};

use crate::numbers::number_for;
use crate::tables::Tables;
use ips_action::{Action, Values};
use ips_books::{AccountFault, Line, field, join, members_of, with_members};
use ips_passwd::{Named, Numbered};
use ips_text::Or;
use ips_turnover::{number_given, value_of};
use std::alloc::{AllocError, Global};

/// Adds each group in turn, or tells the first whose number is another name's.
pub fn add_groups(
    alloc: Global,
    tables: &mut Tables,
    groups: &[&Action],
) -> Result<(), Or<AccountFault>>
    ensures { Gives (λ _. tables_seen tables.new) result (spec.each spec.with_group (map (λ a. a.now) groups.now) (tables_seen tables.old)) }
{
    for group in groups {
        add_group(alloc, tables, group)?;
    }
    Ok(())
}

// Adds a group: its line has its number, and the members that stood.
fn add_group(alloc: Global, tables: &mut Tables, group: &Action) -> Result<(), Or<AccountFault>>
    ensures { Gives (λ _. tables_seen tables.new) result (spec.with_group group.now (tables_seen tables.old)) }
{
    let name = value_of(group, "groupname");
    let gid = number_for(
        &mut tables.group,
        name.as_bytes(),
        number_given(group, "gid"),
    )?;
    let text = group_text(alloc, tables.group.named(), name, gid)?;
    tables.group.put(alloc, name.as_bytes(), text)?;
    Ok(())
}

// The line of a group, with the members that stand.
fn group_text(alloc: Global, lines: &Named, name: &str, gid: u32) -> Result<Vec<u8>, AllocError>
    ensures { IfOk result (λ text. text.items ≡ spec.group_text name.now gid (spec.standing_members lines.now name.now)) }
{
    let gid = format!(in alloc; "{gid}")?;
    let members = standing_members(lines, name);
    join(
        alloc,
        b':',
        &[name.as_bytes(), "".as_bytes(), gid.as_bytes(), members],
    )
}

// The members of the group as it stands, as they are written.
fn standing_members<'a>(lines: &'a Named, name: &str) -> &'a [u8]
    ensures { result.now ≡ spec.standing_members lines.now name.now }
{
    match lines.line_at(name.as_bytes()) {
        Some(line) => field(line.text(), 3),
        None => &[],
    }
}

/// Makes the user the last member of each of these groups that has a line, where it isn't a member.
pub fn join_groups(
    alloc: Global,
    lines: &mut Numbered,
    user: &str,
    groups: Values<'_>,
) -> Result<(), AllocError>
    ensures { OnOk result (lines.new ≡ spec.in_groups user.now groups.entry lines.old) }
{
    let mut left = groups;
    while let Some((group, rest)) = left.split_first() {
        join_group(alloc, lines, user, group)?;
        left = rest;
    }
    Ok(())
}

// Makes the user a member of the group.
fn join_group(
    alloc: Global,
    lines: &mut Numbered,
    user: &str,
    group: &str,
) -> Result<(), AllocError>
    ensures { OnOk result (lines.new ≡ writing_spec.at_first (books_spec.is_of group.now) (spec.joined_by user.now) lines.old) }
{
    match lines.named().place_of(group.as_bytes()) {
        Some(place) => join_at(alloc, lines, user, place),
        None => Ok(()),
    }
}

// Makes the user a member of the group whose line stands at the place.
fn join_at(alloc: Global, lines: &mut Numbered, user: &str, place: usize) -> Result<(), AllocError>
    requires { place < length lines.old }
    ensures { OnOk result ((line : lines_spec.AccountLine) → line ≡ slice_index_or lines.old place line → lines.new ≡ slice_set lines.old place (spec.joined_by user.now line)) }
{
    match joined_line(alloc, &lines.named().lines()[place], user)? {
        Some(line) => lines.replace(alloc, place, line),
        None => Ok(()),
    }
}

// The line of a group with the user as its last member, where it isn't one.
fn joined_line(alloc: Global, line: &Line, user: &str) -> Result<Option<Line>, AllocError>
    ensures { IfOk result (λ next. unwrap_or next line.now ≡ spec.joined_by user.now line.now) }
{
    let mut members = members_of(alloc, line.text())?;
    if is_member(&members, user.as_bytes()) {
        return Ok(None);
    }
    members.push(user.as_bytes())?;
    Ok(Some(with_members(alloc, line, &members)?))
}

// Whether the user is one of the members.
fn is_member(members: &[&[u8]], user: &[u8]) -> bool
    ensures { result ≡ list_any (λ member. is_same member user.now) (map (λ member. member.now) members.now) }
{
    members.iter().any(|member| *member == user)
}
