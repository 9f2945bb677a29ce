//! Names that go.

ghost use Rattle.std.specs.Prelude.{◌≡◌, ◌||◌, ◌∷◌, [], not, List, ℕ, map, filter, unwrap_or, IfOk, OnOk};
ghost use Rattle.std.specs.List.{list_any};
ghost use Rattle.ips_conflict.specs.Key as key_spec;
ghost use Rattle.ips_turnover.specs.Turnover as spec;
ghost use Rattle.ips_books.specs.Seen.{as_line, files_seen};
ghost use Rattle.ips_turnover.specs.Seen.{has_gone, is_in};

use crate::sets::{has, insert};
use crate::values::{is_a, value_of};
use ips_action::Action;
use ips_books::{Files, Line, field, is_kept, members_of, replace, with_members};
use std::alloc::{AllocError, Global};
use std::collections::BTreeSet;

/// The names that go: the old ones that aren't new.
#[derive(Drop)]
pub struct Gone {
    pub old: BTreeSet<Vec<u8>>,
    pub new: BTreeSet<Vec<u8>>,
}

/// Removes gone names from the files: their lines go, and gone users leave all member lists.
pub fn remove_gone(
    alloc: Global,
    files: &mut Files,
    old: &[Action],
    new: &[Action],
) -> Result<(), AllocError>
    ensures { OnOk result (files_seen files.new ≡ spec.after_gone old.now new.now (files_seen files.old)) }
{
    let users = gone_names(alloc, "user", "username", old, new)?;
    let groups = gone_names(alloc, "group", "groupname", old, new)?;
    remove_lines(&mut files.passwd, &users);
    remove_lines(&mut files.shadow, &users);
    remove_members(alloc, &mut files.group, &users)?;
    remove_lines(&mut files.group, &groups);
    Ok(())
}

// The names that go of actions of this kind, which this key names.
fn gone_names(
    alloc: Global,
    kind: &str,
    key: &str,
    old: &[Action],
    new: &[Action],
) -> Result<Gone, AllocError>
    ensures { IfOk result (λ gone. (name : List ℕ) → has_gone gone name ≡ spec.is_gone (key_spec.value_of key.now) (filter (spec.is_a kind.now) old.now) (filter (spec.is_a kind.now) new.now) name) }
{
    let old = names(alloc, kind, key, old)?;
    let new = names(alloc, kind, key, new)?;
    Ok(Gone { old, new })
}

// The names of the actions of this kind.
fn names(
    alloc: Global,
    kind: &str,
    key: &str,
    actions: &[Action],
) -> Result<BTreeSet<Vec<u8>>, AllocError>
    ensures { IfOk result (λ names. (name : List ℕ) → is_in names name ≡ spec.is_named_in (key_spec.value_of key.now) (filter (spec.is_a kind.now) actions.now) name) }
{
    let mut names = BTreeSet::new(alloc);
    for action in actions {
        add_name(alloc, kind, key, &mut names, action)?;
    }
    Ok(names)
}

// Puts the name of the action into the set, where it is of this kind.
fn add_name(
    alloc: Global,
    kind: &str,
    key: &str,
    names: &mut BTreeSet<Vec<u8>>,
    action: &Action,
) -> Result<(), AllocError>
    ensures { OnOk result ((name : List ℕ) → is_in names.new name ≡ (spec.is_named_in (key_spec.value_of key.now) (filter (spec.is_a kind.now) (action.now ∷ [])) name || is_in names.old name)) }
{
    if !is_a(action, kind) {
        return Ok(());
    }
    insert(alloc, names, value_of(action, key))
}

// Whether the name goes.
fn is_gone(gone: &Gone, name: &[u8]) -> bool
    ensures { result ≡ has_gone gone.now name.now }
{
    has(&gone.old, name) && !has(&gone.new, name)
}

// Removes the lines of gone names.
fn remove_lines(lines: &mut Vec<Line>, gone: &Gone)
    ensures { lines.new.items ≡ spec.without (has_gone gone.now) lines.old.items }
{
    lines.retain(|line| stays(gone, line.text()));
}

// Whether the line is kept, or its name stays.
fn stays(gone: &Gone, line: &[u8]) -> bool
    ensures { result ≡ spec.stays (has_gone gone.now) (as_line line.now) }
{
    is_kept(line) || !is_gone(gone, field(line, 0))
}

// Removes gone names from all member lists.
fn remove_members(alloc: Global, lines: &mut [Line], gone: &Gone) -> Result<(), AllocError>
    ensures { OnOk result (lines.new ≡ map (spec.left_by (has_gone gone.now)) lines.old) }
{
    for i in 0..lines.len() {
        let next = left_line(alloc, &lines[i], gone)?;
        replace(lines, i, next);
    }
    Ok(())
}

// The line of a group without gone members, where it has some.
fn left_line(alloc: Global, line: &Line, gone: &Gone) -> Result<Option<Line>, AllocError>
    ensures { IfOk result (λ next. unwrap_or next line.now ≡ spec.left_by (has_gone gone.now) line.now) }
{
    if is_kept(line.text()) {
        return Ok(None);
    }
    let mut members = members_of(alloc, line.text())?;
    if !has_gone_member(&members, gone) {
        return Ok(None);
    }
    remove_gone_members(&mut members, gone);
    Ok(Some(with_members(alloc, line, &members)?))
}

// Whether one of the names is gone.
fn has_gone_member(members: &[&[u8]], gone: &Gone) -> bool
    ensures { result ≡ list_any (has_gone gone.now) (map (λ member. member.now) members.now) }
{
    members.iter().any(|member| is_gone(gone, member))
}

// Removes the names that are gone.
fn remove_gone_members(members: &mut Vec<&[u8]>, gone: &Gone)
    ensures { map (λ member. member.now) members.new.items ≡ filter (λ member. not (has_gone gone.now member)) (map (λ member. member.now) members.old.items) }
{
    members.retain(|member| !is_gone(gone, member));
}
