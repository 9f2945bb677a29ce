//! Which new actions differ from every old one.

ghost use Rattle.std.specs.Prelude.{◌≡◌, ◌||◌, ◌++◌, ◌∷◌, [], List, ℕ, map, filter, IfOk, OnOk};
ghost use Rattle.std.specs.List.{list_any};
ghost use Rattle.ips_action.specs.Attrs.{is_same};
ghost use Rattle.ips_action.specs.Action.{line_text};
ghost use Rattle.ips_conflict.specs.Key as key_spec;
ghost use Rattle.ips_turnover.specs.Turnover as spec;
ghost use Rattle.ips_turnover.specs.Seen as seen;
ghost use Rattle.ips_turnover.specs.Seen.{is_in};

use crate::sets;
use crate::sets::has;
use crate::values::{is_a, value_of};
use ips_action::{Action, print_line};
use ips_text::Text;
use std::alloc::{AllocError, Global};
use std::cmp::Ordering;
use std::collections::BTreeSet;
use std::marker::Model;

// An action, and its canonical line. Contracts see the action.
#[derive(Drop)]
struct Prepared<'a> {
    line: Text,
    action: &'a Action,
}

impl<'a> Model for Prepared<'a> {
    ghost use Rattle.std.specs.Prelude.{◌≡◌};
    ghost use Rattle.ips_action.specs.Action.{Fields, line_text};

    ghost Value = { Fields };

    ghost view = { λ p. p.action.now };

    ghost invariant = { λ p. p.line ≡ line_text p.action.now };
}

/// The new actions of this kind whose line differs from every old one, by the bytes of their names, those of one name by their
/// lines.
pub fn fresh<'a>(
    alloc: Global,
    kind: &str,
    key: &str,
    old: &[Action],
    new: &'a [Action],
) -> Result<Vec<&'a Action>, AllocError>
    ensures { IfOk result (λ found. map (λ a. a.now) found.items ≡ spec.ordered (spec.name_cmp (key_spec.value_of key.now)) (filter (spec.is_fresh (filter (spec.is_a kind.now) old.now)) (filter (spec.is_a kind.now) new.now))) }
{
    let lines = lines(alloc, kind, old)?;
    let mut found = unlike(alloc, kind, &lines, new)?;
    order(key, &mut found)?;
    actions_of(alloc, &found)
}

// The canonical lines of the actions of this kind.
fn lines(alloc: Global, kind: &str, actions: &[Action]) -> Result<BTreeSet<Vec<u8>>, AllocError>
    ensures { IfOk result (λ lines. (line : List ℕ) → is_in lines line ≡ list_any (λ a. is_same line (line_text a)) (filter (spec.is_a kind.now) actions.now)) }
{
    let mut lines = BTreeSet::new(alloc);
    for action in actions {
        add_line(alloc, kind, &mut lines, action)?;
    }
    Ok(lines)
}

// Puts the canonical line of the action into the set, where it is of this kind.
fn add_line(
    alloc: Global,
    kind: &str,
    lines: &mut BTreeSet<Vec<u8>>,
    action: &Action,
) -> Result<(), AllocError>
    ensures { OnOk result ((line : List ℕ) → is_in lines.new line ≡ (list_any (λ a. is_same line (line_text a)) (filter (spec.is_a kind.now) (action.now ∷ [])) || is_in lines.old line)) }
{
    if !is_a(action, kind) {
        return Ok(());
    }
    let line = print_line(alloc, action)?;
    sets::insert(alloc, lines, line.as_str())
}

// The actions of this kind whose line is none of these.
fn unlike<'a>(
    alloc: Global,
    kind: &str,
    lines: &BTreeSet<Vec<u8>>,
    actions: &'a [Action],
) -> Result<Vec<Prepared<'a>>, AllocError>
    ensures { IfOk result (λ found. found.items ≡ filter (seen.is_unlike kind.now lines.now) actions.now) }
{
    let mut found = Vec::new(alloc);
    for action in actions {
        add_unlike(alloc, kind, lines, &mut found, action)?;
    }
    Ok(found)
}

// Adds the action to those found, where it is of this kind and its line none of these.
fn add_unlike<'a>(
    alloc: Global,
    kind: &str,
    lines: &BTreeSet<Vec<u8>>,
    found: &mut Vec<Prepared<'a>>,
    action: &'a Action,
) -> Result<(), AllocError>
    ensures { OnOk result (found.new.items ≡ found.old.items ++ filter (seen.is_unlike kind.now lines.now) (action.now ∷ [])) }
{
    if !is_a(action, kind) {
        return Ok(());
    }
    let line = print_line(alloc, action)?;
    if has(lines, line.as_str().as_bytes()) {
        return Ok(());
    }
    found.push(Prepared { line, action })?;
    Ok(())
}

// Puts the actions in order: by the bytes of their names, those of one name by their lines.
fn order(key: &str, actions: &mut Vec<Prepared>) -> Result<(), AllocError>
    ensures { OnOk result (actions.new.items ≡ spec.ordered (spec.name_cmp (key_spec.value_of key.now)) actions.old.items) }
{
    actions.sort_by(|one, other| compare(key, one, other))
}

// How two actions stand to one another.
fn compare(key: &str, one: &Prepared, other: &Prepared) -> Ordering
    ensures { result ≡ spec.name_cmp (key_spec.value_of key.now) one.now other.now }
{
    let by_name = value_of(one.action, key).cmp(value_of(other.action, key));
    by_name.then(one.line.cmp(&other.line))
}

// The actions by themselves.
fn actions_of<'a>(alloc: Global, prepared: &[Prepared<'a>]) -> Result<Vec<&'a Action>, AllocError>
    ensures { IfOk result (λ actions. map (λ a. a.now) actions.items ≡ prepared.now) }
{
    let mut actions = Vec::with_capacity(alloc, prepared.len())?;
    for one in prepared {
        actions.push(one.action)?;
    }
    Ok(actions)
}
