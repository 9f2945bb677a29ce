//! What the table finds in an action.

ghost use Rattle.std.specs.Prelude.{◌≡◌, ◌==◌, ◌≤◌, ◌∷◌, [], ℕ, List, IfOk, OnOk, IsErr, IsTrue, ◌↔◌, true, map, length};
ghost use Rattle.std.specs.List.{AllByRecursion, list_any};
ghost use Rattle.std.specs.Option.{option_map};
ghost use Rattle.ips_text.specs.Reading.{IfBad};
ghost use Rattle.ips_action.specs.Table.{AttributeRow as DefinedRow, row_seen};
ghost use Rattle.ips_action.specs.Attrs.{Attr as DefinedAttr};
ghost use Rattle.ips_action.specs.Check.{Meets};
ghost use Rattle.ips_action.specs.Judging as judging;
ghost use Rattle.ips_action.specs.Judging.{MeetsRow, KeepsRow, Finds, FindsFirst, facet_rows, rows_of};

use crate::attrs::Attrs;
use crate::check::{Check, meets};
use crate::fault::ActionFault;
use crate::kind::ActionKind;
use crate::table::{Row, Times, rows};
use crate::values::Values;
use ips_digest::PayloadName;
use ips_text::{Or, Text};
use std::alloc::{AllocError, Global};

impl Times {
    // How often an attribute has to stand at least.
    fn least(self) -> usize
        ensures { result ≡ judging.least self }
    {
        match self {
            Times::Once | Times::OnceOrMore => 1,
            Times::AtMostOnce | Times::AnyTimes => 0,
        }
    }

    // Whether an attribute may stand no more than once.
    fn is_single(self) -> bool
        ensures { result ≡ judging.is_single self }
    {
        match self {
            Times::Once | Times::AtMostOnce => true,
            Times::OnceOrMore | Times::AnyTimes => false,
        }
    }
}

/// Whether the kind of action has a payload.
pub fn takes_payload(kind: ActionKind) -> bool
    ensures { result ≡ judging.takes_payload kind }
{
    has_payload_row(rows(kind))
}

fn has_payload_row(rows: &[Row<'_>]) -> bool
    ensures { result ≡ list_any (λ (row : DefinedRow). judging.is_payload row.check) (map row_seen rows.now) }
{
    rows.iter().any(|row| row.check.is_payload())
}

/// Judges the payload word and the attributes of an action by the rows of its kind, and tells the first fault that they find.
pub fn judge(
    alloc: Global,
    kind: ActionKind,
    payload: Option<&str>,
    attrs: &Attrs,
) -> Result<(), Or<ActionFault>>
    ensures kept { OnOk result (AllByRecursion (KeepsRow (option_map (λ w. w.now) payload.entry) attrs.now) (rows_of kind attrs.now)) }
    ensures fault { IfBad result (λ fault. FindsFirst (option_map (λ w. w.now) payload.entry) attrs.now (rows_of kind attrs.now) fault) }
{
    judge_rows(alloc, payload, attrs, rows(kind))?;
    judge_facets(alloc, payload, attrs)?;
    Ok(())
}

// The first fault that the rows find.
fn judge_rows(
    alloc: Global,
    payload: Option<&str>,
    attrs: &Attrs,
    rows: &[Row<'_>],
) -> Result<(), Or<ActionFault>>
    ensures kept { OnOk result (AllByRecursion (KeepsRow (option_map (λ w. w.now) payload.entry) attrs.now) (map row_seen rows.now)) }
    ensures fault { IfBad result (λ fault. FindsFirst (option_map (λ w. w.now) payload.entry) attrs.now (map row_seen rows.now) fault) }
{
    for row in rows {
        judge_row(alloc, payload, attrs, row)?;
    }
    Ok(())
}

// The first fault that the rows of the facets' tags find.
fn judge_facets(alloc: Global, payload: Option<&str>, attrs: &Attrs) -> Result<(), Or<ActionFault>>
    ensures kept { OnOk result (AllByRecursion (KeepsRow (option_map (λ w. w.now) payload.entry) attrs.now) (facet_rows attrs.now)) }
    ensures fault { IfBad result (λ fault. FindsFirst (option_map (λ w. w.now) payload.entry) attrs.now (facet_rows attrs.now) fault) }
{
    let mut left = attrs.list();
    while let Some((attr, rest)) = left.split_first() {
        judge_tag(alloc, payload, attrs, attr.key())?;
        left = rest;
    }
    Ok(())
}

// The fault of the attribute of a key that is a facet's tag.
fn judge_tag(
    alloc: Global,
    payload: Option<&str>,
    attrs: &Attrs,
    key: &str,
) -> Result<(), Or<ActionFault>>
    ensures kept { OnOk result (AllByRecursion (KeepsRow (option_map (λ w. w.now) payload.entry) attrs.now) (facet_rows (record { key = key.now; values = [] } ∷ []))) }
    ensures fault { IfBad result (λ fault. FindsFirst (option_map (λ w. w.now) payload.entry) attrs.now (facet_rows (record { key = key.now; values = [] } ∷ [])) fault) }
{
    if !is_facet(key) {
        return Ok(());
    }
    let row = Row {
        name: key,
        times: Times::AnyTimes,
        check: Check::FacetTag,
    };
    judge_row(alloc, payload, attrs, &row)
}

fn is_facet(key: &str) -> bool
    ensures { result ≡ judging.is_facet key.now }
{
    key.as_bytes().starts_with(b"facet.")
}

// The fault that the row finds.
fn judge_row(
    alloc: Global,
    payload: Option<&str>,
    attrs: &Attrs,
    row: &Row<'_>,
) -> Result<(), Or<ActionFault>>
    ensures kept { OnOk result (KeepsRow (option_map (λ w. w.now) payload.entry) attrs.now (row_seen row.now)) }
    ensures fault { IfBad result (λ fault. Finds (judging.path_of attrs.now) (judging.standing (option_map (λ w. w.now) payload.entry) attrs.now (row_seen row.now)) (row_seen row.now) fault) }
{
    if row.check.is_payload() {
        judge_payload(alloc, payload, row)?;
    } else {
        judge_values(alloc, path_of(attrs), attrs.values(row.name), row)?;
    }
    Ok(())
}

// The path of an action, or nothing where it has none.
fn path_of(attrs: &Attrs) -> &str
    ensures { result.now ≡ judging.path_of attrs.now }
{
    attrs.get("path").unwrap_or("")
}

// The fault that a row finds in the payload word.
fn judge_payload(alloc: Global, payload: Option<&str>, row: &Row<'_>) -> Result<(), Or<ActionFault>>
    requires { judging.is_payload row.now.check ≡ true }
    ensures kept { OnOk result ((attrs : List DefinedAttr) → KeepsRow (option_map (λ w. w.now) payload.entry) attrs (row_seen row.now)) }
    ensures fault { IfBad result (λ fault. (attrs : List DefinedAttr) → Finds (judging.path_of attrs) (judging.standing (option_map (λ w. w.now) payload.entry) attrs (row_seen row.now)) (row_seen row.now) fault) }
{
    match payload {
        None if row.times.least() > 0 => missing(alloc, row.name),
        Some(word) if PayloadName::parse(word).is_none() => bad(alloc, row.name),
        _ => Ok(()),
    }
}

// The fault that a row finds in the values of its attribute.
fn judge_values(
    alloc: Global,
    path: &str,
    values: Values<'_>,
    row: &Row<'_>,
) -> Result<(), Or<ActionFault>>
    ensures kept { OnOk result (MeetsRow path.now values.entry (row_seen row.now)) }
    ensures fault { IfBad result (λ fault. Finds path.now values.entry (row_seen row.now) fault) }
{
    if values.len() < row.times.least() {
        return missing(alloc, row.name);
    }
    if row.times.is_single() && values.len() > 1 {
        return bad(alloc, row.name);
    }
    if !all_meet(alloc, row.check, path, values)? {
        return bad(alloc, row.name);
    }
    Ok(())
}

// Whether each value is what the check asks for, in an action at this path.
fn all_meet(alloc: Global, check: Check, path: &str, values: Values<'_>) -> Result<bool, AllocError>
    ensures { IfOk result (λ all. IsTrue all ↔ AllByRecursion (Meets check path.now) values.entry) }
{
    let mut left = values;
    while let Some((value, rest)) = left.split_first() {
        if !meets(alloc, check, path, value)? {
            return Ok(false);
        }
        left = rest;
    }
    Ok(true)
}

fn missing(alloc: Global, name: &str) -> Result<(), Or<ActionFault>>
    ensures fault { IfBad result (λ fault. fault ≡ ActionFault.MissingKey name.now) }
    ensures refused { IsErr result }
{
    let name = Text::new(alloc, name)?;
    Err(Or::Bad(ActionFault::MissingKey { name }))
}

fn bad(alloc: Global, name: &str) -> Result<(), Or<ActionFault>>
    ensures fault { IfBad result (λ fault. fault ≡ ActionFault.BadValue name.now) }
    ensures refused { IsErr result }
{
    let name = Text::new(alloc, name)?;
    Err(Or::Bad(ActionFault::BadValue { name }))
}
