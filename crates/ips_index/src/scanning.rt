//! The rows of actions.

ghost use Rattle.std.specs.Prelude.{◌≡◌, ◌++◌, ◌∷◌, [], ◌&&◌, false, codes, drop, IfOk, OnOk};
ghost use Rattle.std.specs.Option.{option_to_list};
ghost use Rattle.std.specs.Str.{IsCharBoundary};
ghost use Rattle.ips_action.specs.Attrs.{values_of, is_same};
ghost use Rattle.ips_action.specs.Action.{payload_word};
ghost use Rattle.ips_index.specs.Rows as rows;
ghost use Rattle.ips_index.specs.Rows.{rows_at, rows_in, rows_of, scanned};
ghost use Rattle.ips_index.specs.Entries as spec;
ghost use Rattle.ips_fmri.specs.Name.{IsStem};
ghost use Rattle.ips_index.specs.Text.{HasIndex, IsRow};
ghost use Rattle.ips_index.specs.Entries.{AreFit};

use crate::entry::{Entry, Field, index_name, key_name, last_part};
use ips_action::{Action, ActionKind};
use std::alloc::{AllocError, Global};

/// The rows of a stem's actions.
pub(crate) fn scan(alloc: Global, stem: &str, actions: &[Action]) -> Result<Vec<Entry>, AllocError>
    requires stem { IsStem false stem.now }
    ensures rows { IfOk result (λ entries. entries.items ≡ scanned stem.now actions.now) }
    ensures fit { IfOk result (λ entries. AreFit entries.items) }
{
    let mut entries = Vec::new(alloc);
    for action in actions {
        push_action(alloc, &mut entries, stem, action)?;
    }
    Ok(entries)
}

fn push_action(
    alloc: Global,
    entries: &mut Vec<Entry>,
    stem: &str,
    action: &Action,
) -> Result<(), AllocError>
    requires stem { IsStem false stem.now }
    ensures rows { OnOk result (entries.new.items ≡ entries.old.items ++ rows_of stem.now action.now) }
    ensures fit { AreFit entries.old.items → OnOk result (AreFit entries.new.items) }
{
    if let Some(key) = key_name(action.kind) {
        push_values(alloc, entries, stem, action, key, Field::Key)?;
    }
    if let ActionKind::Set = action.kind {
        push_values(alloc, entries, stem, action, "value", Field::Value)?;
    }
    push_payload(alloc, entries, stem, action)
}

// The rows of all values of an attribute.
fn push_values(
    alloc: Global,
    entries: &mut Vec<Entry>,
    stem: &str,
    action: &Action,
    key: &str,
    field: Field,
) -> Result<(), AllocError>
    requires stem { IsStem false stem.now }
    requires index { HasIndex action.now.kind (spec.index_name action.now.kind field) }
    ensures rows { OnOk result (entries.new.items ≡ entries.old.items ++ rows_in stem.now action.now.kind (spec.index_name action.now.kind field) (values_of key.now action.now.attrs)) }
    ensures fit { AreFit entries.old.items → OnOk result (AreFit entries.new.items) }
{
    for i in 0..action.count(key) {
        if let Some(value) = action.nth(key, i) {
            push_value(alloc, entries, stem, action.kind, field, value)?;
        }
    }
    Ok(())
}

// The rows of the payload, where there is one.
fn push_payload(
    alloc: Global,
    entries: &mut Vec<Entry>,
    stem: &str,
    action: &Action,
) -> Result<(), AllocError>
    requires stem { IsStem false stem.now }
    ensures rows { OnOk result (entries.new.items ≡ entries.old.items ++ rows_in stem.now action.now.kind (codes "payload") (option_to_list (payload_word action.now.payload))) }
    ensures fit { AreFit entries.old.items → OnOk result (AreFit entries.new.items) }
{
    let Some(name) = &action.payload else {
        return Ok(());
    };
    let mut digits = [0; 64];
    let count = name.print(&mut digits);
    match str::from_utf8(&digits[..count]) {
        Ok(text) => push_value(alloc, entries, stem, action.kind, Field::Payload, text),
        Err(_) => unreachable!(),
    }
}

// The rows of a value: a path with a `/` has one more.
fn push_value(
    alloc: Global,
    entries: &mut Vec<Entry>,
    stem: &str,
    kind: ActionKind,
    field: Field,
    value: &str,
) -> Result<(), AllocError>
    requires stem { IsStem false stem.now }
    requires index { HasIndex kind (spec.index_name kind field) }
    ensures rows { OnOk result (entries.new.items ≡ entries.old.items ++ rows_at stem.now kind (spec.index_name kind field) value.now) }
    ensures fit { AreFit entries.old.items → OnOk result (AreFit entries.new.items) }
{
    push_row(alloc, entries, stem, kind, field, 0, value)?;
    if has_last(kind, field, value) {
        push_row(alloc, entries, stem, kind, field, last_part(value), value)?;
    }
    Ok(())
}

/// Whether the value is also found by its last part.
pub(crate) fn has_last(kind: ActionKind, field: Field, value: &str) -> bool
    ensures { result ≡ (is_same (spec.index_name kind field) (codes "path") && rows.has_slash value.now) }
{
    index_name(kind, field) == "path" && has_slash(value)
}

fn has_slash(value: &str) -> bool
    ensures { result ≡ rows.has_slash value.now }
{
    value.as_bytes().contains(&b'/')
}

// The row of a value that is found by what begins at this place of it.
fn push_row(
    alloc: Global,
    entries: &mut Vec<Entry>,
    stem: &str,
    kind: ActionKind,
    field: Field,
    token: usize,
    value: &str,
) -> Result<(), AllocError>
    requires { IsCharBoundary value.now token }
    ensures rows { OnOk result (entries.new.items ≡ entries.old.items ++ (spec.row_of kind field (drop token value.now) value.now stem.now ∷ [])) }
    ensures fit { IsRow (spec.row_of kind field (drop token value.now) value.now stem.now) → AreFit entries.old.items → OnOk result (AreFit entries.new.items) }
{
    let entry = Entry::new(alloc, kind, field, token, value, stem)?;
    entries.push(entry)?;
    Ok(())
}
