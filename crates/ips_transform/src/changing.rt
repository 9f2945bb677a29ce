//! What a rule does to the actions that it applies to.

ghost use Rattle.std.specs.Prelude.{◌≡◌, ◌++◌, IfOk, OnOk};
ghost use Rattle.std.specs.List.{flat_map};
ghost use Rattle.std.specs.Option.{option_to_list};
ghost use Rattle.ips_transform.specs.Transformed as spec;
ghost use Rattle.ips_transform.specs.Transformed.{IsPossible};
ghost use Rattle.ips_transform.specs.Marking.{changed_where, done_to, operation_of};

use crate::matching::{Marked, compiled};
use crate::parts::{Parts, pair};
use ips_line::Pair;
use ips_pattern::{Editor, Finder};
use ips_rule::Operation;
use std::alloc::{AllocError, Global};

/// An operation on the values of a key, with what searches for its pattern.
#[derive(Drop)]
pub struct Changer<'r> {
    pub key: &'r str,
    pub doing: Doing<'r>,
}

/// What is done to the values of a key.
#[derive(Drop)]
pub enum Doing<'r> {
    Drop,
    Add(&'r str),
    Default(&'r str),
    Set(&'r str),
    Delete(Finder<'r>),
    Edit(Editor<'r>),
}

/// The parts that are left where the operation is done to each that the rule applies to.
pub fn change(
    alloc: Global,
    operation: &Operation,
    lines: Vec<Marked>,
) -> Result<Vec<Parts>, AllocError>
    requires { IsPossible operation.now }
    ensures { IfOk result (λ left. left.items ≡ flat_map (changed_where operation.now) lines.items) }
{
    match operation {
        Operation::Drop => change_all(alloc, "", Doing::Drop, lines),
        Operation::Add { key, value } => {
            change_all(alloc, key.as_str(), Doing::Add(value.as_str()), lines)
        }
        Operation::Default { key, value } => {
            change_all(alloc, key.as_str(), Doing::Default(value.as_str()), lines)
        }
        Operation::Set { key, value } => {
            change_all(alloc, key.as_str(), Doing::Set(value.as_str()), lines)
        }
        Operation::Delete { key, pattern } => {
            let pattern = compiled(alloc, pattern)?;
            let finder = pattern.finder(alloc)?;
            change_all(alloc, key.as_str(), Doing::Delete(finder), lines)
        }
        Operation::Edit {
            key,
            pattern,
            template,
        } => {
            let pattern = compiled(alloc, pattern)?;
            let editor = pattern.editor(alloc, template.as_str())?;
            change_all(alloc, key.as_str(), Doing::Edit(editor), lines)
        }
    }
}

fn change_all<'r>(
    alloc: Global,
    key: &'r str,
    doing: Doing<'r>,
    lines: Vec<Marked>,
) -> Result<Vec<Parts>, AllocError>
    ensures { IfOk result (λ left. left.items ≡ flat_map (changed_where (done_to key.now doing.entry)) lines.items) }
{
    let mut changer = Changer { key, doing };
    let mut left = Vec::with_capacity(alloc, lines.len())?;
    for line in lines {
        let changed = changer.change(alloc, line)?;
        add(&mut left, changed)?;
    }
    Ok(left)
}

// Adds the parts, where there are some.
fn add(left: &mut Vec<Parts>, parts: Option<Parts>) -> Result<(), AllocError>
    ensures { OnOk result (left.new.items ≡ left.old.items ++ option_to_list parts) }
{
    if let Some(parts) = parts {
        left.push(parts)?;
    }
    Ok(())
}

impl Changer<'_> {
    // What is left of the parts: they stay where the rule doesn't apply.
    fn change(&mut self, alloc: Global, line: Marked) -> Result<Option<Parts>, AllocError>
        ensures left { IfOk result (λ left. option_to_list left ≡ changed_where (operation_of self.old) line) }
        ensures same { operation_of self.new ≡ operation_of self.old }
    {
        let Marked { applies, parts } = line;
        if !applies {
            return Ok(Some(parts));
        }
        let Parts {
            number,
            kind,
            payload,
            pairs,
        } = parts;
        let key = self.key;
        let pairs = match &mut self.doing {
            Doing::Drop => return Ok(None),
            Doing::Add(value) => added(alloc, key, *value, pairs)?,
            Doing::Default(value) => defaulted(alloc, key, *value, pairs)?,
            Doing::Set(value) => set(alloc, key, *value, pairs)?,
            Doing::Delete(finder) => deleted(alloc, key, finder, pairs)?,
            Doing::Edit(editor) => edited(alloc, key, editor, pairs)?,
        };
        Ok(Some(Parts {
            number,
            kind,
            payload,
            pairs,
        }))
    }
}

// The value stands behind those of the key.
fn added(alloc: Global, key: &str, value: &str, pairs: Vec<Pair>) -> Result<Vec<Pair>, AllocError>
    ensures { IfOk result (λ changed. changed.items ≡ spec.added key.now value.now pairs.items) }
{
    let mut pairs = pairs;
    pairs.push(pair(alloc, key, value)?)?;
    Ok(pairs)
}

// The value stands where the key has none.
fn defaulted(
    alloc: Global,
    key: &str,
    value: &str,
    pairs: Vec<Pair>,
) -> Result<Vec<Pair>, AllocError>
    ensures { IfOk result (λ changed. changed.items ≡ spec.defaulted key.now value.now pairs.items) }
{
    if has_key(key, &pairs) {
        return Ok(pairs);
    }
    added(alloc, key, value, pairs)
}

// Whether the key has a value.
fn has_key(key: &str, pairs: &[Pair]) -> bool
    ensures { result ≡ spec.has_key key.now pairs.now }
{
    pairs.iter().any(|pair| pair.key.as_str() == key)
}

// The value is the only one of the key.
fn set(alloc: Global, key: &str, value: &str, pairs: Vec<Pair>) -> Result<Vec<Pair>, AllocError>
    ensures { IfOk result (λ changed. changed.items ≡ spec.put key.now value.now pairs.items) }
{
    let others = without(alloc, key, pairs)?;
    added(alloc, key, value, others)
}

// The values of the other keys.
fn without(alloc: Global, key: &str, pairs: Vec<Pair>) -> Result<Vec<Pair>, AllocError>
    ensures { IfOk result (λ others. others.items ≡ spec.without key.now pairs.items) }
{
    let mut others = Vec::with_capacity(alloc, pairs.len())?;
    for pair in pairs {
        if pair.key.as_str() != key {
            others.push(pair)?;
        }
    }
    Ok(others)
}

// The matched values of the key are taken away.
fn deleted(
    alloc: Global,
    key: &str,
    finder: &mut Finder<'_>,
    pairs: Vec<Pair>,
) -> Result<Vec<Pair>, AllocError>
    ensures left { IfOk result (λ changed. changed.items ≡ spec.deleted key.now finder.old pairs.items) }
    ensures same { finder.new ≡ finder.old }
{
    let mut left = Vec::with_capacity(alloc, pairs.len())?;
    for pair in pairs {
        if !(pair.key.as_str() == key && finder.matches(pair.value.as_str())) {
            left.push(pair)?;
        }
    }
    Ok(left)
}

// The matches in the values of the key are replaced.
fn edited(
    alloc: Global,
    key: &str,
    editor: &mut Editor<'_>,
    pairs: Vec<Pair>,
) -> Result<Vec<Pair>, AllocError>
    ensures changed { IfOk result (λ changed. changed.items ≡ spec.edited key.now editor.old pairs.items) }
    ensures same { editor.new ≡ editor.old }
{
    let mut changed = Vec::with_capacity(alloc, pairs.len())?;
    for pair in pairs {
        changed.push(edited_one(alloc, key, editor, pair)?)?;
    }
    Ok(changed)
}

fn edited_one(
    alloc: Global,
    key: &str,
    editor: &mut Editor<'_>,
    pair: Pair,
) -> Result<Pair, AllocError>
    ensures changed { IfOk result (λ changed. changed ≡ spec.edited_one key.now editor.old pair) }
    ensures same { editor.new ≡ editor.old }
{
    if pair.key.as_str() != key {
        return Ok(pair);
    }
    let Pair { key, value } = pair;
    let value = editor.replaced(alloc, value.as_str())?;
    Ok(Pair { key, value })
}
