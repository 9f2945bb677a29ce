//! Sets of texts: the lines of actions, their kinds and names, and services.

ghost use Rattle.std.specs.Prelude.{◌≡◌, ◌++◌, ◌↔◌, true, IfOk, OnOk, Contains, string_bytes};
ghost use Rattle.ips_action.specs.Action.{line_text};
ghost use Rattle.ips_actuate.specs.Actuators.{HasLine};
ghost use Rattle.ips_actuate.specs.Gathering as spec;
ghost use Rattle.ips_actuate.specs.Gathering.{IsSetOf, IsGrown, Lacks, HasKey};

use ips_action::{Action, Values, print_line};
use ips_text::Text;
use std::alloc::{AllocError, Global};
use std::collections::BTreeSet;

// The canonical lines of the actions.
pub(crate) fn lines(alloc: Global, actions: &[Action]) -> Result<BTreeSet<Text>, AllocError>
    ensures { IfOk result (λ lines. IsSetOf (HasLine actions.now) lines) }
{
    let mut lines = BTreeSet::new(alloc);
    for action in actions {
        add(&mut lines, print_line(alloc, action)?)?;
    }
    Ok(lines)
}

// The kinds and names of the actions.
pub(crate) fn keys(alloc: Global, actions: &[Action]) -> Result<BTreeSet<Text>, AllocError>
    ensures { IfOk result (λ keys. IsSetOf (HasKey actions.now) keys) }
{
    let mut keys = BTreeSet::new(alloc);
    for action in actions {
        add(&mut keys, key_text(alloc, action)?)?;
    }
    Ok(keys)
}

// The kind and the name of an action in one text.
fn key_text(alloc: Global, action: &Action) -> Result<Text, AllocError>
    ensures { IfOk result (λ text. text ≡ spec.key_text action.now) }
{
    let mut out = String::new(alloc);
    out.push_str(action.kind.name())?;
    if let Some(name) = action.key() {
        out.push_str(" ")?;
        out.push_str(name)?;
    }
    Ok(Text::from_string(out))
}

// Whether none of these lines is that of the action.
pub(crate) fn lacks_line(
    alloc: Global,
    lines: &BTreeSet<Text>,
    action: &Action,
) -> Result<bool, AllocError>
    ensures { IfOk result (λ lacks. (lacks ≡ true) ↔ Lacks lines.now (line_text action.now)) }
{
    let line = print_line(alloc, action)?;
    Ok(lacks(lines, &line))
}

// Whether none of these keys is that of the action.
pub(crate) fn lacks_key(
    alloc: Global,
    keys: &BTreeSet<Text>,
    action: &Action,
) -> Result<bool, AllocError>
    ensures { IfOk result (λ lacks. (lacks ≡ true) ↔ Lacks keys.now (spec.key_text action.now)) }
{
    let key = key_text(alloc, action)?;
    Ok(lacks(keys, &key))
}

// Whether the text isn't in the set.
fn lacks(set: &BTreeSet<Text>, text: &Text) -> bool
    ensures { (result ≡ true) ↔ Lacks set.now text.now }
{
    !set.contains(text)
}

// Adds those of the texts that aren't among others.
pub(crate) fn add_but(
    alloc: Global,
    set: &mut BTreeSet<Text>,
    texts: Values<'_>,
    others: &BTreeSet<Text>,
) -> Result<(), AllocError>
    ensures { OnOk result (IsGrown (λ text. Contains texts.entry text × Lacks others.now text) set.old set.new) }
{
    let mut left = texts;
    while let Some((text, rest)) = left.split_first() {
        add_unless(alloc, set, text, others)?;
        left = rest;
    }
    Ok(())
}

// Adds a text, unless it is among others.
fn add_unless(
    alloc: Global,
    set: &mut BTreeSet<Text>,
    text: &str,
    others: &BTreeSet<Text>,
) -> Result<(), AllocError>
    ensures { OnOk result (IsGrown (λ other. (text.now ≡ other) × Lacks others.now other) set.old set.new) }
{
    let text = Text::new(alloc, text)?;
    if lacks(others, &text) {
        return add(set, text);
    }
    Ok(())
}

fn add(set: &mut BTreeSet<Text>, text: Text) -> Result<(), AllocError>
    ensures { OnOk result (IsGrown (λ other. text ≡ other) set.old set.new) }
{
    set.insert(text)?;
    Ok(())
}
