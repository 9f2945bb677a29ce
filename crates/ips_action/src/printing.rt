//! The canonical spelling of actions.

ghost use Rattle.std.specs.Prelude.{◌≡◌, ◌++◌, IfOk, OnOk, string_bytes, List, ℕ};
ghost use Rattle.std.specs.List.{flat_map};
ghost use Rattle.ips_line.specs.Canonical.{payload_text};
ghost use Rattle.ips_action.specs.Action.{line_text, attr_text, payload_word, IfName, Fields, IsAction};
ghost use Rattle.ips_action.specs.Meaning.{Means};

use crate::action::Action;
use crate::attrs::{Attr, AttrList, Attrs};
use crate::kind::ActionKind;
use ips_digest::PayloadName;
use ips_line::{push_pair, push_payload};
use ips_text::Text;
use std::alloc::{AllocError, Global};

/// The canonical line of an action: its name, its payload's name, and its attributes by the bytes of their keys, those of a list
/// in their order, divided by one blank. A value stands in `"` where it is empty or has a blank, tab, quote or backslash;
/// inside, `"` and backslash get a backslash.
pub fn print_line(alloc: Global, action: &Action) -> Result<Text, AllocError>
    ensures { IfOk result (λ text. text ≡ line_text action.now) }
{
    print_parts(alloc, action.kind, &action.payload, &action.attrs)
}

/// The same spelling of any kind, payload's name and attributes, which needn't be an action of the table.
pub fn print_parts(
    alloc: Global,
    kind: ActionKind,
    payload: &Option<PayloadName>,
    attrs: &Attrs,
) -> Result<Text, AllocError>
    requires { IfName payload.now }
    ensures { IfOk result (λ text. text ≡ line_text (record { kind = kind; payload = payload.now; attrs = attrs.now })) }
{
    let mut out = String::new(alloc);
    out.push_str(kind.name())?;
    push_name(&mut out, payload)?;
    push_attrs(&mut out, attrs.list())?;
    Ok(Text::from_string(out))
}

// Writes a blank and the payload's name, where there is one.
fn push_name(out: &mut String, payload: &Option<PayloadName>) -> Result<(), AllocError>
    requires { IfName payload.now }
    ensures { OnOk result (string_bytes out.new ≡ string_bytes out.old ++ payload_text (payload_word payload.now)) }
{
    let Some(name) = payload else {
        return push_payload(out, None);
    };
    let mut digits = [0; 64];
    let count = name.print(&mut digits);
    match str::from_utf8(&digits[..count]) {
        Ok(word) => push_payload(out, Some(word)),
        Err(_) => unreachable!(),
    }
}

// Writes each attribute.
fn push_attrs(out: &mut String, attrs: AttrList<'_>) -> Result<(), AllocError>
    ensures { OnOk result (string_bytes out.new ≡ string_bytes out.old ++ flat_map attr_text attrs.entry) }
{
    let mut left = attrs;
    while let Some((attr, rest)) = left.split_first() {
        push_values(out, &attr)?;
        left = rest;
    }
    Ok(())
}

// Writes a `key=value` for each value.
fn push_values(out: &mut String, attr: &Attr<'_>) -> Result<(), AllocError>
    ensures { OnOk result (string_bytes out.new ≡ string_bytes out.old ++ attr_text attr.now) }
{
    let mut left = attr.values();
    while let Some((value, rest)) = left.split_first() {
        push_pair(out, attr.key(), value)?;
        left = rest;
    }
    Ok(())
}

/// The law of actions' lines: no two actions have one canonical line, which means the action, and no line means two.
pub fn actions_read_back()
    ensures one { (a b : Fields) → IsAction a → IsAction b → line_text a ≡ line_text b → a ≡ b }
    ensures back { (a : Fields) → IsAction a → Means (line_text a) a }
    ensures alone { (text : List ℕ) (a b : Fields) → Means text a → Means text b → a ≡ b }
{}
