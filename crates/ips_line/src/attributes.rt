//! The `key=value` of a line.

ghost use Rattle.std.specs.Prelude.{◌≡◌, IfOk};
ghost use Rattle.ips_text.specs.Reading.{Gives, Sees};
ghost use Rattle.ips_line.specs.Line.{pair_of};
ghost use Rattle.ips_line.specs.Reading.{attribute_at, attributes_at, equals_at, said_pairs};
ghost use Rattle.ips_line.specs.Seen.{seen_attribute, HasQuote};

use crate::classes::{Class, begins_with, run, some, wrong};
use crate::fault::Part;
use crate::values::{Written, read_value, value};
use crate::words::Pair;
use ips_text::{Or, Stop, Text};
use std::alloc::{AllocError, Global};

/// A `key=value` as it is written.
#[derive(Clone, Copy, Drop)]
struct Attribute<'a> {
    gap: &'a str,
    key: &'a str,
    value: Written<'a>,
}

/// Each `key=value`, up to the blanks at the end of the text.
pub fn pairs(alloc: Global, text: &str) -> Result<Vec<Pair>, Or<Stop<Part>>>
    ensures { Gives (λ v. v.items) result (said_pairs (attributes_at text.now)) }
{
    let mut pairs = Vec::new(alloc);
    let mut rest = text;
    while !run(Class::Blank, rest).1.is_empty() {
        let (attribute, after) = front(next_attribute(rest))?;
        pairs.push(pair(alloc, attribute)?)?;
        rest = after;
    }
    Ok(pairs)
}

// The next `key=value`, and what stands behind it.
#[tactic(auto, unfolding(crate::specs::Reading::attribute_at))]
fn next_attribute(text: &str) -> Result<(Attribute<'_>, &str), Stop<Part>>
    ensures exact { Sees (λ x. (seen_attribute x.0, x.1.now)) result (attribute_at text.now) }
    ensures quotes { IfOk result (λ x. HasQuote (seen_attribute x.0).value) }
{
    let (gap, rest) = some(Class::Blank, text)?;
    let (key, rest) = some(Class::Key, rest)?;
    let rest = equals(rest)?;
    let (value, rest) = read_value(rest)?;
    Ok((Attribute { gap, key, value }, rest))
}

// What stands behind an `=`, which has to stand here.
fn equals(text: &str) -> Result<&str, Stop<Part>>
    ensures { Sees (λ x. (tt, x.now)) result (equals_at text.now) }
{
    if begins_with(b'=', text) {
        Ok(&text[1..])
    } else {
        Err(wrong(text))
    }
}

// An attribute that was read without memory.
fn front<'a>(
    read: Result<(Attribute<'a>, &'a str), Stop<Part>>,
) -> Result<(Attribute<'a>, &'a str), Or<Stop<Part>>>
    ensures { Gives (λ x. x) result read.entry }
{
    read.map_err(Or::Bad)
}

// What an attribute says.
fn pair(alloc: Global, attribute: Attribute<'_>) -> Result<Pair, AllocError>
    requires { HasQuote (seen_attribute attribute).value }
    ensures { IfOk result (λ p. p ≡ pair_of (seen_attribute attribute.entry)) }
{
    Ok(Pair {
        key: Text::new(alloc, attribute.key)?,
        value: value(alloc, attribute.value)?,
    })
}
