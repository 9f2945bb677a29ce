//! What rules work on.

ghost use Rattle.std.specs.Prelude.{◌≡◌, ◌++◌, IfOk, OnOk, map};
ghost use Rattle.ips_action.specs.Action as action;
ghost use Rattle.ips_transform.specs.Transformed.{parts_of};

use ips_action::{ActionKind, Attr};
use ips_digest::PayloadName;
use ips_line::Pair;
use ips_manifest::{Line, Manifest};
use ips_text::Text;
use std::alloc::{AllocError, Global};
use std::marker::Model;

/// The parts of an action, which needn't be one of the table: its kind, its payload, and its `key=value`, of which those of one
/// key stand in the order of its values.
#[derive(Drop)]
pub struct Parts {
    /// The number of the line that it comes from.
    pub number: u64,
    /// What it is about.
    pub kind: ActionKind,
    /// The name of its payload, where it has one.
    pub payload: Option<PayloadName>,
    /// Its `key=value`.
    pub pairs: Vec<Pair>,
}

impl Model for Parts {
    ghost use Rattle.ips_transform.specs.Transformed as spec;

    ghost Value = { spec.ActionParts };

    ghost view = { λ p. record { number = p.number; kind = p.kind; payload = p.payload; pairs = p.pairs.items } };
}

/// The parts of each action.
pub fn parts_of_manifest(alloc: Global, manifest: &Manifest) -> Result<Vec<Parts>, AllocError>
    ensures { IfOk result (λ parts. parts.items ≡ map parts_of manifest.now.lines.items) }
{
    let mut parts = Vec::with_capacity(alloc, manifest.lines.len())?;
    for line in &manifest.lines {
        parts.push(parts_of_line(alloc, line)?)?;
    }
    Ok(parts)
}

fn parts_of_line(alloc: Global, line: &Line) -> Result<Parts, AllocError>
    ensures { IfOk result (λ parts. parts ≡ parts_of line.now) }
{
    let mut pairs = Vec::new(alloc);
    let mut left = line.action.attrs.list();
    while let Some((attr, rest)) = left.split_first() {
        add_pairs(alloc, &mut pairs, &attr)?;
        left = rest;
    }
    Ok(Parts {
        number: line.number,
        kind: line.action.kind,
        payload: line.action.payload,
        pairs,
    })
}

// Adds a `key=value` for each value.
fn add_pairs(alloc: Global, pairs: &mut Vec<Pair>, attr: &Attr<'_>) -> Result<(), AllocError>
    ensures { OnOk result (pairs.new.items ≡ pairs.old.items ++ action.pairs_of_one attr.now) }
{
    let mut left = attr.values();
    while let Some((value, rest)) = left.split_first() {
        pairs.push(pair(alloc, attr.key(), value)?)?;
        left = rest;
    }
    Ok(())
}

/// A `key=value`.
pub fn pair(alloc: Global, key: &str, value: &str) -> Result<Pair, AllocError>
    ensures { IfOk result (λ pair. pair ≡ record { key = key.now; value = value.now }) }
{
    Ok(Pair {
        key: Text::new(alloc, key)?,
        value: Text::new(alloc, value)?,
    })
}
