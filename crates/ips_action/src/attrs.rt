//! Attributes: keys with their values.

ghost use Rattle.std.specs.Prelude.{◌≡◌, ◌≤◌, ◌++◌, ◌∷◌, [], IfOk, OnOk, IfSome, IfNone, Some, MatchOption, length, slice_get, string_bytes};
ghost use Rattle.std.specs.List.{slice_range};
ghost use Rattle.std.specs.Str.{IsUtf8};
ghost use Rattle.std.specs.Ordering.{nat_cmp};
ghost use Rattle.std.specs.Cmp.Lexicographic.{slice_cmp};
ghost use Rattle.ips_action.specs.Attrs.{AreAttrs, Gathers, values_of};
ghost use Rattle.ips_action.specs.Gathering.{Ascend, grouped};
ghost use Rattle.ips_action.specs.Held.{IsHeld, attrs_at, slot_behind};

use crate::key::Key;
use crate::values::{Slot, Values, run_of};
use ips_line::Pair;
use ips_text::Text;
use std::alloc::{AllocError, Global};
use std::cmp::Ordering;
use std::marker::Model;

/// The attributes of an action by the bytes of their keys: each key once, with at least one value. Contracts see them as a
/// list. The values of all stand in one text, of less than 4 GiB.
#[derive(Drop)]
pub struct Attrs {
    slots: Vec<Slot>,
    text: Text,
}

impl Model for Attrs {
    ghost use Rattle.std.specs.Prelude.{List};
    ghost use Rattle.ips_action.specs.Attrs.{Attr};
    ghost use Rattle.ips_action.specs.Held.{attrs_at, IsHeld};

    ghost Value = { List Attr };

    ghost view = { λ a. attrs_at a.text a.slots.items };

    ghost invariant = { λ a. IsHeld a.text a.slots.items };
}

impl Attrs {
    /// The attributes that `key=value` give: the values of a key stand in the order of theirs. Values of 4 GiB together are
    /// refused as those that memory doesn't suffice for.
    pub fn gather(alloc: Global, pairs: Vec<Pair>) -> Result<Attrs, AllocError>
        ensures attrs { IfOk result (λ attrs. AreAttrs attrs) }
        ensures gathers { IfOk result (λ attrs. Gathers pairs.items attrs) }
    {
        let mut sorted = pairs;
        sorted.sort_by(|a, b| a.key.cmp(&b.key))?;
        let attrs = held(alloc, sorted)?;
        Ok(attrs)
    }

    /// The attributes, by the bytes of their keys.
    pub fn list(&self) -> AttrList<'_>
        ensures value { result ≡ self.now }
        ensures attrs { AreAttrs self.now }
    {
        AttrList {
            slots: &self.slots,
            text: self.text.as_str(),
        }
    }

    /// The values of the key; none where it doesn't stand.
    pub fn values(&self, name: &str) -> Values<'_>
        ensures { result ≡ values_of name.now self.now }
    {
        of_key(self.text.as_str(), &self.slots, name)
    }

    /// The first value of the key, or None where it doesn't stand.
    pub fn get(&self, name: &str) -> Option<&str>
        ensures some { IfSome result (λ value. slice_get (values_of name.now self.now) 0 ≡ Some value.now) }
        ensures none { IfNone result (values_of name.now self.now ≡ []) }
    {
        self.nth(name, 0)
    }

    /// How many values the key has.
    pub fn count(&self, name: &str) -> usize
        ensures { result ≡ length (values_of name.now self.now) }
    {
        self.values(name).len()
    }

    /// The value of the key at a place, counted from 0, or None where it doesn't have so many.
    pub fn nth(&self, name: &str, i: usize) -> Option<&str>
        ensures some { IfSome result (λ value. slice_get (values_of name.now self.now) i ≡ Some value.now) }
        ensures none { IfNone result (length (values_of name.now self.now) ≤ i) }
    {
        self.values(name).get(i)
    }

    /// The same attributes.
    pub fn copy(&self, alloc: Global) -> Result<Attrs, AllocError>
        ensures { IfOk result (λ attrs. attrs ≡ self.now) }
    {
        let slots = copy_slots(alloc, &self.slots)?;
        let text = self.text.copy(alloc)?;
        Ok(Attrs { slots, text })
    }
}

// The values of the key among those at these places of the text.
fn of_key<'a>(text: &'a str, slots: &'a [Slot], name: &str) -> Values<'a>
    requires { IsHeld text.now slots.now }
    ensures { result ≡ values_of name.now (attrs_at text.now slots.now) }
{
    let first = slots.partition_point(|slot| to_name(slot, name).is_lt());
    let behind = slots.partition_point(|slot| !to_name(slot, name).is_gt());
    Values::new(part(slots, first, behind), text)
}

// How the key of a place stands to a name.
fn to_name(slot: &Slot, name: &str) -> Ordering
    ensures { result ≡ slice_cmp nat_cmp slot.now.key name.now }
{
    slot.key.as_str().as_bytes().cmp(name.as_bytes())
}

fn part(slots: &[Slot], first: usize, behind: usize) -> &[Slot]
    requires order { first ≤ behind }
    requires bound { behind ≤ length slots.now }
    ensures { result.now ≡ slice_range slots.now first behind }
{
    &slots[first..behind]
}

fn copy_slots(alloc: Global, slots: &[Slot]) -> Result<Vec<Slot>, AllocError>
    ensures { IfOk result (λ copies. copies.items ≡ slots.now) }
{
    let mut copies = Vec::with_capacity(alloc, slots.len())?;
    for slot in slots {
        copies.push(slot.copy(alloc)?)?;
    }
    Ok(copies)
}

// The attributes of `key=value` that stand by their keys.
#[tactic(auto, using(crate::proofs::Places::filled_push))]
fn held(alloc: Global, pairs: Vec<Pair>) -> Result<Attrs, AllocError>
    requires { Ascend pairs.items }
    ensures { IfOk result (λ attrs. attrs ≡ grouped pairs.items) }
{
    let mut slots = Vec::with_capacity(alloc, pairs.len())?;
    let mut text = String::new(alloc);
    for pair in pairs {
        add(alloc, &mut slots, &mut text, pair)?;
    }
    text.shrink_to_fit();
    Ok(Attrs {
        slots,
        text: Text::from_string(text),
    })
}

// Adds a value behind all others.
fn add(
    alloc: Global,
    slots: &mut Vec<Slot>,
    text: &mut String,
    pair: Pair,
) -> Result<(), AllocError>
    ensures text { OnOk result (string_bytes text.new ≡ string_bytes text.old ++ pair.value) }
    ensures slots { OnOk result (slots.new.items ≡ slots.old.items ++ slot_behind (string_bytes text.old) pair ∷ []) }
    ensures utf8 { OnOk result (IsUtf8 pair.value) }
{
    let Pair { key, value } = pair;
    let start = place(text.len())?;
    text.push_str(value.as_str())?;
    let end = place(text.len())?;
    let key = Key::new(alloc, key)?;
    slots.push(Slot { key, start, end })?;
    Ok(())
}

// A place in the text of all values.
fn place(len: usize) -> Result<u32, AllocError>
    ensures { IfOk result (λ place. place ≡ len) }
{
    match u32::try_from(len) {
        Ok(place) => Ok(place),
        Err(_) => Err(AllocError),
    }
}

/// Attributes that stand by the bytes of their keys, lent. Contracts see them as a list.
#[derive(Drop)]
pub struct AttrList<'a> {
    slots: &'a [Slot],
    text: &'a str,
}

impl<'a> Model for AttrList<'a> {
    ghost use Rattle.std.specs.Prelude.{List};
    ghost use Rattle.ips_action.specs.Attrs.{Attr};
    ghost use Rattle.ips_action.specs.Held.{attrs_at, IsHeld};

    ghost Value = { List Attr };

    ghost view = { λ l. attrs_at l.text.now l.slots.now };

    ghost invariant = { λ l. IsHeld l.text.now l.slots.now };
}

impl<'a> AttrList<'a> {
    /// The first attribute, and those behind it; None where there is none.
    pub fn split_first(&self) -> Option<(Attr<'a>, AttrList<'a>)>
        ensures { MatchOption result (self.now ≡ []) (λ x. self.now ≡ x.0 ∷ x.1) }
    {
        let first = self.slots.first()?;
        let (of_key, behind) = self.slots.split_at(run_of(first.key.as_str(), self.slots));
        let attr = Attr {
            key: &first.key,
            slots: of_key,
            text: self.text,
        };
        let rest = AttrList {
            slots: behind,
            text: self.text,
        };
        Some((attr, rest))
    }
}

/// An attribute of an action, lent: a key and its values.
#[derive(Drop)]
pub struct Attr<'a> {
    key: &'a Key,
    slots: &'a [Slot],
    text: &'a str,
}

impl<'a> Model for Attr<'a> {
    ghost use Rattle.std.specs.List.{AllByRecursion};
    ghost use Rattle.ips_action.specs.Attrs as spec;
    ghost use Rattle.ips_action.specs.Held.{values_at, IsPlaced};

    ghost Value = { spec.Attr };

    ghost view = { λ a. record { key = a.key.now; values = values_at a.text.now a.slots.now } };

    ghost invariant = { λ a. AllByRecursion (IsPlaced a.text.now) a.slots.now };
}

impl<'a> Attr<'a> {
    /// The key.
    pub fn key(&self) -> &'a str
        ensures { result.now ≡ self.now.key }
    {
        self.key.as_str()
    }

    /// Its values, in the order in which they were given.
    pub fn values(&self) -> Values<'a>
        ensures { result ≡ self.now.values }
    {
        Values::new(self.slots, self.text)
    }
}
