//! The values of an attribute, which stand in one text with those of all others.

ghost use Rattle.std.specs.Prelude.{◌≡◌, ◌≤◌, ◌∷◌, [], IfOk, IfSome, IfNone, Some, MatchOption, length, slice_get, take, drop};
ghost use Rattle.std.specs.List.{AllByRecursion};
ghost use Rattle.ips_action.specs.Held.{IsPlaced, value_at, values_at, OfKey, BeginsOther};

use crate::key::Key;
use std::alloc::{AllocError, Global};
use std::marker::Model;

/// A value: its key, and its place in the text of all values.
#[derive(Drop)]
pub struct Slot {
    /// The key that it is of.
    pub key: Key,
    /// Where it begins in the text, in bytes.
    pub start: u32,
    /// Where it ends.
    pub end: u32,
}

impl Slot {
    /// The same place of the same key.
    pub fn copy(&self, alloc: Global) -> Result<Slot, AllocError>
        ensures { IfOk result (λ slot. slot ≡ self.now) }
    {
        Ok(Slot {
            key: self.key.copy(alloc)?,
            start: self.start,
            end: self.end,
        })
    }
}

/// The values of an attribute, lent, in the order in which they were given. Contracts see them as a list of texts.
#[derive(Drop)]
pub struct Values<'a> {
    slots: &'a [Slot],
    text: &'a str,
}

impl<'a> Model for Values<'a> {
    ghost use Rattle.std.specs.Prelude.{List, ℕ};
    ghost use Rattle.std.specs.List.{AllByRecursion};
    ghost use Rattle.ips_action.specs.Held.{values_at, IsPlaced};

    ghost Value = { List (List ℕ) };

    ghost view = { λ v. values_at v.text.now v.slots.now };

    ghost invariant = { λ v. AllByRecursion (IsPlaced v.text.now) v.slots.now };
}

impl<'a> Values<'a> {
    /// The values at these places of a text.
    pub(crate) fn new(slots: &'a [Slot], text: &'a str) -> Values<'a>
        requires { AllByRecursion (IsPlaced text.now) slots.now }
        ensures { result ≡ values_at text.now slots.now }
    {
        Values { slots, text }
    }

    /// How many there are.
    pub fn len(&self) -> usize
        ensures { result ≡ length self.now }
    {
        self.slots.len()
    }

    /// The value at a place, counted from 0, or None where there aren't so many.
    pub fn get(&self, i: usize) -> Option<&'a str>
        ensures some { IfSome result (λ value. slice_get self.now i ≡ Some value.now) }
        ensures none { IfNone result (length self.now ≤ i) }
    {
        match self.slots.get(i) {
            Some(slot) => Some(value(self.text, slot)),
            None => None,
        }
    }

    /// The first value, and those behind it; None where there is none.
    pub fn split_first(&self) -> Option<(&'a str, Values<'a>)>
        ensures { MatchOption result (self.now ≡ []) (λ x. self.now ≡ x.0.now ∷ x.1) }
    {
        let (first, behind) = self.slots.split_first()?;
        let rest = Values {
            slots: behind,
            text: self.text,
        };
        Some((value(self.text, first), rest))
    }
}

// The value at a place of the text.
fn value<'a>(text: &'a str, slot: &Slot) -> &'a str
    requires { IsPlaced text.now slot.now }
    ensures { result.now ≡ value_at text.now slot.now }
{
    &text[slot.start as usize..slot.end as usize]
}

/// How many places at the front are of this key.
pub(crate) fn run_of(key: &str, slots: &[Slot]) -> usize
    ensures bound { result ≤ length slots.now }
    ensures same { AllByRecursion (OfKey key.now) (take result slots.now) }
    ensures other { BeginsOther key.now (drop result slots.now) }
{
    let mut count = 0;
    for slot in slots {
        if slot.key.as_str() != key {
            return count;
        }
        count += 1;
    }
    count
}
