//! What leads to a line by its name.
//!
//! A name leads to a place that is at most that of its first line. Where another line stands there by now, all lines are looked at.

ghost use Rattle.std.specs.Prelude.{◌≡◌, ℕ, List, true, false, slice_get, IfOk, OnOk};
ghost use Rattle.std.specs.List.{position};
ghost use Rattle.std.specs.Option.{option_map_or};
ghost use Rattle.ips_books.specs.Accounts as books_spec;
ghost use Rattle.ips_books.specs.Seen.{as_line};
ghost use Rattle.ips_passwd.specs.Entries.{LeadByName, kept_place, leads_up_to};

use ips_books::{Line, field, is_kept, is_of, place_of};
use std::alloc::{AllocError, Global};
use std::collections::BTreeMap;

/// The places to which names lead.
pub type Places = BTreeMap<Vec<u8>, usize>;

/// The places of these lines.
pub fn places(alloc: Global, lines: &[Line]) -> Result<Places, AllocError>
    ensures { IfOk result (λ places. LeadByName places lines.now) }
{
    let mut places = BTreeMap::new(alloc);
    for i in 0..lines.len() {
        note(alloc, &mut places, lines[i].text(), i)?;
    }
    Ok(places)
}

/// Notes that a line of this text stands at a place.
pub fn note(alloc: Global, places: &mut Places, text: &[u8], place: usize) -> Result<(), AllocError>
    ensures stays { (name : List ℕ) (i : ℕ) → leads_up_to places.old name i ≡ true → leads_up_to places.new name i ≡ true }
    ensures noted { OnOk result ((name : List ℕ) → books_spec.is_of name (as_line text.now) ≡ true → leads_up_to places.new name place ≡ true) }
{
    if is_kept(text) {
        return Ok(());
    }
    lead(alloc, places, field(text, 0), place)
}

// Makes the name lead to the place, unless it leads to one before it.
fn lead(alloc: Global, places: &mut Places, name: &[u8], place: usize) -> Result<(), AllocError>
    ensures stays { (other : List ℕ) (i : ℕ) → leads_up_to places.old other i ≡ true → leads_up_to places.new other i ≡ true }
    ensures leads { OnOk result (leads_up_to places.new name.now place ≡ true) }
{
    if is_led(places, name, place) {
        return Ok(());
    }
    let key = Vec::from_slice(alloc, name)?;
    places.insert(key, place)?;
    Ok(())
}

// Whether the name leads to the place, or to one before it.
fn is_led(places: &Places, name: &[u8], place: usize) -> bool
    ensures { result ≡ leads_up_to places.now name.now place }
{
    match led(places, name) {
        Some(first) => first <= place,
        None => false,
    }
}

// The place to which a name leads.
fn led(places: &Places, name: &[u8]) -> Option<usize>
    ensures { result ≡ kept_place places.now name.now }
{
    places.get(name).copied()
}

/// The place of the first line of a name.
pub fn find(places: &Places, lines: &[Line], name: &[u8]) -> Option<usize>
    requires { LeadByName places.now lines.now }
    ensures { result ≡ position (books_spec.is_of name.now) lines.now }
{
    let Some(place) = led(places, name) else {
        return None;
    };
    if stands_at(lines, place, name) {
        return Some(place);
    }
    place_of(lines, name)
}

// Whether a line of this name stands at the place.
fn stands_at(lines: &[Line], place: usize, name: &[u8]) -> bool
    ensures { result ≡ option_map_or (books_spec.is_of name.now) (slice_get lines.now place) false }
{
    match lines.get(place) {
        Some(line) => is_of(line.text(), name),
        None => false,
    }
}
