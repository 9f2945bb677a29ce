//! What leads to lines by their numbers.
//!
//! Every line is among those to which its number leads; others may be too, so each is looked at.

ghost use Rattle.std.specs.Prelude.{◌≡◌, ◌==◌, ℕ, true, false, Some, slice_get, IfOk, OnOk};
ghost use Rattle.std.specs.List.{list_any};
ghost use Rattle.std.specs.Option.{option_eq, option_map_or};
ghost use Rattle.ips_books.specs.Accounts as books_spec;
ghost use Rattle.ips_books.specs.Writing as writing_spec;
ghost use Rattle.ips_books.specs.Seen.{as_line};
ghost use Rattle.ips_passwd.specs.Entries.{LeadByNumber, leads_by, places_with};

use ips_books::{Line, is_kept, is_of_other, number_of};
use std::alloc::{AllocError, Global};
use std::collections::BTreeMap;

/// The places to which numbers lead.
pub type Numbers = BTreeMap<usize, Vec<usize>>;

/// The places of these lines.
pub fn numbers(alloc: Global, lines: &[Line]) -> Result<Numbers, AllocError>
    ensures { IfOk result (λ numbers. LeadByNumber numbers lines.now) }
{
    let mut numbers = BTreeMap::new(alloc);
    for i in 0..lines.len() {
        list(alloc, &mut numbers, lines[i].text(), i)?;
    }
    Ok(numbers)
}

/// Notes that a line of this text stands at a place.
pub fn list(
    alloc: Global,
    numbers: &mut Numbers,
    text: &[u8],
    place: usize,
) -> Result<(), AllocError>
    ensures stays { (id i : ℕ) → leads_by numbers.old id i ≡ true → leads_by numbers.new id i ≡ true }
    ensures listed { OnOk result ((id : ℕ) → writing_spec.has_number id (as_line text.now) ≡ true → leads_by numbers.new id place ≡ true) }
{
    if is_kept(text) {
        return Ok(());
    }
    match number_of(text) {
        Some(number) => lead(alloc, numbers, number as usize, place),
        None => Ok(()),
    }
}

// Makes the number lead to the place too.
fn lead(alloc: Global, numbers: &mut Numbers, number: usize, place: usize) -> Result<(), AllocError>
    ensures stays { (id i : ℕ) → leads_by numbers.old id i ≡ true → leads_by numbers.new id i ≡ true }
    ensures leads { OnOk result (leads_by numbers.new number place ≡ true) }
{
    if lead_more(numbers, number, place)? {
        return Ok(());
    }
    let mut places = Vec::with_capacity(alloc, 1)?;
    places.push(place)?;
    numbers.insert(number, places)?;
    Ok(())
}

// Makes the number lead to the place too, where it leads to some, and tells whether it does.
fn lead_more(numbers: &mut Numbers, number: usize, place: usize) -> Result<bool, AllocError>
    ensures stays { (id i : ℕ) → leads_by numbers.old id i ≡ true → leads_by numbers.new id i ≡ true }
    ensures leads { IfOk result (λ led. led ≡ true → leads_by numbers.new number place ≡ true) }
    ensures none { IfOk result (λ led. led ≡ false → (i : ℕ) → leads_by numbers.new number i ≡ false) }
{
    match numbers.get_mut(&number) {
        Some(places) => {
            places.push(place)?;
            Ok(true)
        }
        None => Ok(false),
    }
}

// The places to which a number leads.
fn led(numbers: &Numbers, id: usize) -> &[usize]
    ensures { result.now ≡ places_with numbers.now id }
{
    match numbers.get(&id) {
        Some(places) => places,
        None => &[],
    }
}

/// Whether the number is that of a line.
pub fn is_used(numbers: &Numbers, lines: &[Line], id: usize) -> bool
    requires { LeadByNumber numbers.now lines.now }
    ensures { result ≡ list_any (writing_spec.has_number id) lines.now }
{
    led(numbers, id)
        .iter()
        .any(|place| is_with(lines, *place, id))
}

// Whether a line with this number stands at the place.
fn is_with(lines: &[Line], place: usize, id: usize) -> bool
    ensures { result ≡ option_map_or (writing_spec.has_number id) (slice_get lines.now place) false }
{
    match lines.get(place) {
        Some(line) => has_number(line.text(), id),
        None => false,
    }
}

// Whether the line has this number.
fn has_number(line: &[u8], id: usize) -> bool
    ensures { result ≡ writing_spec.has_number id (as_line line.now) }
{
    !is_kept(line) && is_number(line, id)
}

// Whether the number of the line is this one.
fn is_number(line: &[u8], id: usize) -> bool
    ensures { result ≡ option_eq ◌==◌ (books_spec.number_of (as_line line.now)) (Some id) }
{
    match number_of(line) {
        Some(number) => number as usize == id,
        None => false,
    }
}

/// Whether the number is that of a line that speaks of another name.
pub fn is_taken(numbers: &Numbers, lines: &[Line], name: &[u8], id: u32) -> bool
    requires { LeadByNumber numbers.now lines.now }
    ensures { result ≡ writing_spec.is_number_taken lines.now name.now id }
{
    led(numbers, id as usize)
        .iter()
        .any(|place| is_another(lines, *place, name, id))
}

// Whether a line with this number that speaks of another name stands at the place.
fn is_another(lines: &[Line], place: usize, name: &[u8], id: u32) -> bool
    ensures { result ≡ option_map_or (writing_spec.is_of_other name.now id) (slice_get lines.now place) false }
{
    match lines.get(place) {
        Some(line) => is_of_other(line.text(), name, id),
        None => false,
    }
}
