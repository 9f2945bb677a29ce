//! An index, read from its text.

ghost use Rattle.std.specs.Prelude.{◌≡◌, ◌+◌, ◌∷◌, ℕ, List, IfOk, IfNone, IfSome, length, codes};
ghost use Rattle.ips_text.specs.Reading.{IfBad};
ghost use Rattle.ips_records.specs.Lines.{ended, lines_in, IsFirstBadLine};
ghost use Rattle.ips_index.specs.Rows.{IndexedValue};
ghost use Rattle.ips_index.specs.Text.{IsRow, IsIndexText, IsIndexFile, Spell};

use crate::entry::Entry;
use crate::fault::BadIndex;
use crate::sets::insert_all;
use crate::words::{Words, found_by, place, split, text};
use ips_records::{Listing, cut, read_list, stem};
use ips_text::Or;
use std::alloc::{AllocError, Global};
use std::cmp::Ordering;
use std::collections::BTreeSet;

// Rows, one a line.
struct Rows;

impl Listing for Rows {
    ghost use Rattle.ips_index.specs.Rows.{row_line};
    ghost use Rattle.ips_index.specs.Text.{IsRow, StandsBefore};

    type Item = Entry;

    ghost line = { row_line };

    ghost fits = { IsRow };

    ghost follows = { StandsBefore };

    fn read(alloc: Global, bytes: &[u8]) -> Result<Option<Entry>, AllocError> {
        match split(bytes) {
            Some(words) => read_row(alloc, words),
            None => Ok(None),
        }
    }

    fn may_follow(earlier: &Entry, later: &Entry) -> bool {
        earlier.cmp(later) == Ordering::Less
    }
}

// The row of these words, where there is one.
fn read_row(alloc: Global, words: Words) -> Result<Option<Entry>, AllocError>
    ensures row { IfOk result (λ found. IfSome found IsRow) }
    ensures spell { IfOk result (λ found. IfSome found (Spell words.entry.token.now words.entry.index.now words.entry.kind.now words.entry.value.now words.entry.stem.now)) }
    ensures none { IfOk result (λ found. IfNone found ((row : IndexedValue) → IsRow row → Spell words.entry.token.now words.entry.index.now words.entry.kind.now words.entry.value.now words.entry.stem.now row → ⊥)) }
{
    let Some(place) = place(words.kind, words.index) else {
        return Ok(None);
    };
    let Some(text) = text(alloc, words.value)? else {
        return Ok(None);
    };
    let value = text.as_str();
    let Some(token) = found_by(alloc, place, value, words.value, words.token)? else {
        return Ok(None);
    };
    let Some(stem) = stem(alloc, words.stem)? else {
        return Ok(None);
    };
    let entry = Entry::new(alloc, place.0, place.1, token, value, stem.as_str())?;
    Ok(Some(entry))
}

/// The rows of an index.
pub(crate) fn read(alloc: Global, bytes: &[u8]) -> Result<BTreeSet<Entry>, Or<BadIndex>>
    ensures rows { IfOk result (λ rows. IsIndexText rows.keys bytes.now) }
    ensures bad { IfBad result (λ fault. IsFirstBadLine IsIndexFile (lines_in bytes.now) fault.line) }
{
    let Some(rest) = behind_head(bytes) else {
        return Err(Or::Bad(BadIndex { line: 1 }));
    };
    match read_list::<Rows>(alloc, rest) {
        Ok(list) => {
            let mut rows = BTreeSet::new(alloc);
            insert_all(&mut rows, list)?;
            Ok(rows)
        }
        Err(Or::Bad(line)) => Err(Or::Bad(BadIndex { line: line + 1 })),
        Err(Or::OutOfMemory) => Err(Or::OutOfMemory),
    }
}

// What stands behind the line that tells the form of an index.
fn behind_head(bytes: &[u8]) -> Option<&[u8]>
    ensures some { IfSome result (λ rest. lines_in bytes.now ≡ ended (codes "index 1") ∷ lines_in rest.now) }
    ensures shorter { IfSome result (λ rest. length rest.now + 8 ≡ length bytes.now) }
    ensures none { IfNone result ((others : List (List ℕ)) → lines_in bytes.now ≡ ended (codes "index 1") ∷ others → ⊥) }
{
    let Some((line, rest)) = cut(b'\n', bytes) else {
        return None;
    };
    if line == b"index 1".as_slice() {
        Some(rest)
    } else {
        None
    }
}
