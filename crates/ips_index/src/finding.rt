//! Rows found by their token.

ghost use Rattle.std.specs.Prelude.{◌≡◌, ◌↔◌, [], IfOk, IsTrue, IsFalse, map};
ghost use Rattle.std.specs.Str.{chars};
ghost use Rattle.ips_fmri.specs.Pattern.{Matches};
ghost use Rattle.ips_index.specs.Rows.{row_seen};
ghost use Rattle.ips_index.specs.Scan.{AreFound};
ghost use Rattle.ips_index.specs.Entries.{AreNamed, IsPlain};

use crate::entry::{Entry, Field};
use crate::row::IndexRow;
use ips_action::ActionKind;
use ips_fmri::matches_stem;
use std::alloc::{AllocError, Global};
use std::collections::BTreeSet;
use std::ops::Bound;

/// The rows whose token the pattern matches. Where it has no wildcard they stand side by side.
pub(crate) fn find(
    alloc: Global,
    rows: &BTreeSet<Entry>,
    pattern: &str,
) -> Result<Vec<IndexRow>, AllocError>
    requires { AreNamed rows.now.keys }
    ensures { IfOk result (λ found. AreFound pattern.now rows.now.keys (map row_seen found.items)) }
{
    if has_wildcard(pattern) {
        find_all(alloc, rows, pattern)
    } else {
        find_token(alloc, rows, pattern)
    }
}

// Whether `*` or `?` stands in the pattern.
fn has_wildcard(pattern: &str) -> bool
    ensures { IsFalse result → IsPlain pattern.now }
{
    pattern.contains('*') || pattern.contains('?')
}

// The same, looking at each row.
fn find_all(
    alloc: Global,
    rows: &BTreeSet<Entry>,
    pattern: &str,
) -> Result<Vec<IndexRow>, AllocError>
    ensures { IfOk result (λ found. AreFound pattern.now rows.now.keys (map row_seen found.items)) }
{
    let mut found = Vec::new(alloc);
    for row in rows {
        if matches_stem(true, pattern, row.token()) {
            found.push(row.row(alloc)?)?;
        }
    }
    Ok(found)
}

// The rows of this token.
fn find_token(
    alloc: Global,
    rows: &BTreeSet<Entry>,
    token: &str,
) -> Result<Vec<IndexRow>, AllocError>
    requires named { AreNamed rows.now.keys }
    requires plain { IsPlain token.now }
    ensures { IfOk result (λ found. AreFound token.now rows.now.keys (map row_seen found.items)) }
{
    let start = start(alloc, token)?;
    let mut found = Vec::new(alloc);
    for row in rows.range((Bound::Included(start), Bound::Unbounded)) {
        if row.token() != token {
            return Ok(found);
        }
        found.push(row.row(alloc)?)?;
    }
    Ok(found)
}

// What stands before all rows of the token.
fn start(alloc: Global, token: &str) -> Result<Entry, AllocError>
    ensures token { IfOk result (λ entry. entry.token ≡ token.now) }
    ensures index { IfOk result (λ entry. entry.index ≡ []) }
{
    Entry::new(alloc, ActionKind::Set, Field::Start, 0, token, "")
}
