//! The earliest action of a group that passes a test.

ghost use Rattle.std.specs.Prelude.{◌≡◌, ◌↔◌, ◌<◌, true, IfOk, IsTrue, Some, codes, length, slice_get};
ghost use Rattle.std.specs.List.{All, Contains};
ghost use Rattle.std.specs.Option.{ForSome};
ghost use Rattle.ips_text.specs.Ancestry.{is_below, same_path};
ghost use Rattle.ips_conflict.specs.Key as keys;
ghost use Rattle.ips_conflict.specs.Clash as clashes;
ghost use Rattle.ips_conflict.specs.Clash.{HasSureFile, LeadsToFile};
ghost use Rattle.ips_conflict.specs.Verdict.{HasPlace};
ghost use Rattle.ips_conflict.specs.Index.{IsIndex};
ghost use Rattle.ips_conflict.specs.Search.{BreaksBehind, IsEarliest, IsTest, MeetsTest, Passes, earlier_of};

use crate::alike::{end_of, has};
use crate::clashing::Rule;
use crate::index::{Index, counted_at};
use crate::placed::{Placed, Sort, is_dir, is_earlier, is_link, sort_of, value};
use crate::verdict::breaks;
use ips_action::{Action, ActionKind};
use ips_text::covers;
use std::alloc::{AllocError, Global};

/// What an action of a group is looked for by.
#[derive(Clone, Copy, Drop)]
pub enum Test<'a> {
    /// Any action.
    Any,
    /// A link, symbolic or hard.
    Linked,
    /// An action that stands behind a place.
    After(usize),
    /// An action that stands behind a place and breaks the rule with what stands there.
    Against(usize, Rule),
    /// What gives a path as other than a directory.
    Obstacle,
    /// A hardlink that leads to no file that is always there.
    Lost,
    /// What stands below a path.
    Under(&'a str),
}

/// The earliest of these places at which an action stands whose keys are of this sort, and which passes the test.
pub fn earliest(
    alloc: Global,
    placed: &[Placed<'_>],
    index: &Index,
    members: &[usize],
    sort: Sort,
    test: Test<'_>,
) -> Result<Option<usize>, AllocError>
    requires index { IsIndex placed.now index.now }
    requires members { All (λ j. j < length placed.now) members.now }
    requires test { IsTest placed.now test }
    ensures { IfOk result (λ found. IsEarliest placed.now (λ j. Contains members.now j × MeetsTest placed.now sort test.entry j) found) }
{
    let mut found = None;
    for j in members {
        if meets(alloc, placed, index, sort, test, *j)? {
            found = Some(earlier(placed, found, *j));
        }
    }
    Ok(found)
}

// The earlier of two places, of which the first may be none.
fn earlier(placed: &[Placed<'_>], found: Option<usize>, j: usize) -> usize
    requires found { ForSome found (λ i. i < length placed.now) }
    requires j { j < length placed.now }
    ensures { result ≡ earlier_of placed.now found j }
{
    match found {
        Some(i) if !is_earlier(placed, j, i) => i,
        _ => j,
    }
}

// Whether an action whose keys are of this sort stands at the place, and passes the test.
fn meets(
    alloc: Global,
    placed: &[Placed<'_>],
    index: &Index,
    sort: Sort,
    test: Test<'_>,
    j: usize,
) -> Result<bool, AllocError>
    requires index { IsIndex placed.now index.now }
    requires within { j < length placed.now }
    requires test { IsTest placed.now test }
    ensures { IfOk result (λ answer. IsTrue answer ↔ MeetsTest placed.now sort test.entry j) }
{
    let item = &placed[j];
    if !is_of_sort(item, sort) {
        return Ok(false);
    }
    let answer = passes(alloc, placed, index, test, j, item)?;
    Ok(answer)
}

fn is_of_sort(item: &Placed<'_>, sort: Sort) -> bool
    ensures { IsTrue result ↔ (keys.sort_of item.now.action.kind ≡ Some sort) }
{
    match sort_of(item) {
        Some(other) => other.rank() == sort.rank(),
        None => false,
    }
}

// Whether the action at the place passes the test.
fn passes(
    alloc: Global,
    placed: &[Placed<'_>],
    index: &Index,
    test: Test<'_>,
    j: usize,
    item: &Placed<'_>,
) -> Result<bool, AllocError>
    requires index { IsIndex placed.now index.now }
    requires here { slice_get placed.now j ≡ Some item.now }
    requires test { IsTest placed.now test }
    requires keyed { HasPlace placed.now j }
    ensures { IfOk result (λ answer. IsTrue answer ↔ Passes placed.now test.entry j item.now) }
{
    match test {
        Test::Any => Ok(true),
        Test::Linked => Ok(is_link(item.kind())),
        Test::After(i) => Ok(is_earlier(placed, i, j)),
        Test::Against(i, rule) => {
            let answer = is_against(alloc, placed, index, rule, i, j)?;
            Ok(answer)
        }
        Test::Obstacle => Ok(!is_dir(item.kind())),
        Test::Lost => {
            let answer = is_lost(alloc, placed, index, item.action())?;
            Ok(answer)
        }
        Test::Under(path) => Ok(is_under(path, item.action())),
    }
}

// Whether the action at the second place stands behind the first, and breaks the rule with what stands there.
fn is_against(
    alloc: Global,
    placed: &[Placed<'_>],
    index: &Index,
    rule: Rule,
    i: usize,
    j: usize,
) -> Result<bool, AllocError>
    requires index { IsIndex placed.now index.now }
    requires i { HasPlace placed.now i }
    requires j { HasPlace placed.now j }
    ensures { IfOk result (λ answer. IsTrue answer ↔ BreaksBehind placed.now rule i j) }
{
    if !is_earlier(placed, i, j) {
        return Ok(false);
    }
    let first = &placed[i];
    let second = &placed[j];
    breaks(alloc, &index.table, rule, first.action(), second.action())
}

// Whether an action is a hardlink that leads to no file that is always there.
fn is_lost(
    alloc: Global,
    placed: &[Placed<'_>],
    index: &Index,
    action: &Action,
) -> Result<bool, AllocError>
    requires index { IsIndex placed.now index.now }
    ensures { IfOk result (λ answer. IsTrue answer ↔ ((action.now.kind ≡ ActionKind.Hardlink) × (LeadsToFile placed.now action.now → ⊥))) }
{
    if !is_hardlink(action) {
        return Ok(false);
    }
    let end = end_of(alloc, action)?;
    let sure = has_sure_file(placed, index, end.bytes());
    Ok(!sure)
}

fn is_hardlink(action: &Action) -> bool
    ensures { IsTrue result ↔ (action.now.kind ≡ ActionKind.Hardlink) }
{
    matches!(action.kind, ActionKind::Hardlink)
}

// Whether a file counts at the path that is never missing.
fn has_sure_file(placed: &[Placed<'_>], index: &Index, path: &[u8]) -> bool
    requires { IsIndex placed.now index.now }
    ensures { IsTrue result ↔ HasSureFile placed.now path.now }
{
    match counted_at(&index.files, path) {
        Some(i) => !may_be_missing(placed[i].action()),
        None => false,
    }
}

// Whether a file may be missing where its package is installed.
fn may_be_missing(file: &Action) -> bool
    ensures { result ≡ clashes.may_be_missing file.now }
{
    has(file, "preserve", "legacy")
        || has(file, "preserve", "abandon")
        || has(file, "preserve", "install-only")
}

// Whether the path of an action is below this one.
fn is_under(path: &str, action: &Action) -> bool
    ensures { result ≡ is_below path.now (keys.value_of (codes "path") action.now) }
{
    let below = value(action, "path");
    if !covers(path.as_bytes(), below.as_bytes()) {
        return false;
    }
    !is_same_path(path, below)
}

fn is_same_path(a: &str, b: &str) -> bool
    ensures { result ≡ same_path a.now b.now }
{
    a == b
}
