//! The files that hard links need.

ghost use Rattle.std.specs.Prelude.{◌≡◌, ℕ, Bool, false, not, ◌&&◌, ◌||◌, IsTrue, IfOk, OnOk, List, [], length, map};
ghost use Rattle.std.specs.List.Sorted.{IsStrictlySortedBy};
ghost use Rattle.std.specs.Ordering.{nat_cmp};
ghost use Rattle.std.specs.Option.{option_map};
ghost use Rattle.std.specs.Cmp.Lexicographic.{slice_cmp};
ghost use Rattle.ips_outside.specs.Image as image;
ghost use Rattle.ips_outside.specs.Image.{Image};
ghost use Rattle.ips_outside.specs.Outside.{Reads};
ghost use Rattle.ips_after.specs.After.{leads_to};
ghost use Rattle.ips_after.specs.Change as changes;
ghost use Rattle.ips_after.specs.Repaired.{Repair, mended};
ghost use Rattle.ips_change.specs.content.Failing.{HasFailed};
ghost use Rattle.ips_change.specs.wanted.Wanted.{wanted_of};
ghost use Rattle.ips_change.specs.Told.{change_told};
ghost use Rattle.ips_change.specs.survey.Marks.{row_paths};
ghost use Rattle.ips_change.specs.survey.Rows.{row_pair};
ghost use Rattle.ips_links.specs.Leading.{is_that};
ghost use Rattle.ips_mend.specs.mended.Mending.{AreRowsFor, lacks, links_among};

use ips_change::Change;
use ips_change::content::look_at;
use ips_change::survey::{Row, mark};
use ips_links::makes;
use ips_meaning::Entry;
use ips_outside::{Failed, Look, Source};
use ips_text::{Or, RelPath};
use std::alloc::{AllocError, Global};

/// At each row whether a hard link that is laid leads to its path, nothing is laid there by its own finding and no file stands there. It
/// looks once at each path of which only this last is in question.
pub(crate) fn lacking<S: Source>(
    alloc: Global,
    source: &mut S,
    rows: &[Row<'_>],
    own: &[Change<'_>],
) -> Result<Vec<bool>, Or<Failed>>
    requires order { IsStrictlySortedBy (slice_cmp nat_cmp) (row_paths rows.now) }
    requires own { length own.now ≡ length rows.now }
    ensures long { IfOk result (λ marks. length marks.items ≡ length rows.now) }
    ensures found { IsTrue (S.outside.tells source.old) → IfOk result (λ marks. (f : Repair) → AreRowsFor f.want rows.now
        → map (change_told f.bytes) own.now ≡ map (mended f (S.outside.state source.old).held) (row_paths rows.now)
        → marks.items ≡ map (lacks f (S.outside.state source.old).held) (row_paths rows.now)) }
    ensures reads { Reads S.outside source.old source.new (HasFailed result) }
{
    let led = led(alloc, rows, own)?;
    let mut marks = Vec::new(alloc);
    ask(source, rows, own, &led, &mut marks)?;
    Ok(marks)
}

// At each row whether a hard link that is laid leads to its path.
fn led(alloc: Global, rows: &[Row<'_>], own: &[Change<'_>]) -> Result<Vec<bool>, AllocError>
    requires order { IsStrictlySortedBy (slice_cmp nat_cmp) (row_paths rows.now) }
    requires own { length own.now ≡ length rows.now }
    ensures long { IfOk result (λ led. length led.items ≡ length rows.now) }
    ensures led { IfOk result (λ led. (f : Repair) (t : Image) → AreRowsFor f.want rows.now → map (change_told f.bytes) own.now ≡ map (mended f t) (row_paths rows.now)
        → led.items ≡ map (links_among f t (row_paths rows.now)) (row_paths rows.now)) }
{
    let mut led = vec![in alloc; false; rows.len()]?;
    follow(rows, own, &mut led);
    Ok(led)
}

// Marks where each hard link leads that is laid, where none is marked yet.
fn follow(rows: &[Row<'_>], own: &[Change<'_>], led: &mut [bool])
    requires order { IsStrictlySortedBy (slice_cmp nat_cmp) (row_paths rows.now) }
    requires own { length own.now ≡ length rows.now }
    requires long { length led.old ≡ length rows.now }
    requires none { led.old ≡ map (λ p. false) (row_paths rows.now) }
    ensures { (f : Repair) (t : Image) → AreRowsFor f.want rows.now → map (change_told f.bytes) own.now ≡ map (mended f t) (row_paths rows.now)
        → led.new ≡ map (links_among f t (row_paths rows.now)) (row_paths rows.now) }
{
    for i in 0..rows.len() {
        add(rows, &rows[i], own[i], led);
    }
}

// Marks where the hard link leads that is laid at the row's path, if one is.
fn add(rows: &[Row<'_>], row: &Row<'_>, own: Change<'_>, led: &mut [bool])
    requires order { IsStrictlySortedBy (slice_cmp nat_cmp) (row_paths rows.now) }
    requires long { length led.old ≡ length rows.now }
    ensures { (bytes : List ℕ → List ℕ) (test : List ℕ → Bool) → led.old ≡ map test (row_paths rows.now)
        → led.new ≡ map (λ p. test p || (leads_to p (row_pair row.now).wanted && changes.makes (change_told bytes own.entry))) (row_paths rows.now) }
{
    if let Some(to) = leading(row.new, own) {
        mark(rows, led, to.bytes());
    }
}

// Where the hard link leads that is laid at a path of which this becomes.
fn leading<'a>(new: Option<&'a Entry>, own: Change<'_>) -> Option<&'a RelPath>
    ensures { (bytes : List ℕ → List ℕ) (p : List ℕ) → is_that (option_map (λ x. x.now.bytes) result) p
        ≡ (leads_to p (option_map (λ x. wanted_of x.now) new.entry) && changes.makes (change_told bytes own.entry)) }
{
    match new {
        Some(Entry::Hard { to }) if makes(own) => Some(to),
        _ => None,
    }
}

// Adds for each row whether its path lacks a file.
fn ask<S: Source>(
    source: &mut S,
    rows: &[Row<'_>],
    own: &[Change<'_>],
    led: &[bool],
    marks: &mut Vec<bool>,
) -> Result<(), Or<Failed>>
    requires own { length own.now ≡ length rows.now }
    requires led { length led.now ≡ length rows.now }
    requires none { marks.old.items ≡ [] }
    ensures long { OnOk result (length marks.new.items ≡ length rows.now) }
    ensures found { IsTrue (S.outside.tells source.old) → OnOk result ((f : Repair) → AreRowsFor f.want rows.now
        → map (change_told f.bytes) own.now ≡ map (mended f (S.outside.state source.old).held) (row_paths rows.now)
        → led.now ≡ map (links_among f (S.outside.state source.old).held (row_paths rows.now)) (row_paths rows.now)
        → marks.new.items ≡ map (lacks f (S.outside.state source.old).held) (row_paths rows.now)) }
    ensures reads { Reads S.outside source.old source.new (HasFailed result) }
{
    for i in 0..rows.len() {
        let row = &rows[i];
        marks.push(ask_at(source, row.path, own[i], led[i])?)?;
    }
    Ok(())
}

// Whether no file stands at the path, where a hard link leads and nothing is laid by this.
fn ask_at<S: Source>(
    source: &mut S,
    path: &RelPath,
    own: Change<'_>,
    led: bool,
) -> Result<bool, Or<Failed>>
    ensures found { IsTrue (S.outside.tells source.old) → IfOk result (λ lacks. (bytes : List ℕ → List ℕ)
        → lacks ≡ (not (changes.makes (change_told bytes own.entry)) && (not (image.is_file ((S.outside.state source.old).held.look path.now.bytes)) && led))) }
    ensures untouched { led ≡ false → source.new ≡ source.old }
    ensures reads { Reads S.outside source.old source.new (HasFailed result) }
{
    if !led || makes(own) {
        return Ok(false);
    }
    Ok(!matches!(look_at(source, path)?, Look::File { .. }))
}
