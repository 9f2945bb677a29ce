//! The files that hard links need.

ghost use Rattle.std.specs.Prelude.{◌≡◌, ℕ, Bool, false, not, ◌&&◌, ◌||◌, IsTrue, IfOk, OnOk, List, [], length, map, is_none};
ghost use Rattle.std.specs.List.{AllByRecursion};
ghost use Rattle.std.specs.List.Sorted.{IsStrictlySortedBy};
ghost use Rattle.std.specs.Option.{option_map};
ghost use Rattle.std.specs.Ordering.{nat_cmp};
ghost use Rattle.std.specs.Cmp.Lexicographic.{slice_cmp};
ghost use Rattle.ips_outside.specs.Image as image;
ghost use Rattle.ips_outside.specs.Image.{Image};
ghost use Rattle.ips_outside.specs.Outside.{Reads};
ghost use Rattle.ips_after.specs.After.{itself, leads_to, needs_file};
ghost use Rattle.ips_after.specs.Change as changes;
ghost use Rattle.ips_after.specs.Request.{IsRequest, Request};
ghost use Rattle.ips_change.specs.content.Failing.{HasFailed};
ghost use Rattle.ips_change.specs.Told.{naming};
ghost use Rattle.ips_change.specs.survey.Rows.{HasLooked, IsRowOf};
ghost use Rattle.ips_change.specs.survey.Marks.{row_paths};
ghost use Rattle.ips_change.specs.survey.Tables.{IsTable};
ghost use Rattle.ips_links.specs.Leading.{is_led, is_that};

use crate::asking::{lead, makes};
use ips_change::survey::{Row, Said, Table, is_file_at, mark};
use ips_outside::{Failed, Source};
use ips_text::{Or, RelPath};
use std::alloc::{AllocError, Global};

/// At each row whether no file stands where a hard link that is made leads, and account files and records don't speak of it. It looks only at
/// paths to which one leads.
pub fn needs<S: Source>(
    alloc: Global,
    source: &mut S,
    table: &Table<'_>,
) -> Result<Vec<bool>, Or<Failed>>
    requires order { IsStrictlySortedBy (slice_cmp nat_cmp) (row_paths table.now.rows.items) }
    requires said { length table.now.said.items ≡ length table.now.rows.items }
    ensures long { IfOk result (λ needs. length needs.items ≡ length table.now.rows.items) }
    ensures found { IsTrue (S.outside.tells source.old) → IfOk result (λ needs. (r : Request) → IsRequest r → IsTable r table.now.rows.items table.now.said.items → AllByRecursion (HasLooked (S.outside.state source.old).held) table.now.rows.items
        → needs.items ≡ map (needs_file (naming r) (S.outside.state source.old).held) (row_paths table.now.rows.items)) }
    ensures reads { Reads S.outside source.old source.new (HasFailed result) }
{
    let led = led(alloc, &table.rows)?;
    let mut needs = Vec::new(alloc);
    ask(source, table, &led, &mut needs)?;
    Ok(needs)
}

// At each row whether a hard link that is made leads to its path.
fn led(alloc: Global, rows: &[Row<'_>]) -> Result<Vec<bool>, AllocError>
    requires order { IsStrictlySortedBy (slice_cmp nat_cmp) (row_paths rows.now) }
    ensures long { IfOk result (λ led. length led.items ≡ length rows.now) }
    ensures led { IfOk result (λ led. (r : Request) (t : Image) → AllByRecursion (IsRowOf r) rows.now → AllByRecursion (HasLooked t) rows.now → led.items ≡ map (is_led r t (row_paths rows.now)) (row_paths rows.now)) }
{
    let mut led = vec![in alloc; false; rows.len()]?;
    follow(rows, &mut led);
    Ok(led)
}

// Marks where each hard link leads that is made, where none is marked yet.
fn follow(rows: &[Row<'_>], led: &mut [bool])
    requires order { IsStrictlySortedBy (slice_cmp nat_cmp) (row_paths rows.now) }
    requires long { length led.old ≡ length rows.now }
    requires none { led.old ≡ map (λ p. false) (row_paths rows.now) }
    ensures { (r : Request) (t : Image) → AllByRecursion (IsRowOf r) rows.now → AllByRecursion (HasLooked t) rows.now → led.new ≡ map (is_led r t (row_paths rows.now)) (row_paths rows.now) }
{
    for row in rows {
        add(rows, row, led);
    }
}

// Marks where the hard link leads that is made at the row's path, if one is.
fn add(rows: &[Row<'_>], row: &Row<'_>, led: &mut [bool])
    requires order { IsStrictlySortedBy (slice_cmp nat_cmp) (row_paths rows.now) }
    requires long { length led.old ≡ length rows.now }
    ensures { (r : Request) (t : Image) (test : List ℕ → Bool) → IsRowOf r row.now → HasLooked t row.now → led.old ≡ map test (row_paths rows.now)
        → led.new ≡ map (λ p. test p || (leads_to p (r.new.at row.now.path.now.bytes) && changes.makes (itself (naming r) t row.now.path.now.bytes))) (row_paths rows.now) }
{
    if let Some(to) = leading(row) {
        mark(rows, led, to.bytes());
    }
}

// Where the hard link leads that is made at the row's path.
fn leading<'a>(row: &Row<'a>) -> Option<&'a RelPath>
    ensures { (r : Request) (t : Image) (p : List ℕ) → IsRowOf r row.now → HasLooked t row.now
        → is_that (option_map (λ x. x.now.bytes) result) p ≡ (leads_to p (r.new.at row.now.path.now.bytes) && changes.makes (itself (naming r) t row.now.path.now.bytes)) }
{
    let to = lead(row.new)?;
    makes(row.itself()).then_some(to)
}

// Adds for each row whether its path needs a file.
fn ask<S: Source>(
    source: &mut S,
    table: &Table<'_>,
    led: &[bool],
    needs: &mut Vec<bool>,
) -> Result<(), Or<Failed>>
    requires said { length table.now.said.items ≡ length table.now.rows.items }
    requires led { length led.now ≡ length table.now.rows.items }
    requires none { needs.old.items ≡ [] }
    ensures long { OnOk result (length needs.new.items ≡ length table.now.rows.items) }
    ensures found { IsTrue (S.outside.tells source.old) → OnOk result ((r : Request) → IsTable r table.now.rows.items table.now.said.items → AllByRecursion (HasLooked (S.outside.state source.old).held) table.now.rows.items
        → led.now ≡ map (is_led r (S.outside.state source.old).held (row_paths table.now.rows.items)) (row_paths table.now.rows.items)
        → needs.new.items ≡ map (λ p. is_none (r.over.at p) && (not (image.is_file ((S.outside.state source.old).held.look p)) && is_led r (S.outside.state source.old).held (row_paths table.now.rows.items) p)) (row_paths table.now.rows.items)) }
    ensures reads { Reads S.outside source.old source.new (HasFailed result) }
{
    for i in 0..table.rows.len() {
        needs.push(ask_at(source, &table.rows[i], table.said[i], led[i])?)?;
    }
    Ok(())
}

// Whether no file stands at the row's path, where a hard link leads there and nothing is said of it.
fn ask_at<S: Source>(
    source: &mut S,
    row: &Row<'_>,
    said: Option<Said>,
    led: bool,
) -> Result<bool, Or<Failed>>
    ensures found { IsTrue (S.outside.tells source.old) → HasLooked (S.outside.state source.old).held row.now
        → IfOk result (λ needs. needs ≡ (is_none said && (not (image.is_file ((S.outside.state source.old).held.look row.now.path.now.bytes)) && led))) }
    ensures untouched { (is_none said && led) ≡ false → source.new ≡ source.old }
    ensures reads { Reads S.outside source.old source.new (HasFailed result) }
{
    if said.is_some() || !led {
        return Ok(false);
    }
    Ok(!is_file_at(source, row)?)
}
