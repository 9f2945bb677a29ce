//! Rows and paths that are spoken of, merged.

ghost use Rattle.std.specs.Prelude.{◌≡◌, ◌++◌, ◌∷◌, [], IfOk, OnOk, length};
ghost use Rattle.std.specs.List.{AllByRecursion};
ghost use Rattle.std.specs.List.Sorted.{IsStrictlySortedBy};
ghost use Rattle.std.specs.Ordering.{nat_cmp};
ghost use Rattle.std.specs.Cmp.Lexicographic.{slice_cmp};
ghost use Rattle.ips_outside.specs.Image.{Image};
ghost use Rattle.ips_after.specs.Request.{Request};
ghost use Rattle.ips_change.specs.survey.Rows.{HasLooked};
ghost use Rattle.ips_change.specs.survey.Marks.{row_paths};
ghost use Rattle.ips_change.specs.survey.Tables.{AreSpoken, AreRowsOf, IsTable, spoken_paths};

use crate::survey::next::{Line, first, rows_taken, spoken_taken};
use crate::survey::row::Row;
use crate::survey::said::Spoken;
use crate::survey::table::Table;
use std::alloc::{AllocError, Global};

/// Just the paths of the rows and those that are spoken of, each once, with what is said of each. A path that neither was nor is wanted
/// has a row in which no rule asks what stands.
pub fn merge<'a>(
    alloc: Global,
    rows: &[Row<'a>],
    spoken: &[Spoken<'a>],
) -> Result<Table<'a>, AllocError>
    requires rows { IsStrictlySortedBy (slice_cmp nat_cmp) (row_paths rows.now) }
    requires spoken { IsStrictlySortedBy (slice_cmp nat_cmp) (spoken_paths spoken.now) }
    ensures order { IfOk result (λ table. IsStrictlySortedBy (slice_cmp nat_cmp) (row_paths table.rows.items)) }
    ensures long { IfOk result (λ table. length table.said.items ≡ length table.rows.items) }
    ensures table { IfOk result (λ table. (r : Request) → AreRowsOf r rows.now → AreSpoken r.over spoken.now → IsTable r table.rows.items table.said.items) }
    ensures looked { IfOk result (λ table. (t : Image) → AllByRecursion (HasLooked t) rows.now → AllByRecursion (HasLooked t) table.rows.items) }
{
    let mut table = Table {
        rows: Vec::new(alloc),
        said: Vec::new(alloc),
    };
    match fill(rows, spoken, &mut table) {
        Ok(()) => Ok(table),
        Err(fault) => Err(fault),
    }
}

// Adds the lines of both to an empty table.
fn fill<'a>(
    rows: &[Row<'a>],
    spoken: &[Spoken<'a>],
    table: &mut Table<'a>,
) -> Result<(), AllocError>
    requires rows { IsStrictlySortedBy (slice_cmp nat_cmp) (row_paths rows.now) }
    requires spoken { IsStrictlySortedBy (slice_cmp nat_cmp) (spoken_paths spoken.now) }
    requires no_rows { table.old.rows.items ≡ [] }
    requires none_said { table.old.said.items ≡ [] }
    ensures order { OnOk result (IsStrictlySortedBy (slice_cmp nat_cmp) (row_paths table.new.rows.items)) }
    ensures long { OnOk result (length table.new.said.items ≡ length table.new.rows.items) }
    ensures table { OnOk result ((r : Request) → AreRowsOf r rows.now → AreSpoken r.over spoken.now → IsTable r table.new.rows.items table.new.said.items) }
    ensures looked { OnOk result ((t : Image) → AllByRecursion (HasLooked t) rows.now → AllByRecursion (HasLooked t) table.new.rows.items) }
{
    let mut i = 0;
    let mut j = 0;
    while let Some(line) = first(rows.get(i), spoken.get(j)) {
        add(line, table)?;
        i += rows_taken(line.origin);
        j += spoken_taken(line.origin);
    }
    Ok(())
}

// Adds a line.
fn add<'a>(line: Line<'a>, table: &mut Table<'a>) -> Result<(), AllocError>
    ensures row { OnOk result (table.new.rows.items ≡ table.old.rows.items ++ line.entry.row ∷ []) }
    ensures said { OnOk result (table.new.said.items ≡ table.old.said.items ++ line.entry.said ∷ []) }
{
    table.rows.push(line.row)?;
    table.said.push(line.said)?;
    Ok(())
}
