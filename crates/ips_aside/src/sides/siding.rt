//! All files that are put beside paths.

ghost use Rattle.std.specs.Prelude.{◌≡◌, ◌∷◌, [], IsTrue, IfOk, OnOk, List, Option};
ghost use Rattle.std.specs.List.{AllByRecursion};
ghost use Rattle.std.specs.List.Sorted.{IsStrictlySortedBy};
ghost use Rattle.std.specs.Ordering.{nat_cmp};
ghost use Rattle.std.specs.Cmp.Lexicographic.{slice_cmp};
ghost use Rattle.ips_outside.specs.Outside.{Reads};
ghost use Rattle.ips_after.specs.Planned.{IsProperRequest};
ghost use Rattle.ips_after.specs.Request.{Request};
ghost use Rattle.ips_change.specs.content.Failing.{HasFailed};
ghost use Rattle.ips_change.specs.Told.{naming};
ghost use Rattle.ips_change.specs.survey.Rows.{HasLooked, IsRowOf};
ghost use Rattle.ips_change.specs.survey.Marks.{row_paths};
ghost use Rattle.ips_change.specs.survey.Tables.{IsTable};
ghost use Rattle.ips_change.specs.declared.survey.said.Said.{Said};
ghost use Rattle.ips_aside.specs.sides.Sides.{AddsSides, AreSides};

use crate::sides::naming::name_beside;
use crate::sides::putting::put_beside;
use crate::sides::side::Side;
use ips_change::survey::Row;
use ips_outside::{Failed, Source};
use ips_text::Or;
use std::alloc::Global;

/// The files that are put beside the rows' paths, in the rows' order. It looks only at names beside paths, and only where no row has something that
/// was or is wanted there.
pub fn sides<'a, S: Source>(
    alloc: Global,
    source: &mut S,
    rows: &[Row<'a>],
) -> Result<Vec<Side<'a>>, Or<Failed>>
    requires { IsStrictlySortedBy (slice_cmp nat_cmp) (row_paths rows.now) }
    ensures found { IsTrue (S.outside.tells source.old) → IfOk result (λ sides. (r : Request) (said : List (Option Said)) → IsProperRequest r → IsTable r rows.now said → AllByRecursion (HasLooked (S.outside.state source.old).held) rows.now
        → AreSides (naming r) (S.outside.state source.old).held (row_paths rows.now) sides.items) }
    ensures reads { Reads S.outside source.old source.new (HasFailed result) }
{
    let mut sides = Vec::new(alloc);
    match add_all(alloc, source, rows, &mut sides) {
        Ok(()) => Ok(sides),
        Err(fault) => Err(fault),
    }
}

// Adds the files that are put beside the rows' paths.
fn add_all<'a, S: Source>(
    alloc: Global,
    source: &mut S,
    rows: &[Row<'a>],
    sides: &mut Vec<Side<'a>>,
) -> Result<(), Or<Failed>>
    requires { IsStrictlySortedBy (slice_cmp nat_cmp) (row_paths rows.now) }
    ensures found { IsTrue (S.outside.tells source.old) → OnOk result ((r : Request) (said : List (Option Said)) → IsProperRequest r → IsTable r rows.now said → AllByRecursion (HasLooked (S.outside.state source.old).held) rows.now
        → AddsSides (naming r) (S.outside.state source.old).held (row_paths rows.now) sides.old.items sides.new.items) }
    ensures reads { Reads S.outside source.old source.new (HasFailed result) }
{
    for i in 0..rows.len() {
        add(alloc, source, rows, &rows[i], sides)?;
    }
    Ok(())
}

// Adds the file that is put beside the row's path, if one is.
fn add<'a, S: Source>(
    alloc: Global,
    source: &mut S,
    rows: &[Row<'a>],
    row: &Row<'a>,
    sides: &mut Vec<Side<'a>>,
) -> Result<(), Or<Failed>>
    requires { IsStrictlySortedBy (slice_cmp nat_cmp) (row_paths rows.now) }
    ensures found { IsTrue (S.outside.tells source.old) → OnOk result ((r : Request) (said : List (Option Said)) → IsProperRequest r → IsTable r rows.now said → IsRowOf r row.now → HasLooked (S.outside.state source.old).held row.now
        → AddsSides (naming r) (S.outside.state source.old).held (row.now.path.now.bytes ∷ []) sides.old.items sides.new.items) }
    ensures reads { Reads S.outside source.old source.new (HasFailed result) }
{
    let Some(put) = put_beside(row) else {
        return Ok(());
    };
    let name = name_beside(alloc, source, rows, row.path, put)?;
    sides.push(Side {
        path: row.path,
        put,
        name,
    })?;
    Ok(())
}
