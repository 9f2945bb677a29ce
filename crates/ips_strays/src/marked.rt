//! What stands at rows, added to a list of things.

ghost use Rattle.std.specs.Prelude.{◌≡◌, ◌&&◌, ℕ, Bool, IsTrue, OnOk, List, length, map};
ghost use Rattle.std.specs.List.{AllByRecursion, list_any};
ghost use Rattle.ips_text.specs.Ancestry.{same_path};
ghost use Rattle.ips_outside.specs.Outside.{Reads};
ghost use Rattle.ips_change.specs.content.Failing.{HasFailed};
ghost use Rattle.ips_change.specs.survey.Rows.{HasLooked};
ghost use Rattle.ips_change.specs.survey.Marks.{row_paths};
ghost use Rattle.ips_found.specs.Found.{AreThings};
ghost use Rattle.ips_strays.specs.Strays.{Adds};

use crate::adding::add;
use crate::finding::found_at;
use ips_change::survey::Row;
use ips_folder::Folder;
use ips_found::Thing;
use ips_outside::Failed;
use ips_text::Or;
use std::alloc::Global;

// Adds what stands at the paths of the rows that are marked.
pub(crate) fn add_marked<F: Folder>(
    alloc: Global,
    folder: &mut F,
    rows: &[Row<'_>],
    marks: &[bool],
    things: &mut Vec<Thing>,
) -> Result<(), Or<Failed>>
    requires marks { length marks.now ≡ length rows.now }
    requires looked { IsTrue (F.outside.tells folder.old) → AllByRecursion (HasLooked (F.outside.state folder.old).held) rows.now }
    ensures found { IsTrue (F.outside.tells folder.old) → OnOk result ((test : List ℕ → Bool) → marks.now ≡ map test (row_paths rows.now)
        → Adds (F.outside.state folder.old).held (λ q. list_any (λ p. test p && same_path p q) (row_paths rows.now)) things.old.items things.new.items) }
    ensures things { IsTrue (F.outside.tells folder.old) → OnOk result (AreThings (F.outside.state folder.old).held things.old.items → AreThings (F.outside.state folder.old).held things.new.items) }
    ensures reads { Reads F.outside folder.old folder.new (HasFailed result) }
{
    for i in 0..rows.len() {
        let row = &rows[i];
        if marks[i] {
            add_row(alloc, folder, row, things)?;
        }
    }
    Ok(())
}

/// Adds what stands at the row's path.
pub fn add_row<F: Folder>(
    alloc: Global,
    folder: &mut F,
    row: &Row<'_>,
    things: &mut Vec<Thing>,
) -> Result<(), Or<Failed>>
    requires looked { IsTrue (F.outside.tells folder.old) → HasLooked (F.outside.state folder.old).held row.now }
    ensures found { IsTrue (F.outside.tells folder.old) → OnOk result (Adds (F.outside.state folder.old).held (same_path row.now.path.now.bytes) things.old.items things.new.items) }
    ensures reads { Reads F.outside folder.old folder.new (HasFailed result) }
{
    if let Some(found) = found_at(alloc, folder, row)? {
        add(alloc, row.path, found, things)?;
    }
    Ok(())
}
