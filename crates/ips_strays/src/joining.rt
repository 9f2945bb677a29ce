//! All that is salvaged, as one list.

ghost use Rattle.std.specs.Prelude.{◌≡◌, IsTrue, IfOk, OnOk, List, ℕ, ◌||◌, length};
ghost use Rattle.std.specs.List.{AllByRecursion};
ghost use Rattle.std.specs.List.Sorted.{IsStrictlySortedBy};
ghost use Rattle.std.specs.Ordering.{nat_cmp};
ghost use Rattle.std.specs.Cmp.Lexicographic.{slice_cmp};
ghost use Rattle.ips_outside.specs.Outside.{Reads};
ghost use Rattle.ips_after.specs.Lists.{listed};
ghost use Rattle.ips_after.specs.Request.{IsRequest, Request};
ghost use Rattle.ips_after.specs.Salvage as salvage;
ghost use Rattle.ips_change.specs.content.Failing.{HasFailed};
ghost use Rattle.ips_change.specs.Told.{naming};
ghost use Rattle.ips_change.specs.survey.Rows.{HasLooked};
ghost use Rattle.ips_change.specs.survey.Marks.{IsMarkOf, row_paths};
ghost use Rattle.ips_change.specs.survey.Tables.{IsTable};
ghost use Rattle.ips_salvage.specs.Destroying.{destroys_else};
ghost use Rattle.ips_found.specs.Found.{AreThings, thing_paths};
ghost use Rattle.ips_strays.specs.Strays.{saved_at};

use crate::marked::add_marked;
use crate::straying::{sort, strays};
use ips_change::survey::Table;
use ips_folder::Folder;
use ips_found::Thing;
use ips_outside::Failed;
use ips_salvage::salvaged;
use ips_text::Or;
use std::alloc::Global;

/// Just the paths at which something is salvaged, by bytes, each once, with what stands there, by the marks of what is destroyed. Beside what goes
/// without a row it looks only at rows that are salvaged and don't know what stands, lists directories, and reads what symbolic links say.
pub fn things<F: Folder>(
    alloc: Global,
    folder: &mut F,
    table: &Table<'_>,
    destroyed: &[bool],
) -> Result<Vec<Thing>, Or<Failed>>
    requires order { IsStrictlySortedBy (slice_cmp nat_cmp) (row_paths table.now.rows.items) }
    requires said { length table.now.said.items ≡ length table.now.rows.items }
    requires destroyed { length destroyed.now ≡ length table.now.rows.items }
    requires looked { IsTrue (F.outside.tells folder.old) → AllByRecursion (HasLooked (F.outside.state folder.old).held) table.now.rows.items }
    ensures order { IfOk result (λ things. IsStrictlySortedBy (slice_cmp nat_cmp) (thing_paths things.items)) }
    ensures listed { IsTrue (F.outside.tells folder.old) → IfOk result (λ things. (r : Request) → IsRequest r → IsTable r table.now.rows.items table.now.said.items
        → IsMarkOf (destroys_else (naming r) (F.outside.state folder.old).held) (row_paths table.now.rows.items) destroyed.now
        → (q : List ℕ) → listed (thing_paths things.items) q ≡ salvage.salvaged (naming r) (F.outside.state folder.old).held q) }
    ensures found { IsTrue (F.outside.tells folder.old) → IfOk result (λ things. AreThings (F.outside.state folder.old).held things.items) }
    ensures reads { Reads F.outside folder.old folder.new (HasFailed result) }
{
    let mut things = strays(alloc, folder, table, destroyed)?;
    add_rows(alloc, folder, table, destroyed, &mut things)?;
    Ok(things)
}

// Adds what is salvaged at the paths of rows, and puts all by bytes.
fn add_rows<F: Folder>(
    alloc: Global,
    folder: &mut F,
    table: &Table<'_>,
    destroyed: &[bool],
    things: &mut Vec<Thing>,
) -> Result<(), Or<Failed>>
    requires order { IsStrictlySortedBy (slice_cmp nat_cmp) (row_paths table.now.rows.items) }
    requires said { length table.now.said.items ≡ length table.now.rows.items }
    requires destroyed { length destroyed.now ≡ length table.now.rows.items }
    requires looked { IsTrue (F.outside.tells folder.old) → AllByRecursion (HasLooked (F.outside.state folder.old).held) table.now.rows.items }
    ensures order { OnOk result (IsStrictlySortedBy (slice_cmp nat_cmp) (thing_paths things.new.items)) }
    ensures listed { IsTrue (F.outside.tells folder.old) → OnOk result ((r : Request) → IsTable r table.now.rows.items table.now.said.items
        → IsMarkOf (destroys_else (naming r) (F.outside.state folder.old).held) (row_paths table.now.rows.items) destroyed.now
        → (q : List ℕ) → listed (thing_paths things.new.items) q ≡ (listed (thing_paths things.old.items) q || saved_at (naming r) (F.outside.state folder.old).held (row_paths table.now.rows.items) q)) }
    ensures found { IsTrue (F.outside.tells folder.old) → OnOk result (AreThings (F.outside.state folder.old).held things.old.items → AreThings (F.outside.state folder.old).held things.new.items) }
    ensures reads { Reads F.outside folder.old folder.new (HasFailed result) }
{
    let saved = salvaged(alloc, folder, table, destroyed)?;
    add_marked(alloc, folder, &table.rows, &saved, things)?;
    sort(things)?;
    Ok(())
}
