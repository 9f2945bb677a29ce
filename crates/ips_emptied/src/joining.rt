//! What becomes of each path of a table.

ghost use Rattle.std.specs.Prelude.{◌≡◌, IsTrue, IfOk, length, map};
ghost use Rattle.std.specs.List.{AllByRecursion};
ghost use Rattle.std.specs.List.Sorted.{IsStrictlySortedBy};
ghost use Rattle.std.specs.Ordering.{nat_cmp};
ghost use Rattle.std.specs.Cmp.Lexicographic.{slice_cmp};
ghost use Rattle.ips_outside.specs.Outside.{Reads};
ghost use Rattle.ips_after.specs.Request.{IsRequest, Request};
ghost use Rattle.ips_change.specs.content.Failing.{HasFailed};
ghost use Rattle.ips_change.specs.survey.Rows.{HasLooked};
ghost use Rattle.ips_change.specs.survey.Marks.{row_paths};
ghost use Rattle.ips_change.specs.survey.Tables.{IsTable};
ghost use Rattle.ips_emptied.specs.Joining.{HasAll, SettlesRows};

use crate::emptying::emptied;
use crate::settled::Settled;
use ips_change::survey::Table;
use ips_folder::Folder;
use ips_links::{links, needs, supported, supports};
use ips_outside::Failed;
use ips_text::Or;
use std::alloc::Global;

/// What becomes of each row of the table. It looks only at paths of which a rule asks and no row knows, and lists only directories that may be emptied.
///
/// # Errors
///
/// `Bad` where the folder failed.
pub fn settle<'a, F: Folder>(
    alloc: Global,
    folder: &mut F,
    table: &Table<'a>,
) -> Result<Settled<'a>, Or<Failed>>
    requires order { IsStrictlySortedBy (slice_cmp nat_cmp) (row_paths table.now.rows.items) }
    requires said { length table.now.said.items ≡ length table.now.rows.items }
    requires looked { IsTrue (F.outside.tells folder.old) → AllByRecursion (HasLooked (F.outside.state folder.old).held) table.now.rows.items }
    ensures whole { IfOk result (HasAll table.now.rows.items) }
    ensures found { IsTrue (F.outside.tells folder.old) → IfOk result (λ settled. (r : Request) → IsRequest r → IsTable r table.now.rows.items table.now.said.items → SettlesRows r (F.outside.state folder.old).held table.now.rows.items settled) }
    ensures reads { Reads F.outside folder.old folder.new (HasFailed result) }
{
    let needs = needs(alloc, folder, table)?;
    let linked = links(alloc, table, &needs)?;
    let supports = supports(alloc, folder, table, &linked)?;
    let changes = supported(alloc, table, &linked, &supports)?;
    let emptied = emptied(alloc, folder, table, &changes, &supports)?;
    Ok(Settled {
        changes,
        supports,
        emptied,
    })
}
