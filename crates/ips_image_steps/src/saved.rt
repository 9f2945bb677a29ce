//! What is salvaged, and the steps from there.

ghost use Rattle.std.specs.Prelude.{◌≡◌, [], ℕ, List, IsTrue, IfOk, length};
ghost use Rattle.std.specs.List.Sorted.{IsStrictlySortedBy};
ghost use Rattle.std.specs.Ordering.{nat_cmp};
ghost use Rattle.std.specs.Cmp.Lexicographic.{slice_cmp};
ghost use Rattle.ips_outside.specs.Image.{Image};
ghost use Rattle.ips_outside.specs.Outside.{Reads};
ghost use Rattle.ips_after.specs.Request.{Request};
ghost use Rattle.ips_aside.specs.lost_and_found.Moments.{NamesMoment};
ghost use Rattle.ips_change.specs.content.Failing.{HasFailed};
ghost use Rattle.ips_emit.specs.Emitted.{IsEmitted};
ghost use Rattle.ips_emptied.specs.Joining.{HasAll};
ghost use Rattle.ips_found.specs.Found.{thing_paths};
ghost use Rattle.ips_image_steps.specs.Asked.{HasOwnFolder, HasRequest, IsAsked};
ghost use Rattle.ips_image_steps.specs.Answers.{IsAnswer};
ghost use Rattle.ips_image_steps.specs.Findings.{AreSaved, IsSettled};

use crate::named::add_saving;
use ips_change::survey::Table;
use ips_emit::Emitted;
use ips_emptied::Settled;
use ips_folder::Folder;
use ips_found::Thing;
use ips_laying::Laying;
use ips_outside::Failed;
use ips_salvage::destroyed;
use ips_strays::things;
use ips_text::{Or, RelPath};
use std::alloc::Global;

/// The same, where it is known what becomes of each path.
pub(crate) fn add_settled<F: Folder, L: Laying>(
    alloc: Global,
    folder: &mut F,
    table: &Table<'_>,
    laying: &L,
    moment: &str,
    settled: &Settled<'_>,
    emitted: &mut Emitted,
) -> Result<Option<RelPath>, Or<Failed>>
    requires moment { NamesMoment moment.now }
    requires request { HasRequest table.now.rows.items table.now.said.items }
    requires whole { HasAll table.now.rows.items settled.now }
    requires settled { IsTrue (F.outside.tells folder.old) → IsSettled (F.outside.state folder.old).held table.now.rows.items table.now.said.items settled.now }
    requires none { (bytes : List ℕ → List ℕ) (t : Image) → IsEmitted bytes t [] [] emitted.old }
    ensures told { IsTrue (F.outside.tells folder.old) → IfOk result (λ hindrance. (r : Request) → IsAsked (L.laid laying.now) table.now.rows.items table.now.said.items r → HasOwnFolder r (F.outside.state folder.old).held
        → IsAnswer moment.now r (F.outside.state folder.old).held hindrance emitted.new) }
    ensures reads { Reads F.outside folder.old folder.new (HasFailed result) }
{
    let things = saved_things(alloc, folder, table, settled)?;
    add_saving(
        alloc, folder, table, laying, moment, settled, &things, emitted,
    )
}

// What is salvaged.
fn saved_things<F: Folder>(
    alloc: Global,
    folder: &mut F,
    table: &Table<'_>,
    settled: &Settled<'_>,
) -> Result<Vec<Thing>, Or<Failed>>
    requires request { HasRequest table.now.rows.items table.now.said.items }
    requires whole { HasAll table.now.rows.items settled.now }
    requires settled { IsTrue (F.outside.tells folder.old) → IsSettled (F.outside.state folder.old).held table.now.rows.items table.now.said.items settled.now }
    ensures order { IfOk result (λ things. IsStrictlySortedBy (slice_cmp nat_cmp) (thing_paths things.items)) }
    ensures saved { IsTrue (F.outside.tells folder.old) → IfOk result (λ things. AreSaved (F.outside.state folder.old).held table.now.rows.items table.now.said.items things.items) }
    ensures reads { Reads F.outside folder.old folder.new (HasFailed result) }
{
    let destroyed = destroyed(alloc, table, &settled.changes)?;
    things(alloc, folder, table, &destroyed)
}
