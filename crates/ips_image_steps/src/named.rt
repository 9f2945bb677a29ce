//! Where what is saved goes, and the steps from there.

ghost use Rattle.std.specs.Prelude.{◌≡◌, [], ◌++◌, ℕ, List, IsTrue, IfOk};
ghost use Rattle.std.specs.List.Sorted.{IsStrictlySortedBy};
ghost use Rattle.std.specs.Ordering.{nat_cmp};
ghost use Rattle.std.specs.Cmp.Lexicographic.{slice_cmp};
ghost use Rattle.ips_text.specs.Path.{IsPath};
ghost use Rattle.ips_outside.specs.Image.{Image};
ghost use Rattle.ips_outside.specs.Outside.{Reads};
ghost use Rattle.ips_after.specs.Request.{Request};
ghost use Rattle.ips_after.specs.Salvage.{IsRoot};
ghost use Rattle.ips_aside.specs.lost_and_found.Moments.{NamesMoment};
ghost use Rattle.ips_change.specs.content.Failing.{HasFailed};
ghost use Rattle.ips_emit.specs.Emitted.{IsEmitted};
ghost use Rattle.ips_emptied.specs.Joining.{HasAll};
ghost use Rattle.ips_found.specs.Found.{thing_paths};
ghost use Rattle.ips_image_steps.specs.Asked.{HasOwnFolder, HasRequest, IsAsked};
ghost use Rattle.ips_image_steps.specs.Answers.{IsAnswer};
ghost use Rattle.ips_image_steps.specs.Findings.{AreFiles, AreSaved, IsSettled};

use crate::found::add_found;
use ips_aside::lost_and_found::salvage_root;
use ips_aside::sides::{Side, sides};
use ips_aside::{find_ways, lost_names};
use ips_change::survey::Table;
use ips_emit::Emitted;
use ips_emptied::Settled;
use ips_folder::Folder;
use ips_found::Thing;
use ips_laying::Laying;
use ips_outside::Failed;
use ips_text::{Or, RelPath};
use std::alloc::Global;

/// The same, where moreover it is known what is salvaged.
pub(crate) fn add_saving<F: Folder, L: Laying>(
    alloc: Global,
    folder: &mut F,
    table: &Table<'_>,
    laying: &L,
    moment: &str,
    settled: &Settled<'_>,
    things: &[Thing],
    emitted: &mut Emitted,
) -> Result<Option<RelPath>, Or<Failed>>
    requires moment { NamesMoment moment.now }
    requires request { HasRequest table.now.rows.items table.now.said.items }
    requires whole { HasAll table.now.rows.items settled.now }
    requires order { IsStrictlySortedBy (slice_cmp nat_cmp) (thing_paths things.now) }
    requires settled { IsTrue (F.outside.tells folder.old) → IsSettled (F.outside.state folder.old).held table.now.rows.items table.now.said.items settled.now }
    requires saved { IsTrue (F.outside.tells folder.old) → AreSaved (F.outside.state folder.old).held table.now.rows.items table.now.said.items things.now }
    requires none { (bytes : List ℕ → List ℕ) (t : Image) → IsEmitted bytes t [] [] emitted.old }
    ensures told { IsTrue (F.outside.tells folder.old) → IfOk result (λ hindrance. (r : Request) → IsAsked (L.laid laying.now) table.now.rows.items table.now.said.items r → HasOwnFolder r (F.outside.state folder.old).held
        → IsAnswer moment.now r (F.outside.state folder.old).held hindrance emitted.new) }
    ensures reads { Reads F.outside folder.old folder.new (HasFailed result) }
{
    let sides = sides(alloc, folder, &table.rows)?;
    add_beside(
        alloc, folder, table, laying, moment, settled, things, &sides, emitted,
    )
}

// The same, where moreover it is known which files are put beside paths.
fn add_beside<'a, F: Folder, L: Laying>(
    alloc: Global,
    folder: &mut F,
    table: &Table<'_>,
    laying: &L,
    moment: &str,
    settled: &Settled<'_>,
    things: &[Thing],
    sides: &[Side<'a>],
    emitted: &mut Emitted,
) -> Result<Option<RelPath>, Or<Failed>>
    requires moment { NamesMoment moment.now }
    requires request { HasRequest table.now.rows.items table.now.said.items }
    requires whole { HasAll table.now.rows.items settled.now }
    requires order { IsStrictlySortedBy (slice_cmp nat_cmp) (thing_paths things.now) }
    requires settled { IsTrue (F.outside.tells folder.old) → IsSettled (F.outside.state folder.old).held table.now.rows.items table.now.said.items settled.now }
    requires saved { IsTrue (F.outside.tells folder.old) → AreSaved (F.outside.state folder.old).held table.now.rows.items table.now.said.items things.now }
    requires files { IsTrue (F.outside.tells folder.old) → AreFiles (F.outside.state folder.old).held table.now.rows.items table.now.said.items sides.now }
    requires none { (bytes : List ℕ → List ℕ) (t : Image) → IsEmitted bytes t [] [] emitted.old }
    ensures told { IsTrue (F.outside.tells folder.old) → IfOk result (λ hindrance. (r : Request) → IsAsked (L.laid laying.now) table.now.rows.items table.now.said.items r → HasOwnFolder r (F.outside.state folder.old).held
        → IsAnswer moment.now r (F.outside.state folder.old).held hindrance emitted.new) }
    ensures reads { Reads F.outside folder.old folder.new (HasFailed result) }
{
    let root = salvage_root(alloc, folder, moment)?;
    is_path(&root);
    add_named(
        alloc, folder, table, laying, moment, settled, things, sides, &root, emitted,
    )
}

// The bytes of a path are one, as its type says.
fn is_path(path: &RelPath)
    ensures { IsPath path.now.bytes }
{
    let _bytes = path.bytes();
}

// The same, where moreover it is known which the folder is.
fn add_named<'a, F: Folder, L: Laying>(
    alloc: Global,
    folder: &mut F,
    table: &Table<'_>,
    laying: &L,
    moment: &str,
    settled: &Settled<'_>,
    things: &[Thing],
    sides: &[Side<'a>],
    root: &RelPath,
    emitted: &mut Emitted,
) -> Result<Option<RelPath>, Or<Failed>>
    requires request { HasRequest table.now.rows.items table.now.said.items }
    requires whole { HasAll table.now.rows.items settled.now }
    requires order { IsStrictlySortedBy (slice_cmp nat_cmp) (thing_paths things.now) }
    requires path { IsPath root.now.bytes }
    requires settled { IsTrue (F.outside.tells folder.old) → IsSettled (F.outside.state folder.old).held table.now.rows.items table.now.said.items settled.now }
    requires saved { IsTrue (F.outside.tells folder.old) → AreSaved (F.outside.state folder.old).held table.now.rows.items table.now.said.items things.now }
    requires files { IsTrue (F.outside.tells folder.old) → AreFiles (F.outside.state folder.old).held table.now.rows.items table.now.said.items sides.now }
    requires root { IsTrue (F.outside.tells folder.old) → IsRoot (F.outside.state folder.old).held moment.now root.now.bytes }
    requires none { (bytes : List ℕ → List ℕ) (t : Image) → IsEmitted bytes t [] [] emitted.old }
    ensures told { IsTrue (F.outside.tells folder.old) → IfOk result (λ hindrance. (r : Request) → IsAsked (L.laid laying.now) table.now.rows.items table.now.said.items r → HasOwnFolder r (F.outside.state folder.old).held
        → IsAnswer moment.now r (F.outside.state folder.old).held hindrance emitted.new) }
    ensures reads { Reads F.outside folder.old folder.new (HasFailed result) }
{
    let names = lost_names(alloc, root, things, sides)?;
    let ways = find_ways(alloc, folder, root, things, &names)?;
    add_found(
        alloc, folder, table, laying, moment, settled, things, sides, root, &names, &ways, emitted,
    )
}
