//! The steps by all that was found.

ghost use Rattle.std.specs.Prelude.{◌≡◌, [], ◌++◌, ℕ, List, IsTrue, IfOk, IfNone, OnOk};
ghost use Rattle.std.specs.List.{AllByRecursion};
ghost use Rattle.std.specs.List.Sorted.{IsStrictlySortedBy};
ghost use Rattle.std.specs.Option.{option_map};
ghost use Rattle.std.specs.Ordering.{nat_cmp};
ghost use Rattle.std.specs.Cmp.Lexicographic.{slice_cmp};
ghost use Rattle.ips_text.specs.Path.{IsPath};
ghost use Rattle.ips_outside.specs.Image.{Image};
ghost use Rattle.ips_outside.specs.Outside.{Reads};
ghost use Rattle.ips_after.specs.Lists.{listed};
ghost use Rattle.ips_after.specs.Request.{Request};
ghost use Rattle.ips_after.specs.Salvage.{Aside, IsRoot, is_unmovable, salvaged};
ghost use Rattle.ips_change.specs.content.Failing.{HasFailed};
ghost use Rattle.ips_emit.specs.Emitted.{IsEmitted};
ghost use Rattle.ips_emptied.specs.Joining.{HasAll};
ghost use Rattle.ips_found.specs.Found.{AreThings, thing_paths};
ghost use Rattle.ips_movable.specs.First.{IsFirstPath, loses_foreign};
ghost use Rattle.ips_movable.specs.Movable.{CanMove};
ghost use Rattle.ips_aside.specs.Lost.{AreLostNames, AreNamesOf, folder_paths, names_of};
ghost use Rattle.ips_aside.specs.Ways.{IsMarkedAbove, IsStandingAbove, bytes_if_any};
ghost use Rattle.ips_image_steps.specs.Asked.{HasOwnFolder, HasRequest, IsAsked};
ghost use Rattle.ips_image_steps.specs.Answers.{IsAnswer};
ghost use Rattle.ips_image_steps.specs.Findings.{AddsAll, AreFiles, AreFound, AreSaved, FirstHindered, IsSettled};

use crate::draft::drafted_saving_steps_are_a_plan;
use crate::plan_steps::draw;
use crate::saving::add_saved;
use ips_aside::sides::Side;
use ips_aside::{LostName, Ways, first_long_side};
use ips_change::survey::Table;
use ips_emit::Emitted;
use ips_emptied::Settled;
use ips_folder::Folder;
use ips_found::Thing;
use ips_laying::Laying;
use ips_outside::Failed;
use ips_strays::foreign::foreign;
use ips_text::{Or, RelPath};
use ips_unmovable::unmovable;
use std::alloc::{AllocError, Global};

/// The same, where all else is known: the names of files in the folder, and the directories that are missing.
pub(crate) fn add_found<'a, F: Folder, L: Laying>(
    alloc: Global,
    folder: &mut F,
    table: &Table<'_>,
    laying: &L,
    moment: &str,
    settled: &Settled<'_>,
    things: &[Thing],
    sides: &[Side<'a>],
    root: &RelPath,
    names: &[LostName<'a>],
    ways: &Ways,
    emitted: &mut Emitted,
) -> Result<Option<RelPath>, Or<Failed>>
    requires request { HasRequest table.now.rows.items table.now.said.items }
    requires whole { HasAll table.now.rows.items settled.now }
    requires order { IsStrictlySortedBy (slice_cmp nat_cmp) (thing_paths things.now) }
    requires path { IsPath root.now.bytes }
    requires names { AreLostNames root.now.bytes (thing_paths things.now) sides.now names.now }
    requires above { IsMarkedAbove ways.now.above (folder_paths root.now.bytes (thing_paths things.now) ++ names_of names.now) }
    requires settled { IsTrue (F.outside.tells folder.old) → IsSettled (F.outside.state folder.old).held table.now.rows.items table.now.said.items settled.now }
    requires saved { IsTrue (F.outside.tells folder.old) → AreSaved (F.outside.state folder.old).held table.now.rows.items table.now.said.items things.now }
    requires files { IsTrue (F.outside.tells folder.old) → AreFiles (F.outside.state folder.old).held table.now.rows.items table.now.said.items sides.now }
    requires root { IsTrue (F.outside.tells folder.old) → IsRoot (F.outside.state folder.old).held moment.now root.now.bytes }
    requires standing { IsTrue (F.outside.tells folder.old) → IsStandingAbove (F.outside.state folder.old).held root.now.bytes (bytes_if_any ways.now.standing) }
    requires none { (bytes : List ℕ → List ℕ) (t : Image) → IsEmitted bytes t [] [] emitted.old }
    ensures told { IsTrue (F.outside.tells folder.old) → IfOk result (λ hindrance. (r : Request) → IsAsked (L.laid laying.now) table.now.rows.items table.now.said.items r → HasOwnFolder r (F.outside.state folder.old).held
        → IsAnswer moment.now r (F.outside.state folder.old).held hindrance emitted.new) }
    ensures reads { Reads F.outside folder.old folder.new (HasFailed result) }
{
    match first_hindered(alloc, folder, table, settled, things, sides, root, names)? {
        Some(path) => Ok(Some(path)),
        None => {
            add_all(
                alloc, table, laying, settled, things, sides, root, names, ways, emitted,
            )?;
            drafted_saving_steps_are_a_plan();
            Ok(None)
        }
    }
}

// The first path at which the request can't be carried out, where there is one.
fn first_hindered<'a, F: Folder>(
    alloc: Global,
    folder: &mut F,
    table: &Table<'_>,
    settled: &Settled<'_>,
    things: &[Thing],
    sides: &[Side<'a>],
    root: &RelPath,
    names: &[LostName<'a>],
) -> Result<Option<RelPath>, Or<Failed>>
    requires request { HasRequest table.now.rows.items table.now.said.items }
    requires whole { HasAll table.now.rows.items settled.now }
    requires order { IsStrictlySortedBy (slice_cmp nat_cmp) (thing_paths things.now) }
    requires settled { IsTrue (F.outside.tells folder.old) → IsSettled (F.outside.state folder.old).held table.now.rows.items table.now.said.items settled.now }
    requires saved { IsTrue (F.outside.tells folder.old) → AreSaved (F.outside.state folder.old).held table.now.rows.items table.now.said.items things.now }
    ensures movable { IfOk result (λ hindrance. IfNone hindrance (AllByRecursion (CanMove root.now.bytes) things.now)) }
    ensures first { IsTrue (F.outside.tells folder.old) → IfOk result (FirstHindered (F.outside.state folder.old).held table.now.rows.items table.now.said.items settled.now (thing_paths things.now) sides.now root.now.bytes names.now) }
    ensures reads { Reads F.outside folder.old folder.new (HasFailed result) }
{
    let foreign = foreign(alloc, folder, table, &settled.changes, &settled.emptied)?;
    match first_of_all(alloc, things, sides, root, names, foreign.as_ref()) {
        Ok(hindrance) => Ok(hindrance),
        Err(_) => Err(Or::OutOfMemory),
    }
}

// The same, by the first directory that would lose names that are no paths, where there is one.
fn first_of_all<'a>(
    alloc: Global,
    things: &[Thing],
    sides: &[Side<'a>],
    root: &RelPath,
    names: &[LostName<'a>],
    foreign: Option<&RelPath>,
) -> Result<Option<RelPath>, AllocError>
    requires { IsStrictlySortedBy (slice_cmp nat_cmp) (thing_paths things.now) }
    ensures movable { IfOk result (λ hindrance. IfNone hindrance (AllByRecursion (CanMove root.now.bytes) things.now)) }
    ensures first { IfOk result (λ hindrance. (r : Request) (t : Image) (a : Aside) → a.root ≡ root.now.bytes → AreThings t things.now → ((q : List ℕ) → listed (thing_paths things.now) q ≡ salvaged r t q)
        → AreNamesOf r t a (thing_paths things.now) sides.now names.now → IsFirstPath (loses_foreign r t a.emptied) (option_map (λ x. x.now) foreign.entry) → IsFirstPath (is_unmovable r t a) hindrance) }
{
    let long = first_long_side(sides, names);
    match unmovable(things, root, foreign, long) {
        Some(path) => Ok(Some(path.copy(alloc)?)),
        None => Ok(None),
    }
}

// Adds the steps of what is saved, and behind them those of the plan.
fn add_all<'a, L: Laying>(
    alloc: Global,
    table: &Table<'_>,
    laying: &L,
    settled: &Settled<'_>,
    things: &[Thing],
    sides: &[Side<'a>],
    root: &RelPath,
    names: &[LostName<'a>],
    ways: &Ways,
    emitted: &mut Emitted,
) -> Result<(), AllocError>
    requires request { HasRequest table.now.rows.items table.now.said.items }
    requires whole { HasAll table.now.rows.items settled.now }
    requires movable { AllByRecursion (CanMove root.now.bytes) things.now }
    requires none { (bytes : List ℕ → List ℕ) (t : Image) → IsEmitted bytes t [] [] emitted.old }
    ensures { OnOk result ((r : Request) (t : Image) (a : Aside) → IsAsked (L.laid laying.now) table.now.rows.items table.now.said.items r → AreFound r t a table.now settled.now things.now sides.now names.now ways.now → a.root ≡ root.now.bytes
        → AddsAll r t a table.now settled.now emitted.new) }
{
    add_saved(alloc, emitted, root, things, sides, names, ways)?;
    draw(alloc, emitted, table, settled, laying)
}
