//! What is gathered from the image for a repair, one thing behind the other: what becomes of the wanted paths, what is salvaged, the folder for that, and the directories on
//! the way.

ghost use Rattle.std.specs.Prelude.{◌≡◌, ◌++◌, [], IfOk, IsTrue, None, map};
ghost use Rattle.std.specs.List.{AllByRecursion};
ghost use Rattle.std.specs.List.Sorted.{IsStrictlySortedBy};
ghost use Rattle.std.specs.Ordering.{nat_cmp};
ghost use Rattle.std.specs.Cmp.Lexicographic.{slice_cmp};
ghost use Rattle.ips_text.specs.Path.{IsPath};
ghost use Rattle.ips_text.specs.Reading.{IfBad};
ghost use Rattle.ips_outside.specs.Image.{is_dir};
ghost use Rattle.ips_steps.specs.Private.{records_name};
ghost use Rattle.ips_aside.specs.lost_and_found.Moments.{NamesMoment};
ghost use Rattle.ips_after.specs.Findings.{findings};
ghost use Rattle.ips_after.specs.Salvage.{IsRoot};
ghost use Rattle.ips_change.specs.wanted.Named.{is_payload_of};
ghost use Rattle.ips_change.specs.wanted.Wanted.{want_of};
ghost use Rattle.ips_verify.specs.Verified.{finding_told};
ghost use Rattle.ips_found.specs.Found.{thing_paths};
ghost use Rattle.ips_movable.specs.Movable.{CanMove};
ghost use Rattle.ips_due.specs.Asked.{AreMeant};
ghost use Rattle.ips_repair.specs.Gathered.{AreChangesFor, AreMended, AreSaved, IsGathered, NothingHinders};
ghost use Rattle.ips_repair.specs.Repairing.{IsUnmovable, PlansRepair};

use crate::drawing::{checked, draw};
use crate::fault::RepairFault;
use crate::putting::history_to_put;
use ips_aside::lost_and_found::salvage_root;
use ips_aside::{Ways, find_ways};
use ips_change::Change;
use ips_emit::Emitted;
use ips_folder::Folder;
use ips_found::Thing;
use ips_meaning::{Finding, Want};
use ips_mend::displaced::displaced;
use ips_mend::mended::{mend, mended_changes_have_targets};
use ips_outside::Failed;
use ips_request_due::repairs::{repairs_are_lawful, repairs_hang_together};
use ips_state::State;
use ips_text::{Or, RelPath};
use ips_unmovable::unmovable;
use std::alloc::{AllocError, Global};

/// The steps of the repair at the moment of this text, by what is found.
pub(crate) fn repair_at<F: Folder>(
    alloc: Global,
    new: &State,
    want: &Want,
    found: &[Finding],
    text: &str,
    folder: &mut F,
) -> Result<Emitted, Or<RepairFault>>
    requires moment { NamesMoment text.now }
    requires meant { AreMeant new.now.settings new.now.mediators.items new.now.installed.items want.now }
    requires found { IsTrue (F.outside.tells folder.old) → map finding_told found.now ≡ findings is_payload_of (want_of want.now) (F.outside.state folder.old).held }
    requires records { IsTrue (F.outside.tells folder.old) → IsTrue (is_dir ((F.outside.state folder.old).held.look records_name)) }
    ensures plans { PlansRepair F.outside text.now new.now.history.items want.now folder.old folder.new result }
{
    mended_changes_have_targets();
    match mend(alloc, folder, want, found) {
        Ok(changes) => repair_by(alloc, new, want, &changes, text, folder),
        Err(Or::Bad(Failed)) => Err(Or::Bad(RepairFault::FolderFault)),
        Err(Or::OutOfMemory) => Err(Or::OutOfMemory),
    }
}

// The same, where it is known what becomes of the wanted paths.
fn repair_by<F: Folder>(
    alloc: Global,
    new: &State,
    want: &Want,
    changes: &[Change<'_>],
    text: &str,
    folder: &mut F,
) -> Result<Emitted, Or<RepairFault>>
    requires moment { NamesMoment text.now }
    requires changes { AreChangesFor new.now want.now changes.now }
    requires mended { IsTrue (F.outside.tells folder.old) → AreMended (F.outside.state folder.old).held want.now changes.now }
    requires records { IsTrue (F.outside.tells folder.old) → IsTrue (is_dir ((F.outside.state folder.old).held.look records_name)) }
    ensures plans { PlansRepair F.outside text.now new.now.history.items want.now folder.old folder.new result }
{
    match displaced(alloc, folder, want, changes) {
        Ok(things) => repair_saving(alloc, new, want, changes, &things, text, folder),
        Err(Or::Bad(Failed)) => Err(Or::Bad(RepairFault::FolderFault)),
        Err(Or::OutOfMemory) => Err(Or::OutOfMemory),
    }
}

// The same, where moreover it is known what is salvaged.
fn repair_saving<F: Folder>(
    alloc: Global,
    new: &State,
    want: &Want,
    changes: &[Change<'_>],
    things: &[Thing],
    text: &str,
    folder: &mut F,
) -> Result<Emitted, Or<RepairFault>>
    requires moment { NamesMoment text.now }
    requires changes { AreChangesFor new.now want.now changes.now }
    requires order { IsStrictlySortedBy (slice_cmp nat_cmp) (thing_paths things.now) }
    requires mended { IsTrue (F.outside.tells folder.old) → AreMended (F.outside.state folder.old).held want.now changes.now }
    requires saved { IsTrue (F.outside.tells folder.old) → AreSaved (F.outside.state folder.old).held want.now things.now }
    requires records { IsTrue (F.outside.tells folder.old) → IsTrue (is_dir ((F.outside.state folder.old).held.look records_name)) }
    ensures plans { PlansRepair F.outside text.now new.now.history.items want.now folder.old folder.new result }
{
    match salvage_root(alloc, folder, text) {
        Ok(root) => {
            is_path(&root);
            repair_into(alloc, new, want, changes, things, &root, text, folder)
        }
        Err(Or::Bad(Failed)) => Err(Or::Bad(RepairFault::FolderFault)),
        Err(Or::OutOfMemory) => Err(Or::OutOfMemory),
    }
}

// The bytes of a path are one, as its type says.
fn is_path(path: &RelPath)
    ensures { IsPath path.now.bytes }
{
    let _bytes = path.bytes();
}

// The same, where moreover it is known which the folder is.
fn repair_into<F: Folder>(
    alloc: Global,
    new: &State,
    want: &Want,
    changes: &[Change<'_>],
    things: &[Thing],
    root: &RelPath,
    text: &str,
    folder: &mut F,
) -> Result<Emitted, Or<RepairFault>>
    requires changes { AreChangesFor new.now want.now changes.now }
    requires order { IsStrictlySortedBy (slice_cmp nat_cmp) (thing_paths things.now) }
    requires path { IsPath root.now.bytes }
    requires mended { IsTrue (F.outside.tells folder.old) → AreMended (F.outside.state folder.old).held want.now changes.now }
    requires saved { IsTrue (F.outside.tells folder.old) → AreSaved (F.outside.state folder.old).held want.now things.now }
    requires root { IsTrue (F.outside.tells folder.old) → IsRoot (F.outside.state folder.old).held text.now root.now.bytes }
    requires records { IsTrue (F.outside.tells folder.old) → IsTrue (is_dir ((F.outside.state folder.old).held.look records_name)) }
    ensures plans { PlansRepair F.outside text.now new.now.history.items want.now folder.old folder.new result }
{
    match find_ways(alloc, folder, root, things, &[]) {
        Ok(ways) => repair_gathered(alloc, new, want, changes, things, root, &ways, text, folder),
        Err(Or::Bad(Failed)) => Err(Or::Bad(RepairFault::FolderFault)),
        Err(Or::OutOfMemory) => Err(Or::OutOfMemory),
    }
}

// The same, where all of that is known.
fn repair_gathered<F: Folder>(
    alloc: Global,
    new: &State,
    want: &Want,
    changes: &[Change<'_>],
    things: &[Thing],
    root: &RelPath,
    ways: &Ways,
    text: &str,
    folder: &mut F,
) -> Result<Emitted, Or<RepairFault>>
    requires changes { AreChangesFor new.now want.now changes.now }
    requires order { IsStrictlySortedBy (slice_cmp nat_cmp) (thing_paths things.now) }
    requires path { IsPath root.now.bytes }
    requires gathered { IsTrue (F.outside.tells folder.old) → IsGathered text.now (F.outside.state folder.old).held want.now changes.now things.now root.now.bytes ways.now }
    requires records { IsTrue (F.outside.tells folder.old) → IsTrue (is_dir ((F.outside.state folder.old).held.look records_name)) }
    ensures plans { PlansRepair F.outside text.now new.now.history.items want.now folder.old folder.new result }
{
    repairs_are_lawful();
    repairs_hang_together();
    match unmovable(things, root, None, None) {
        Some(path) => hindered(alloc, path),
        None => repair_movable(alloc, new, want, changes, things, root, ways, text, folder),
    }
}

// The repair can't be carried out at the path.
fn hindered(alloc: Global, path: &RelPath) -> Result<Emitted, Or<RepairFault>>
    ensures none { IfOk result (λ e. ⊥) }
    ensures path { IfBad result (IsUnmovable path.now.bytes) }
{
    match path.copy(alloc) {
        Ok(path) => Err(Or::Bad(RepairFault::Unmovable(path))),
        Err(AllocError) => Err(Or::OutOfMemory),
    }
}

// The same, where nothing hinders it.
fn repair_movable<F: Folder>(
    alloc: Global,
    new: &State,
    want: &Want,
    changes: &[Change<'_>],
    things: &[Thing],
    root: &RelPath,
    ways: &Ways,
    text: &str,
    folder: &mut F,
) -> Result<Emitted, Or<RepairFault>>
    requires changes { AreChangesFor new.now want.now changes.now }
    requires path { IsPath root.now.bytes }
    requires movable { AllByRecursion (CanMove root.now.bytes) things.now }
    requires gathered { IsTrue (F.outside.tells folder.old) → IsGathered text.now (F.outside.state folder.old).held want.now changes.now things.now root.now.bytes ways.now }
    requires free { IsTrue (F.outside.tells folder.old) → NothingHinders (F.outside.state folder.old).held root.now.bytes things.now }
    requires records { IsTrue (F.outside.tells folder.old) → IsTrue (is_dir ((F.outside.state folder.old).held.look records_name)) }
    ensures plans { PlansRepair F.outside text.now new.now.history.items want.now folder.old folder.new result }
{
    match history_to_put(alloc, new, folder) {
        Ok(put) => match draw(alloc, new, want, changes, things, root, ways, put) {
            Ok(emitted) => checked(emitted),
            Err(AllocError) => Err(Or::OutOfMemory),
        },
        Err(Or::Bad(Failed)) => Err(Or::Bad(RepairFault::FolderFault)),
        Err(Or::OutOfMemory) => Err(Or::OutOfMemory),
    }
}
