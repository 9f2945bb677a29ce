//! The modes of directories that stand, in which a step makes or takes away something.

ghost use Rattle.std.specs.Prelude.{◌≡◌, ◌<◌, ◌≤◌, ℕ, Bool, List, IsTrue, IsErr, OnOk, Some};
ghost use Rattle.std.specs.List.{All, list_any};
ghost use Rattle.ips_outside.specs.Children.{is_child};
ghost use Rattle.ips_outside.specs.Image.{Dir, is_dir};
ghost use Rattle.ips_outside.specs.Outside.{Reads};
ghost use Rattle.ips_outside.specs.Tearing.{in_set};
ghost use Rattle.ips_steps.specs.View.{step_of};
ghost use Rattle.ips_rehearse.specs.Asked as asked;
ghost use Rattle.ips_rehearse.specs.Going.{IsFound, IsMet, is_under};
ghost use Rattle.ips_rehearse.specs.Tried.{in_modes, IsFailure, KeepsModes};
ghost use Rattle.ips_text.specs.Ancestry.{covers, same_path};

use crate::modes::Modes;
use crate::sets::has;
use ips_folder::{Folder, ListFault, Listing};
use ips_outside::{Failed, Look, Source};
use ips_steps::Step;
use ips_text::{Or, RelPath, parent};
use std::alloc::{AllocError, Global};
use std::collections::BTreeSet;

/// Adds the modes of those of these directories that stand.
pub(crate) fn add_standing<F: Folder>(
    folder: &mut F,
    path: &mut RelPath,
    first: &BTreeSet<Vec<u8>>,
    modes: &mut Modes,
) -> Result<(), Failed>
    requires room { 1023 ≤ path.old.room }
    ensures room { 1023 ≤ path.new.room }
    ensures found { IsTrue (F.outside.tells folder.old) → OnOk result ((q : List ℕ) (m : ℕ) (f : Bool) → IsTrue (in_set first.now q)
        → (F.outside.state folder.old).held.look q ≡ Some (Dir m f) → IsTrue (in_modes modes.new.has m)) }
    ensures kept { KeepsModes modes.old.has modes.new.has }
    ensures reads { Reads F.outside folder.old folder.new (IsErr result) }
{
    for dir in first.iter() {
        add_dir(folder, path, dir, modes)?;
    }
    Ok(())
}

// Adds the mode of the directory that stands at the path, if one does.
fn add_dir<F: Folder>(
    folder: &mut F,
    path: &mut RelPath,
    dir: &[u8],
    modes: &mut Modes,
) -> Result<(), Failed>
    requires room { 1023 ≤ path.old.room }
    ensures room { 1023 ≤ path.new.room }
    ensures found { IsTrue (F.outside.tells folder.old) → OnOk result ((m : ℕ) (f : Bool)
        → (F.outside.state folder.old).held.look dir.now ≡ Some (Dir m f) → IsTrue (in_modes modes.new.has m)) }
    ensures kept { KeepsModes modes.old.has modes.new.has }
    ensures reads { Reads F.outside folder.old folder.new (IsErr result) }
{
    let Ok(()) = path.set(dir) else {
        // nothing stands at what is no path
        return Ok(());
    };
    if let Look::Dir { mode } = folder.look(path)? {
        modes.add(mode, true);
    }
    Ok(())
}

/// Adds the modes of the directories that hold something where it may go: at and below the paths of steps, but for modes, whose parent no
/// step makes.
pub(crate) fn add_going<F: Folder>(
    alloc: Global,
    folder: &mut F,
    steps: &[Step],
    made: &BTreeSet<Vec<u8>>,
    modes: &mut Modes,
) -> Result<(), Or<Failed>>
    ensures found { IsTrue (F.outside.tells folder.old) → OnOk result (All (IsFound (F.outside.state folder.old).held (in_set made.now) modes.new.has) steps.now) }
    ensures kept { KeepsModes modes.old.has modes.new.has }
    ensures reads { Reads F.outside folder.old folder.new (IsFailure result) }
{
    let mut left = Vec::new(alloc);
    for step in steps {
        if !may_take(step, made) {
            continue;
        }
        add_at(alloc, folder, step.path(), modes, &mut left)?;
    }
    walk(alloc, folder, modes, &mut left)
}

// Whether something may stand where the step takes it away.
fn may_take(step: &Step, made: &BTreeSet<Vec<u8>>) -> bool
    ensures { result ≡ asked.may_take (in_set made.now) (step_of step.now) }
{
    if let Step::Mode { .. } = step {
        return false;
    }
    match parent(step.path().bytes()) {
        Some(dir) => !has(made, dir),
        None => true,
    }
}

// Adds the modes of the directories that hold something, at and below these paths.
fn walk<F: Folder>(
    alloc: Global,
    folder: &mut F,
    modes: &mut Modes,
    left: &mut Vec<RelPath>,
) -> Result<(), Or<Failed>>
    ensures found { IsTrue (F.outside.tells folder.old) → OnOk result ((d : List ℕ) (m : ℕ) (f : Bool) (q : List ℕ) → IsTrue (is_under left.old.items d)
        → (F.outside.state folder.old).held.look d ≡ Some (Dir m f) → IsTrue (is_child (F.outside.state folder.old).held d q) → IsTrue (in_modes modes.new.has m)) }
    ensures kept { KeepsModes modes.old.has modes.new.has }
    ensures reads { Reads F.outside folder.old folder.new (IsFailure result) }
{
    for _turn in 0..u64::MAX {
        let Some(path) = left.pop() else {
            return Ok(());
        };
        add_at(alloc, folder, &path, modes, left)?;
    }
    // no tree has so many paths
    Err(Or::OutOfMemory)
}

// The same for a path that may go.
fn add_at<F: Folder>(
    alloc: Global,
    folder: &mut F,
    path: &RelPath,
    modes: &mut Modes,
    left: &mut Vec<RelPath>,
) -> Result<(), Or<Failed>>
    ensures found { IsTrue (F.outside.tells folder.old) → OnOk result ((d : List ℕ) → IsTrue (covers path.now.bytes d) → IsMet (F.outside.state folder.old).held modes.new.has left.new.items d) }
    ensures left { OnOk result ((d : List ℕ) → IsTrue (is_under left.old.items d) → IsTrue (is_under left.new.items d)) }
    ensures kept { KeepsModes modes.old.has modes.new.has }
    ensures reads { Reads F.outside folder.old folder.new (IsFailure result) }
{
    let Ok(look) = folder.look(path) else {
        return Err(Or::Bad(Failed));
    };
    let Look::Dir { mode } = look else {
        return Ok(());
    };
    match folder.list(alloc, path) {
        Ok(listing) => {
            let children = listing.names.as_slice();
            modes.add(mode, holds(&listing));
            Ok(push_all(alloc, children, left)?)
        }
        Err(ListFault::Failed) => Err(Or::Bad(Failed)),
        Err(ListFault::OutOfMemory) => Err(Or::OutOfMemory),
    }
}

// Whether the directory that was listed holds something.
fn holds(listing: &Listing) -> bool
    ensures foreign { IsTrue listing.now.foreign → IsTrue result }
    ensures children { (q : List ℕ) → IsTrue (list_any (λ p. same_path p q) listing.now.names) → IsTrue result }
{
    listing.foreign || !listing.names.as_slice().is_empty()
}

// Adds copies of the paths.
fn push_all(alloc: Global, paths: &[RelPath], left: &mut Vec<RelPath>) -> Result<(), AllocError>
    ensures left { OnOk result ((d : List ℕ) → IsTrue (is_under left.old.items d) → IsTrue (is_under left.new.items d)) }
    ensures paths { OnOk result ((d : List ℕ) → IsTrue (is_under paths.now d) → IsTrue (is_under left.new.items d)) }
{
    for path in paths {
        let copy = path.copy(alloc)?;
        left.push(copy)?;
    }
    Ok(())
}
