//! The names of all files that go into the salvage folder.

ghost use Rattle.std.specs.Prelude.{◌≡◌, ◌++◌, ◌∷◌, [], IfOk, OnOk, List, ℕ, map};
ghost use Rattle.std.specs.List.Sorted.{IsPermutation, IsSortedBy};
ghost use Rattle.ips_conflict.specs.Index.{HoldsAbove};
ghost use Rattle.ips_found.specs.Found.{thing_paths};
ghost use Rattle.ips_aside.specs.Lost.{AreFirstFree, AreLostNames, IsMarked, comes_first, folder_paths, in_folder, lost_of, lost_seen, names_of};

use crate::free::{free_name, inside};
use crate::lost::{Lost, LostName, compare};
use crate::marking::mark;
use crate::sides::{Side, SideName};
use ips_found::Thing;
use ips_text::RelPath;
use std::alloc::{AllocError, Global};
use std::collections::BTreeSet;

/// The names in the salvage folder at `root` of the files that can't be used beside their paths, by the things that are salvaged. They are found from
/// the deepest path on, then by bytes. Each is the first, with the extension put on again and again, that neither is the name of a thing or an earlier
/// one nor stands above such.
pub fn lost_names<'a>(
    alloc: Global,
    root: &RelPath,
    things: &[Thing],
    sides: &[Side<'a>],
) -> Result<Vec<LostName<'a>>, AllocError>
    ensures { IfOk result (λ names. AreLostNames root.now.bytes (thing_paths things.now) sides.now names.items) }
{
    let mut names = Vec::new(alloc);
    let lost = lost(alloc, sides)?;
    match name_all(alloc, root, things, &lost, &mut names) {
        Ok(()) => Ok(names),
        Err(fault) => Err(fault),
    }
}

// The files whose names can't be used beside their paths, in the order in which their names are found.
fn lost<'a>(alloc: Global, sides: &[Side<'a>]) -> Result<Vec<Lost<'a>>, AllocError>
    ensures just { IfOk result (λ lost. IsPermutation (lost_of sides.now) lost.items) }
    ensures order { IfOk result (λ lost. IsSortedBy comes_first lost.items) }
{
    let mut lost = Vec::new(alloc);
    gather(sides, &mut lost)?;
    lost.sort_by(|one, other| compare(one, other))?;
    Ok(lost)
}

// Adds the files whose names can't be used beside their paths.
fn gather<'a>(sides: &[Side<'a>], lost: &mut Vec<Lost<'a>>) -> Result<(), AllocError>
    ensures { OnOk result (lost.new.items ≡ lost.old.items ++ lost_of sides.now) }
{
    for i in 0..sides.len() {
        add(&sides[i], lost)?;
    }
    Ok(())
}

// Adds the file, if its name can't be used beside its path.
fn add<'a>(side: &Side<'a>, lost: &mut Vec<Lost<'a>>) -> Result<(), AllocError>
    ensures { OnOk result (lost.new.items ≡ lost.old.items ++ lost_of (side.now ∷ [])) }
{
    if let SideName::Lost = side.name {
        lost.push(Lost {
            path: side.path,
            put: side.put,
        })?;
    }
    Ok(())
}

// Adds the name of each of these files.
fn name_all<'a>(
    alloc: Global,
    root: &RelPath,
    things: &[Thing],
    lost: &[Lost<'a>],
    names: &mut Vec<LostName<'a>>,
) -> Result<(), AllocError>
    requires { names.old.items ≡ [] }
    ensures just { OnOk result (map lost_seen names.new.items ≡ lost.now) }
    ensures free { OnOk result (AreFirstFree root.now.bytes (folder_paths root.now.bytes (thing_paths things.now)) names.new.items) }
{
    let mut taken = BTreeSet::new(alloc);
    match mark_things(alloc, root, things, &mut taken) {
        Ok(()) => name_each(alloc, root, things, lost, &mut taken, names),
        Err(fault) => Err(fault),
    }
}

// Marks the names of the things in the salvage folder, and all above them.
fn mark_things(
    alloc: Global,
    root: &RelPath,
    things: &[Thing],
    taken: &mut BTreeSet<Vec<u8>>,
) -> Result<(), AllocError>
    requires { IsMarked taken.old [] }
    ensures { OnOk result (IsMarked taken.new (folder_paths root.now.bytes (thing_paths things.now))) }
{
    for i in 0..things.len() {
        mark_inside(alloc, root, &things[i].path, taken)?;
    }
    Ok(())
}

// Marks the path in the salvage folder, and all above it.
fn mark_inside(
    alloc: Global,
    root: &RelPath,
    path: &RelPath,
    taken: &mut BTreeSet<Vec<u8>>,
) -> Result<(), AllocError>
    requires { HoldsAbove taken.old }
    ensures { OnOk result ((names : List (List ℕ)) → IsMarked taken.old names → IsMarked taken.new (names ++ in_folder root.now.bytes path.now.bytes ∷ [])) }
{
    let name = inside(alloc, root, path)?;
    mark(alloc, taken, &name)?;
    Ok(())
}

// Adds the name of each of these files, where the names of things are marked.
fn name_each<'a>(
    alloc: Global,
    root: &RelPath,
    things: &[Thing],
    lost: &[Lost<'a>],
    taken: &mut BTreeSet<Vec<u8>>,
    names: &mut Vec<LostName<'a>>,
) -> Result<(), AllocError>
    requires marked { IsMarked taken.old (folder_paths root.now.bytes (thing_paths things.now)) }
    requires none { names.old.items ≡ [] }
    ensures just { OnOk result (map lost_seen names.new.items ≡ lost.now) }
    ensures free { OnOk result (AreFirstFree root.now.bytes (folder_paths root.now.bytes (thing_paths things.now)) names.new.items) }
{
    for i in 0..lost.len() {
        name_one(alloc, root, lost[i], taken, names)?;
    }
    Ok(())
}

// Adds the name of this file, and marks it.
fn name_one<'a>(
    alloc: Global,
    root: &RelPath,
    file: Lost<'a>,
    taken: &mut BTreeSet<Vec<u8>>,
    names: &mut Vec<LostName<'a>>,
) -> Result<(), AllocError>
    requires { HoldsAbove taken.old }
    ensures seen { OnOk result (map lost_seen names.new.items ≡ map lost_seen names.old.items ++ file.entry ∷ []) }
    ensures free { OnOk result ((before : List (List ℕ)) → IsMarked taken.old (before ++ names_of names.old.items) → AreFirstFree root.now.bytes before names.old.items → AreFirstFree root.now.bytes before names.new.items) }
    ensures marked { OnOk result ((before : List (List ℕ)) → IsMarked taken.old (before ++ names_of names.old.items) → IsMarked taken.new (before ++ names_of names.new.items)) }
{
    let name = free_name(alloc, taken, root, file.path, file.put)?;
    mark(alloc, taken, &name)?;
    names.push(LostName {
        path: file.path,
        put: file.put,
        name,
    })?;
    Ok(())
}
