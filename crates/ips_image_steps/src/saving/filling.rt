//! All that is saved, by its paths.

ghost use Rattle.std.specs.Prelude.{◌≡◌, [], ℕ, List, None, Some, OnOk, cond};
ghost use Rattle.std.specs.List.{flat_map};
ghost use Rattle.ips_text.specs.Ancestry.{same_path};
ghost use Rattle.ips_aside.specs.Ways as way_specs;
ghost use Rattle.ips_image_steps.specs.saving.Saving.{all_placed, last_at, name_placed, saved_at, saved_told, side_placed, thing_placed, way_at, way_placed};

use crate::saving::saved::Saved;
use ips_aside::sides::{Side, SideName};
use ips_aside::{LostName, Ways, inside};
use ips_found::Thing;
use ips_text::{RelPath, covers};
use std::alloc::{AllocError, Global};
use std::collections::BTreeMap;

/// Puts all that is saved under its paths, where nothing is under any. A thing takes the place of a file that is put beside a path, and that of a
/// directory on the way.
pub(crate) fn fill<'a>(
    alloc: Global,
    root: &RelPath,
    things: &'a [Thing],
    sides: &[Side<'a>],
    names: &[LostName<'a>],
    ways: &Ways,
    saved: &mut BTreeMap<Vec<u8>, Saved<'a>>,
) -> Result<(), AllocError>
    requires { saved.old.entries ≡ [] }
    ensures { OnOk result ((q : List ℕ) → saved_at saved.new q ≡ last_at (all_placed root.now.bytes things.now sides.now names.now ways.now) q None) }
{
    put_ways(alloc, ways, saved)?;
    put_sides(alloc, sides, saved)?;
    put_names(alloc, names, saved)?;
    put_things(alloc, root, things, saved)
}

// Puts the directories that are missing under their paths.
fn put_ways<'a>(
    alloc: Global,
    ways: &Ways,
    saved: &mut BTreeMap<Vec<u8>, Saved<'a>>,
) -> Result<(), AllocError>
    ensures { OnOk result ((q : List ℕ) → saved_at saved.new q ≡ last_at (flat_map (way_placed (way_specs.bytes_if_any ways.now.standing)) ways.now.above.keys) q (saved_at saved.old q)) }
{
    for path in ways.above.iter() {
        put_way(alloc, ways, path, saved)?;
    }
    Ok(())
}

// Puts a directory under its path, if it is missing.
fn put_way<'a>(
    alloc: Global,
    ways: &Ways,
    path: &[u8],
    saved: &mut BTreeMap<Vec<u8>, Saved<'a>>,
) -> Result<(), AllocError>
    ensures { OnOk result ((q : List ℕ) → saved_at saved.new q ≡ last_at (way_at (way_specs.bytes_if_any ways.now.standing) path.now) q (saved_at saved.old q)) }
{
    if stands(ways, path) {
        return Ok(());
    }
    put(alloc, path, Saved::Way, saved)
}

// Whether the path is that of the directory that stands, or above it.
fn stands(ways: &Ways, path: &[u8]) -> bool
    ensures { result ≡ way_specs.is_standing (way_specs.bytes_if_any ways.now.standing) path.now }
{
    match &ways.standing {
        Some(dir) => covers(path, dir.bytes()),
        None => false,
    }
}

// Puts the files whose names beside their paths can be used under these names.
fn put_sides<'a>(
    alloc: Global,
    sides: &[Side<'a>],
    saved: &mut BTreeMap<Vec<u8>, Saved<'a>>,
) -> Result<(), AllocError>
    ensures { OnOk result ((q : List ℕ) → saved_at saved.new q ≡ last_at (flat_map side_placed sides.now) q (saved_at saved.old q)) }
{
    for i in 0..sides.len() {
        put_side(alloc, &sides[i], saved)?;
    }
    Ok(())
}

// Puts the file under its name, if that can be used.
fn put_side<'a>(
    alloc: Global,
    side: &Side<'a>,
    saved: &mut BTreeMap<Vec<u8>, Saved<'a>>,
) -> Result<(), AllocError>
    ensures { OnOk result ((q : List ℕ) → saved_at saved.new q ≡ last_at (side_placed side.now) q (saved_at saved.old q)) }
{
    let what = Saved::Beside {
        path: side.path,
        put: side.put,
    };
    match &side.name {
        SideName::Free(name) => put(alloc, name.bytes(), what, saved),
        _ => Ok(()),
    }
}

// Puts the files that go into the salvage folder under their names there.
fn put_names<'a>(
    alloc: Global,
    names: &[LostName<'a>],
    saved: &mut BTreeMap<Vec<u8>, Saved<'a>>,
) -> Result<(), AllocError>
    ensures { OnOk result ((q : List ℕ) → saved_at saved.new q ≡ last_at (flat_map name_placed names.now) q (saved_at saved.old q)) }
{
    for i in 0..names.len() {
        put_name(alloc, &names[i], saved)?;
    }
    Ok(())
}

// Puts the file under its name.
fn put_name<'a>(
    alloc: Global,
    name: &LostName<'a>,
    saved: &mut BTreeMap<Vec<u8>, Saved<'a>>,
) -> Result<(), AllocError>
    ensures { OnOk result ((q : List ℕ) → saved_at saved.new q ≡ last_at (name_placed name.now) q (saved_at saved.old q)) }
{
    let what = Saved::Beside {
        path: name.path,
        put: name.put,
    };
    put(alloc, &name.name, what, saved)
}

// Puts the things under their paths in the salvage folder.
fn put_things<'a>(
    alloc: Global,
    root: &RelPath,
    things: &'a [Thing],
    saved: &mut BTreeMap<Vec<u8>, Saved<'a>>,
) -> Result<(), AllocError>
    ensures { OnOk result ((q : List ℕ) → saved_at saved.new q ≡ last_at (flat_map (thing_placed root.now.bytes) things.now) q (saved_at saved.old q)) }
{
    for i in 0..things.len() {
        put_thing(alloc, root, &things[i], saved)?;
    }
    Ok(())
}

// Puts the thing under its path in the salvage folder.
fn put_thing<'a>(
    alloc: Global,
    root: &RelPath,
    thing: &'a Thing,
    saved: &mut BTreeMap<Vec<u8>, Saved<'a>>,
) -> Result<(), AllocError>
    ensures { OnOk result ((q : List ℕ) → saved_at saved.new q ≡ last_at (thing_placed root.now.bytes thing.now) q (saved_at saved.old q)) }
{
    let path = inside(alloc, root, &thing.path)?;
    put(alloc, &path, Saved::Thing(thing), saved)
}

// Puts something under a path, in the place of what was there.
fn put<'a>(
    alloc: Global,
    path: &[u8],
    what: Saved<'a>,
    saved: &mut BTreeMap<Vec<u8>, Saved<'a>>,
) -> Result<(), AllocError>
    ensures { OnOk result ((q : List ℕ) → saved_at saved.new q ≡ cond (same_path path.now q) (Some (saved_told what.entry)) (saved_at saved.old q)) }
{
    let key = Vec::from_slice(alloc, path)?;
    saved.insert(key, what)?;
    Ok(())
}
