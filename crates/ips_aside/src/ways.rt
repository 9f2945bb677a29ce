//! Directories that are missing for what goes into the salvage folder.

ghost use Rattle.std.specs.Prelude.{◌≡◌, ◌++◌, [], ◌∷◌, IsTrue, IfOk, OnOk, List, ℕ};
ghost use Rattle.ips_text.specs.Path.{IsPath};
ghost use Rattle.ips_outside.specs.Image.{is_dir};
ghost use Rattle.ips_outside.specs.Outside.{Reads};
ghost use Rattle.ips_change.specs.content.Failing.{HasFailed};
ghost use Rattle.ips_conflict.specs.Index.{HoldsAbove};
ghost use Rattle.ips_found.specs.Found.{thing_paths};
ghost use Rattle.ips_aside.specs.Lost.{folder_paths, in_folder, names_of};
ghost use Rattle.ips_aside.specs.Ways.{IsMarkedAbove, IsStandingAbove, bytes_if_any};

use crate::free::inside;
use crate::lost::LostName;
use crate::marking::mark_above;
use ips_change::content::look_at;
use ips_found::Thing;
use ips_outside::{Failed, Look, Source};
use ips_text::{Or, RelPath, parent};
use std::alloc::{AllocError, Global};
use std::collections::BTreeSet;

/// The directories that are missing for what goes into the salvage folder: the paths above it, but for the lowest directory that stands above the
/// folder and what is above that.
#[derive(Drop)]
pub struct Ways {
    /// The paths above what goes into the folder.
    pub above: BTreeSet<Vec<u8>>,
    /// The lowest directory that stands above the folder, if one does.
    pub standing: Option<RelPath>,
}

/// The ways to these things and names in the salvage folder at `root`. It looks at what is above the folder, up to the first directory.
pub fn find_ways<S: Source>(
    alloc: Global,
    source: &mut S,
    root: &RelPath,
    things: &[Thing],
    names: &[LostName<'_>],
) -> Result<Ways, Or<Failed>>
    ensures above { IfOk result (λ ways. IsMarkedAbove ways.above (folder_paths root.now.bytes (thing_paths things.now) ++ names_of names.now)) }
    ensures standing { IsTrue (S.outside.tells source.old) → IfOk result (λ ways. IsStandingAbove (S.outside.state source.old).held root.now.bytes (bytes_if_any ways.standing)) }
    ensures reads { Reads S.outside source.old source.new (HasFailed result) }
{
    let standing = standing_above(alloc, source, root)?;
    let mut above = BTreeSet::new(alloc);
    match mark_all(alloc, root, things, names, &mut above) {
        Ok(()) => Ok(Ways { above, standing }),
        Err(_) => Err(Or::OutOfMemory),
    }
}

// The lowest directory that stands above the path, if one does.
fn standing_above<S: Source>(
    alloc: Global,
    source: &mut S,
    root: &RelPath,
) -> Result<Option<RelPath>, Or<Failed>>
    ensures found { IsTrue (S.outside.tells source.old) → IfOk result (λ standing. IsStandingAbove (S.outside.state source.old).held root.now.bytes (bytes_if_any standing)) }
    ensures reads { Reads S.outside source.old source.new (HasFailed result) }
{
    let mut at = parent(root.bytes());
    while let Some(dir) = at {
        let path = path_of(alloc, dir)?;
        if is_dir(source, &path)? {
            return Ok(Some(path));
        }
        at = parent(dir);
    }
    Ok(None)
}

// The path of these bytes.
fn path_of(alloc: Global, bytes: &[u8]) -> Result<RelPath, AllocError>
    requires { IsPath bytes.now }
    ensures { IfOk result (λ path. path.bytes ≡ bytes.now) }
{
    match RelPath::parse(alloc, bytes) {
        Ok(path) => Ok(path),
        Err(Or::Bad(_)) => unreachable!(),
        Err(Or::OutOfMemory) => Err(AllocError),
    }
}

// Whether a directory stands at the path.
fn is_dir<S: Source>(source: &mut S, path: &RelPath) -> Result<bool, Or<Failed>>
    ensures found { IsTrue (S.outside.tells source.old) → IfOk result (λ found. found ≡ is_dir ((S.outside.state source.old).held.look path.now.bytes)) }
    ensures reads { Reads S.outside source.old source.new (HasFailed result) }
{
    match look_at(source, path)? {
        Look::Dir { .. } => Ok(true),
        _ => Ok(false),
    }
}

// Marks what stands above the names of these things and files in the folder.
fn mark_all(
    alloc: Global,
    root: &RelPath,
    things: &[Thing],
    names: &[LostName<'_>],
    above: &mut BTreeSet<Vec<u8>>,
) -> Result<(), AllocError>
    requires { IsMarkedAbove above.old [] }
    ensures { OnOk result (IsMarkedAbove above.new (folder_paths root.now.bytes (thing_paths things.now) ++ names_of names.now)) }
{
    mark_things(alloc, root, things, above)?;
    mark_names(alloc, root, things, names, above)
}

// Marks what stands above the names of these things in the folder.
fn mark_things(
    alloc: Global,
    root: &RelPath,
    things: &[Thing],
    above: &mut BTreeSet<Vec<u8>>,
) -> Result<(), AllocError>
    requires { IsMarkedAbove above.old [] }
    ensures { OnOk result (IsMarkedAbove above.new (folder_paths root.now.bytes (thing_paths things.now))) }
{
    for i in 0..things.len() {
        mark_inside(alloc, root, &things[i].path, above)?;
    }
    Ok(())
}

// Marks what stands above the path in the folder.
fn mark_inside(
    alloc: Global,
    root: &RelPath,
    path: &RelPath,
    above: &mut BTreeSet<Vec<u8>>,
) -> Result<(), AllocError>
    requires { HoldsAbove above.old }
    ensures { OnOk result ((paths : List (List ℕ)) → IsMarkedAbove above.old paths → IsMarkedAbove above.new (paths ++ in_folder root.now.bytes path.now.bytes ∷ [])) }
{
    let name = inside(alloc, root, path)?;
    mark_above(alloc, above, &name)
}

// Marks what stands above these names, where that is done for the things.
fn mark_names(
    alloc: Global,
    root: &RelPath,
    things: &[Thing],
    names: &[LostName<'_>],
    above: &mut BTreeSet<Vec<u8>>,
) -> Result<(), AllocError>
    requires { IsMarkedAbove above.old (folder_paths root.now.bytes (thing_paths things.now)) }
    ensures { OnOk result (IsMarkedAbove above.new (folder_paths root.now.bytes (thing_paths things.now) ++ names_of names.now)) }
{
    for i in 0..names.len() {
        mark_above(alloc, above, &names[i].name)?;
    }
    Ok(())
}
