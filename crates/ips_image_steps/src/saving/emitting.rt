//! The steps of what is saved.

ghost use Rattle.std.specs.Prelude.{◌≡◌, ◌++◌, ◌∷◌, [], ℕ, List, IfSome, IsTrue, OnOk};
ghost use Rattle.std.specs.List.Sorted.{IsStrictlySortedBy};
ghost use Rattle.std.specs.Ordering.{nat_cmp};
ghost use Rattle.std.specs.Cmp.Lexicographic.{slice_cmp};
ghost use Rattle.ips_outside.specs.Image.{Image};
ghost use Rattle.ips_after.specs.Change.{Laid};
ghost use Rattle.ips_found.specs.Found.{found_told};
ghost use Rattle.ips_movable.specs.Movable.{can_be_made};
ghost use Rattle.ips_emit.specs.Emitted.{IsEmitted, Provenance, Turn};
ghost use Rattle.ips_image_steps.specs.saving.Saving as spec;
ghost use Rattle.ips_image_steps.specs.saving.Saving.{CanBeMade, entry_saved, provenances_at, provenances_saved, saved_at, saved_paths, saved_told, turns_at};

use crate::saving::saved::Saved;
use ips_aside::sides::Put;
use ips_change::Change;
use ips_emit::Emitted;
use ips_found::{Found, Thing};
use ips_text::{Or, RelPath};
use std::alloc::{AllocError, Global};
use std::collections::BTreeMap;

/// Adds the steps of all that is saved, by the bytes of its paths.
pub(crate) fn emit(
    alloc: Global,
    emitted: &mut Emitted,
    saved: &BTreeMap<Vec<u8>, Saved<'_>>,
) -> Result<(), AllocError>
    requires { (q : List ℕ) → IfSome (saved_at saved.now q) CanBeMade }
    ensures order { OnOk result (IsStrictlySortedBy (slice_cmp nat_cmp) (saved_paths saved.now)) }
    ensures steps { OnOk result ((bytes : List ℕ → List ℕ) (t : Image) (turns : List Turn) (provenances : List Provenance) → IsEmitted bytes t turns provenances emitted.old
        → IsEmitted bytes t (turns ++ turns_at bytes t saved.now (saved_paths saved.now)) (provenances ++ provenances_at saved.now (saved_paths saved.now)) emitted.new) }
{
    for (path, what) in saved.iter() {
        add(alloc, emitted, path, what)?;
    }
    Ok(())
}

// Adds the step of what is saved at the path.
fn add(
    alloc: Global,
    emitted: &mut Emitted,
    path: &[u8],
    what: &Saved<'_>,
) -> Result<(), AllocError>
    requires { CanBeMade (saved_told what.now) }
    ensures { OnOk result ((bytes : List ℕ → List ℕ) (t : Image) (turns : List Turn) (provenances : List Provenance) → IsEmitted bytes t turns provenances emitted.old
        → IsEmitted bytes t (turns ++ (path.now, Laid (entry_saved bytes t (saved_told what.now))) ∷ []) (provenances ++ provenances_saved (saved_told what.now)) emitted.new) }
{
    match RelPath::parse(alloc, path) {
        Ok(path) => add_at(alloc, emitted, &path, what),
        // All but what stands in the salvage folder stands at a path, and so does that where its name isn't too long, which is asked before.
        Err(Or::Bad(_)) => Err(AllocError),
        Err(Or::OutOfMemory) => Err(AllocError),
    }
}

// The same, where the bytes are a path.
fn add_at(
    alloc: Global,
    emitted: &mut Emitted,
    path: &RelPath,
    what: &Saved<'_>,
) -> Result<(), AllocError>
    requires { CanBeMade (saved_told what.now) }
    ensures { OnOk result ((bytes : List ℕ → List ℕ) (t : Image) (turns : List Turn) (provenances : List Provenance) → IsEmitted bytes t turns provenances emitted.old
        → IsEmitted bytes t (turns ++ (path.now.bytes, Laid (entry_saved bytes t (saved_told what.now))) ∷ []) (provenances ++ provenances_saved (saved_told what.now)) emitted.new) }
{
    match what {
        Saved::Thing(thing) => add_thing(alloc, emitted, path, thing),
        Saved::Beside { path: from, put } => add_beside(alloc, emitted, path, from, *put),
        Saved::Way => emitted.push(alloc, path, Change::Dir { mode: 0o755 }),
    }
}

// Adds the step of a thing, which a step can make.
fn add_thing(
    alloc: Global,
    emitted: &mut Emitted,
    path: &RelPath,
    thing: &Thing,
) -> Result<(), AllocError>
    requires { IsTrue (can_be_made (found_told thing.now.found)) }
    ensures { OnOk result ((bytes : List ℕ → List ℕ) (t : Image) (turns : List Turn) (provenances : List Provenance) → IsEmitted bytes t turns provenances emitted.old
        → IsEmitted bytes t (turns ++ (path.now.bytes, Laid (spec.found_entry t thing.now.path.bytes (found_told thing.now.found))) ∷ []) (provenances ++ spec.provenances_found thing.now.path.bytes (found_told thing.now.found)) emitted.new) }
{
    match &thing.found {
        Found::Dir { mode, .. } => emitted.push(alloc, path, Change::Dir { mode: *mode }),
        Found::File { mode } => emitted.push_standing(alloc, path, *mode, &thing.path),
        Found::Link { target } => emitted.push_link(alloc, path, target),
        Found::Other => unreachable!(),
    }
}

// Adds the step of a file that is put beside a path.
fn add_beside(
    alloc: Global,
    emitted: &mut Emitted,
    path: &RelPath,
    from: &RelPath,
    put: Put<'_>,
) -> Result<(), AllocError>
    ensures { OnOk result ((bytes : List ℕ → List ℕ) (t : Image) (turns : List Turn) (provenances : List Provenance) → IsEmitted bytes t turns provenances emitted.old
        → IsEmitted bytes t (turns ++ (path.now.bytes, Laid (spec.put_entry bytes t from.now.bytes put.entry)) ∷ []) (provenances ++ spec.provenances_put from.now.bytes put.entry) emitted.new) }
{
    match put {
        Put::Old { mode } => emitted.push_standing(alloc, path, mode, from),
        Put::Legacy { mode } => emitted.push_standing(alloc, path, mode, from),
        Put::New { payload, mode } => emitted.push(alloc, path, Change::File { payload, mode }),
    }
}
