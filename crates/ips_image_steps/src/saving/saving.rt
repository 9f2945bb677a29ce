//! The steps of what is saved, from what was found.

ghost use Rattle.std.specs.Prelude.{◌≡◌, ℕ, List, None, IsFalse, IsTrue, OnOk};
ghost use Rattle.std.specs.List.{AllByRecursion};
ghost use Rattle.ips_text.specs.Ancestry.{is_below};
ghost use Rattle.ips_outside.specs.Image.{Image};
ghost use Rattle.ips_steps.specs.Private.{records_name};
ghost use Rattle.ips_after.specs.Request.{IsRequest, Request};
ghost use Rattle.ips_after.specs.Salvage as salvage;
ghost use Rattle.ips_change.specs.Told.{naming};
ghost use Rattle.ips_found.specs.Found.{AreThings, thing_paths};
ghost use Rattle.ips_movable.specs.Movable.{CanMove};
ghost use Rattle.ips_aside.specs.Lost.{AreNamesOf};
ghost use Rattle.ips_aside.specs.Ways as way_specs;
ghost use Rattle.ips_emit.specs.Emitted.{IsEmitted, Provenance, Turn};
ghost use Rattle.ips_image_steps.specs.saving.Saving.{AddsSaved};

use crate::saving::emitting::emit;
use crate::saving::filling::fill;
use ips_aside::sides::Side;
use ips_aside::{LostName, Ways};
use ips_emit::Emitted;
use ips_found::Thing;
use ips_text::RelPath;
use std::alloc::{AllocError, Global};
use std::collections::BTreeMap;

/// Adds the steps of what is saved, by the bytes of the paths to which it goes: the things, at their paths in the salvage folder, the files that are
/// put beside paths, at their names there or in the folder, and the directories on the way at which nothing is saved itself.
pub fn add_saved<'a>(
    alloc: Global,
    emitted: &mut Emitted,
    root: &RelPath,
    things: &'a [Thing],
    sides: &[Side<'a>],
    names: &[LostName<'a>],
    ways: &Ways,
) -> Result<(), AllocError>
    requires { AllByRecursion (CanMove root.now.bytes) things.now }
    ensures { OnOk result ((r : Request) (t : Image) (a : salvage.Aside) (turns : List Turn) (provenances : List Provenance)
        → IsRequest r → ((q : List ℕ) → IsTrue (is_below records_name q) → r.new.at q ≡ None) → a.root ≡ root.now.bytes → IsTrue (is_below records_name a.root)
        → AreThings t things.now → AreNamesOf (naming r) t a (thing_paths things.now) sides.now names.now → ((q : List ℕ) → a.ways q ≡ way_specs.is_way ways.now q)
        → ((p : List ℕ) → IsFalse (salvage.has_long_side (naming r) t a p (salvage.side_at (naming r) t p)))
        → IsEmitted r.bytes t turns provenances emitted.old → AddsSaved r t a turns provenances emitted.new) }
{
    let mut saved = BTreeMap::new(alloc);
    match fill(alloc, root, things, sides, names, ways, &mut saved) {
        Ok(()) => emit(alloc, emitted, &saved),
        Err(fault) => Err(fault),
    }
}
