//! The steps of a repair, where all is known that they are made of.

ghost use Rattle.std.specs.Prelude.{◌≡◌, ◌++◌, ℕ, List, [], None, IfOk, IsFalse, IsTrue, OnOk, length, map};
ghost use Rattle.std.specs.List.{AllByRecursion};
ghost use Rattle.std.specs.Option.{option_map};
ghost use Rattle.ips_text.specs.Ancestry.{is_below};
ghost use Rattle.ips_text.specs.Path.{IsPath};
ghost use Rattle.ips_text.specs.Reading.{IfBad};
ghost use Rattle.ips_outside.specs.Image.{Image, IsImage, is_dir};
ghost use Rattle.ips_steps.specs.Private.{records_name};
ghost use Rattle.ips_steps.specs.View.{step_of};
ghost use Rattle.ips_records.specs.Lines.{lines_text};
ghost use Rattle.ips_after.specs.Repaired.{IsRepair, Repair, request_of};
ghost use Rattle.ips_after.specs.Salvage as salvage;
ghost use Rattle.ips_change.specs.wanted.Wanted.{want_of};
ghost use Rattle.ips_change.specs.Told.{naming};
ghost use Rattle.ips_emit.specs.Emitted.{HasTarget, IsEmitted, Provenance, Turn};
ghost use Rattle.ips_mend.specs.mended.Drafting.{sources_in, turns_mended};
ghost use Rattle.ips_mend.specs.mended.Ordering.{wanted_order};
ghost use Rattle.ips_found.specs.Found.{AreThings, thing_paths};
ghost use Rattle.ips_movable.specs.Movable.{CanMove};
ghost use Rattle.ips_aside.specs.Lost.{AreNamesOf};
ghost use Rattle.ips_aside.specs.Ways as way_specs;
ghost use Rattle.ips_image_steps.specs.Answers.{CanBeListed};
ghost use Rattle.ips_plan_limits.specs.Limits as limits;
ghost use Rattle.ips_repair.specs.Drawing.{AddsRepair, IsBeyond};
ghost use Rattle.ips_repair.specs.Gathered.{AreChangesFor, IsGathered, IsTold, NothingHinders, put_unless, stands_as};
ghost use Rattle.ips_repair.specs.Repairing.{AreStepsToRepair};

use crate::fault::RepairFault;
use crate::putting::add_history;
use ips_aside::Ways;
use ips_change::Change;
use ips_emit::Emitted;
use ips_found::Thing;
use ips_image_steps::can_be_listed;
use ips_image_steps::draft::drafted_saving_steps_are_a_plan;
use ips_image_steps::saving::add_saved;
use ips_meaning::Want;
use ips_mend::mended::{draft_mended, mended_order, repairs_are_in_order};
use ips_plan_limits::first_excess;
use ips_request_due::repairs::{repairs_are_lawful, repairs_hang_together};
use ips_state::State;
use ips_text::{Or, RelPath};
use std::alloc::{AllocError, Global};

/// The steps of the repair, with the text of the history that is put, if it is.
pub(crate) fn draw(
    alloc: Global,
    new: &State,
    want: &Want,
    changes: &[Change<'_>],
    things: &[Thing],
    root: &RelPath,
    ways: &Ways,
    put: Option<Vec<u8>>,
) -> Result<Emitted, AllocError>
    requires changes { AreChangesFor new.now want.now changes.now }
    requires path { IsPath root.now.bytes }
    requires movable { AllByRecursion (CanMove root.now.bytes) things.now }
    ensures { IfOk result (λ e. (text : List ℕ) (t : Image) → IsImage t → IsTrue (is_dir (t.look records_name)) → IsGathered text t want.now changes.now things.now root.now.bytes ways.now → NothingHinders t root.now.bytes things.now
        → option_map (λ text. text.items) put ≡ put_unless (stands_as (lines_text new.now.history.items) t) (lines_text new.now.history.items) → AreStepsToRepair text new.now.history.items want.now t e) }
{
    repairs_are_lawful();
    repairs_hang_together();
    repairs_are_in_order();
    drafted_saving_steps_are_a_plan();
    let mut emitted = Emitted::new(alloc);
    match add_all(alloc, want, changes, things, root, ways, put, &mut emitted) {
        Ok(()) => Ok(emitted),
        Err(fault) => Err(fault),
    }
}

// Adds these steps to none.
fn add_all(
    alloc: Global,
    want: &Want,
    changes: &[Change<'_>],
    things: &[Thing],
    root: &RelPath,
    ways: &Ways,
    put: Option<Vec<u8>>,
    emitted: &mut Emitted,
) -> Result<(), AllocError>
    requires long { length changes.now ≡ length want.now }
    requires targets { AllByRecursion HasTarget changes.now }
    requires movable { AllByRecursion (CanMove root.now.bytes) things.now }
    requires none { (bytes : List ℕ → List ℕ) (t : Image) → IsEmitted bytes t [] [] emitted.old }
    ensures { OnOk result ((f : Repair) (t : Image) (a : salvage.Aside) → IsRepair f → f.want ≡ want_of want.now → IsTold f t changes.now
        → ((q : List ℕ) → IsTrue (is_below records_name q) → f.want.at q ≡ None) → a.root ≡ root.now.bytes → IsTrue (is_below records_name a.root)
        → AreThings t things.now → AreNamesOf (naming (request_of f t)) t a (thing_paths things.now) [] [] → ((q : List ℕ) → a.ways q ≡ way_specs.is_way ways.now q)
        → ((p : List ℕ) → IsFalse (salvage.has_long_side (naming (request_of f t)) t a p (salvage.side_at (naming (request_of f t)) t p)))
        → AddsRepair f t a (option_map (λ text. text.items) put) emitted.new) }
{
    add_saved(alloc, emitted, root, things, &[], &[], ways)?;
    add_wanted(alloc, want, changes, emitted)?;
    add_history(alloc, emitted, put)
}

// Adds the steps of the wanted paths.
fn add_wanted(
    alloc: Global,
    want: &Want,
    changes: &[Change<'_>],
    emitted: &mut Emitted,
) -> Result<(), AllocError>
    requires long { length changes.now ≡ length want.now }
    requires targets { AllByRecursion HasTarget changes.now }
    ensures { OnOk result ((f : Repair) (t : Image) (turns : List Turn) (provenances : List Provenance) → IsRepair f → f.want ≡ want_of want.now → IsTold f t changes.now → IsEmitted f.bytes t turns provenances emitted.old
        → (order : List ℕ) × IsEmitted f.bytes t (turns ++ turns_mended f t (wanted_order f.want)) (provenances ++ sources_in changes.now order) emitted.new) }
{
    let order = mended_order(alloc, want)?;
    draft_mended(alloc, emitted, want, changes, &order)
}

/// The steps, where a journal can list them, and neither they nor the files that they write are too many or too large.
pub(crate) fn checked(emitted: Emitted) -> Result<Emitted, Or<RepairFault>>
    ensures same { IfOk result (λ e. e ≡ emitted) }
    ensures lists { IfOk result CanBeListed }
    ensures within { IfOk result (λ e. limits.first_excess (map step_of e.steps.items) e.staged.items ≡ None) }
    ensures beyond { IfBad result (IsBeyond emitted) }
{
    if !can_be_listed(&emitted) {
        return Err(Or::OutOfMemory);
    }
    let alloc = *emitted.steps.allocator();
    match first_excess(alloc, &emitted.steps, &emitted.staged) {
        Ok(Some(excess)) => Err(Or::Bad(RepairFault::TooLarge(excess))),
        Ok(None) => Ok(emitted),
        Err(AllocError) => Err(Or::OutOfMemory),
    }
}
