//! Laws of a repair's order and changes, each the contract of a function that does nothing.

ghost use Rattle.std.specs.Prelude.{◌≡◌, ◌++◌, ℕ, IsTrue, IsFalse, List, Some, filter, is_some, length};
ghost use Rattle.std.specs.List.{AllByRecursion};
ghost use Rattle.ips_outside.specs.Image.{Image};
ghost use Rattle.ips_after.specs.Planned.{HasWantedParts, plan_order};
ghost use Rattle.ips_after.specs.Repaired.{IsRepair, Repair, request_of};
ghost use Rattle.ips_after.specs.Request.{Want, Wanted};
ghost use Rattle.ips_change.specs.declared.change.Change.{Change};
ghost use Rattle.ips_emit.specs.Emitted.{HasTarget};
ghost use Rattle.ips_mend.specs.mended.Mending.{AllFitAt};
ghost use Rattle.ips_mend.specs.mended.Ordering.{wanted_order};

/// The order of a repair's plan, in which no account file is put, is that of the wanted paths, and then the records that are put.
pub fn repairs_are_in_order()
    ensures { (f : Repair) (t : Image) → IsRepair f → ((q : List ℕ) → IsTrue (is_some (f.over.at q)) → IsFalse (f.over.is_account q))
        → plan_order (request_of f t) t ≡ wanted_order f.want ++ filter (λ p. is_some (f.over.at p)) f.over.keys }
{}

/// Where the changes fit a Want with proper parts, what each symbolic link says that is made is a target.
pub fn mended_changes_have_targets()
    ensures { (want : Want) (changes : List Change) → ((q : List ℕ) (w : Wanted) → want.at q ≡ Some w → HasWantedParts w) → length changes ≡ length want.keys → AllFitAt want want.keys changes → AllByRecursion HasTarget changes }
{}
