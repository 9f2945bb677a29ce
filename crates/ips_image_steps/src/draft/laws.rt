//! Laws of drafted steps, each the contract of a function that does nothing.

ghost use Rattle.std.specs.Prelude.{◌≡◌, ◌++◌, ℕ, Bool, IsFalse, List, length, map};
ghost use Rattle.std.specs.List.{AllByRecursion};
ghost use Rattle.ips_outside.specs.Image.{Image, IsImage};
ghost use Rattle.ips_steps.specs.View.{step_of};
ghost use Rattle.ips_after.specs.Planned.{IsProperRequest, plan_contents, plan_order, plan_steps};
ghost use Rattle.ips_after.specs.Request.{IsRequest, Request};
ghost use Rattle.ips_after.specs.Salvage.{Aside, IsAside, IsAsides, IsOwn, change_saving, is_unmovable, saving_contents, saving_steps};
ghost use Rattle.ips_change.specs.declared.change.Change.{Change};
ghost use Rattle.ips_change.specs.Told.{naming};
ghost use Rattle.ips_change.specs.declared.survey.row.Row.{Row};
ghost use Rattle.ips_change.specs.survey.Rows.{IsRowOf};
ghost use Rattle.ips_links.specs.Fitting.{AllFit, FitsSupported};
ghost use Rattle.ips_emit.specs.declared.emitting.Emitted.{Emitted};
ghost use Rattle.ips_emit.specs.Emitted.{HasTarget, IsEmitted, Provenance, staged_bytes};
ghost use Rattle.ips_image_steps.specs.draft.Drafting.{turns_of, turns_saving};

/// Where the changes fit rows of a proper request, what each symbolic link says that is made is a target.
pub fn changes_have_targets()
    ensures { (r : Request) (rows : List Row) (changes : List Change) → IsProperRequest r → AllByRecursion (IsRowOf r) rows → length changes ≡ length rows → AllFit FitsSupported rows changes → AllByRecursion HasTarget changes }
{}

/// Steps that are drafted from none, in the order of a plan, are those of the plan, and what is staged has just their contents.
pub fn drafted_steps_are_a_plan()
    ensures steps { (r : Request) (t : Image) (emptied : List ℕ → Bool) (provenances : List Provenance) (e : Emitted) → IsEmitted r.bytes t (turns_of r t emptied (plan_order (naming r) t)) provenances e → map step_of e.steps.items ≡ plan_steps (naming r) t emptied }
    ensures staged { (r : Request) (t : Image) (emptied : List ℕ → Bool) (provenances : List Provenance) (e : Emitted) → IsEmitted r.bytes t (turns_of r t emptied (plan_order (naming r) t)) provenances e → map (staged_bytes r.bytes t) e.staged.items ≡ plan_contents (naming r) t emptied }
{}

/// The same behind the steps of what is saved, where no path is unmovable: they are those of the plan with what is saved.
pub fn drafted_saving_steps_are_a_plan()
    ensures steps { (r : Request) (t : Image) (a : Aside) (asides : List (List ℕ)) (provenances : List Provenance) (e : Emitted) → IsRequest r → IsImage t → IsOwn (naming r) t a → IsAside (naming r) t a → IsAsides (naming r) t a asides
        → ((x : List ℕ) → IsFalse (is_unmovable (naming r) t a x))
        → IsEmitted r.bytes t (turns_saving r t a asides ++ turns_of r t a.emptied (plan_order (naming r) t)) provenances e → map step_of e.steps.items ≡ saving_steps (naming r) t a asides }
    ensures staged { (r : Request) (t : Image) (a : Aside) (asides : List (List ℕ)) (provenances : List Provenance) (e : Emitted) → IsRequest r → IsImage t → IsOwn (naming r) t a → IsAside (naming r) t a → IsAsides (naming r) t a asides
        → ((x : List ℕ) → IsFalse (is_unmovable (naming r) t a x))
        → IsEmitted r.bytes t (turns_saving r t a asides ++ turns_of r t a.emptied (plan_order (naming r) t)) provenances e → map (staged_bytes r.bytes t) e.staged.items ≡ saving_contents (naming r) t a asides }
{}
