//! The steps of a plan, the contract of a function that does nothing.

ghost use Rattle.std.specs.Prelude.{◌≡◌, ℕ, List, length, map};
ghost use Rattle.ips_outside.specs.Image.{Image};
ghost use Rattle.ips_steps.specs.View.{step_of};
ghost use Rattle.ips_after.specs.Change.{Changes};
ghost use Rattle.ips_after.specs.Planned.{contents_of, steps_of};
ghost use Rattle.ips_emit.specs.declared.emitting.Emitted.{Emitted};
ghost use Rattle.ips_emit.specs.Emitted.{IsEmitted, Provenance, Turn, staged_bytes};
ghost use Rattle.ips_journal.specs.Reading.{puts_in};

/// Where each path of an order was added with what becomes of it, the steps are those of the plan in that order, and what is staged has just
/// their contents. What is staged is as much as the steps put.
pub fn emitted_steps_are_a_plan()
    ensures steps { (change : Changes) (paths : List (List ℕ)) (bytes : List ℕ → List ℕ) (t : Image) (provenances : List Provenance) (e : Emitted) → IsEmitted bytes t (map (λ p. (p, change p)) paths) provenances e → map step_of e.steps.items ≡ steps_of change 0 paths }
    ensures staged { (change : Changes) (paths : List (List ℕ)) (bytes : List ℕ → List ℕ) (t : Image) (provenances : List Provenance) (e : Emitted) → IsEmitted bytes t (map (λ p. (p, change p)) paths) provenances e → map (staged_bytes bytes t) e.staged.items ≡ contents_of change paths }
    ensures counted { (bytes : List ℕ → List ℕ) (t : Image) (turns : List Turn) (provenances : List Provenance) (e : Emitted) → IsEmitted bytes t turns provenances e → puts_in (map step_of e.steps.items) ≡ length e.staged.items }
{}
