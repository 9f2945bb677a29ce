//! Laws of steps and of what is staged for them, each the contract of a function that does nothing.

ghost use Rattle.std.specs.Prelude.{◌≡◌, ℕ, Bool, List, None, map, true};
ghost use Rattle.ips_outside.specs.Image.{Image, IsImage};
ghost use Rattle.ips_steps.specs.Steps.{Stage, all_laid};
ghost use Rattle.ips_steps.specs.Private.{gate_name, visible};
ghost use Rattle.ips_steps.specs.View.{step_of};
ghost use Rattle.ips_moment.specs.Moment.{IsMomentText};
ghost use Rattle.ips_aside.specs.lost_and_found.Moments.{NamesMoment};
ghost use Rattle.ips_contents.specs.Contents.{StagedContents};
ghost use Rattle.ips_commit.specs.Staging.{CanStage};
ghost use Rattle.ips_after.specs.Planned.{IsNameable};
ghost use Rattle.ips_after.specs.Request.{IsRequest, Request};
ghost use Rattle.ips_after.specs.Salvage.{IsImageAfter};
ghost use Rattle.ips_change.specs.Told.{naming};
ghost use Rattle.ips_due.specs.Due.{Due, IsDue, said};
ghost use Rattle.ips_emit.specs.declared.emitting.Emitted.{Emitted};
ghost use Rattle.ips_image_steps.specs.Answers.{CanBeListed, HasSteps};
ghost use Rattle.ips_image_steps.specs.staged_plans.Payloads.{payload_bytes};

/// The steps of a request over an image can be staged there where the gate is closed, whatever bytes the contents have. Where what is staged of payloads has
/// the bytes that the repository has, what is seen once the steps are laid is the image after the request, over what is seen before.
pub fn staged_plans_mean_the_image_after()
    ensures stages { (moment : List ℕ) (r : Request) (h : Image) (e : Emitted) → HasSteps moment r h e → IsRequest r → IsImage h → CanBeListed e → h.look gate_name ≡ None → CanStage (map step_of e.steps.items) e.staged.items h }
    ensures means { (moment : List ℕ) (r : Request) (h : Image) (e : Emitted) (publisher : List ℕ) (repository : Image) (contents : Stage) → HasSteps moment r h e → IsRequest r → IsImage h → IsNameable r h
        → r.bytes ≡ payload_bytes publisher repository → StagedContents true repository publisher h e.staged.items contents
        → IsImageAfter moment (naming r) (visible h) (visible (all_laid contents (map step_of e.steps.items) h)) }
{}

/// The text of a moment can stand in the name of a folder.
pub fn moments_name_folders()
    ensures { (moment : ℕ) (text : List ℕ) → IsMomentText moment text → NamesMoment text }
{}

/// What account files and records say of each path by what is due is the same of the whole image and of the visible one.
pub fn due_is_of_the_visible_image()
    ensures { (bytes : List ℕ → List ℕ) (holds : List ℕ → List ℕ → Bool) (due : Due) (t : Image) (q : List ℕ) → IsDue due → said bytes holds due (visible t) q ≡ said bytes holds due t q }
{}
