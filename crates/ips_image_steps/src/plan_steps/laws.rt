//! Laws of the steps of a plan, each the contract of a function that does nothing.

ghost use Rattle.std.specs.Prelude.{◌≡◌, ℕ, ◌<◌, ◌^◌, List, not, IsTrue, length};
ghost use Rattle.ips_outside.specs.Image.{Image, IsImage};
ghost use Rattle.ips_steps.specs.Steps.{all_laid, distinct, named, possible, sound, Stage, Step};
ghost use Rattle.ips_steps.specs.Journal.{IsJournal};
ghost use Rattle.ips_steps.specs.Private.{visible};
ghost use Rattle.ips_after.specs.Planned.{IsNameable, IsProperRequest, Staged};
ghost use Rattle.ips_after.specs.Request.{IsRequest, Request};
ghost use Rattle.ips_after.specs.Change.{is_kept};
ghost use Rattle.ips_after.specs.Salvage.{change_saving, IsImageAfter, IsOwn};
ghost use Rattle.ips_image_steps.specs.plan_steps.Plan.{IsPlan};

/// A plan that is made over the whole image is one over the visible image. Its steps are sound, at distinct paths, and a journal can list them; with
/// their contents staged they are possible on the whole image, and what is then visible is the image after the request. Just the paths of which something
/// becomes have a step.
pub fn plans_change_the_visible_image()
    ensures seen { (moment : List ℕ) (r : Request) (h : Image) (steps : List Step) (contents : List (List ℕ)) (plan : IsPlan moment r h steps contents) → IsRequest r → IsImage h → IsNameable r h → IsOwn r h plan.aside
        → IsPlan moment r (visible h) steps contents }
    ensures sound { (moment : List ℕ) (r : Request) (h : Image) (steps : List Step) (contents : List (List ℕ)) (plan : IsPlan moment r h steps contents) → IsRequest r → IsImage h → IsOwn r h plan.aside → IsTrue (sound steps) }
    ensures apart { (moment : List ℕ) (r : Request) (h : Image) (steps : List Step) (contents : List (List ℕ)) (plan : IsPlan moment r h steps contents) → IsRequest r → IsImage h → IsOwn r h plan.aside → IsTrue (distinct steps) }
    ensures listed { (moment : List ℕ) (r : Request) (h : Image) (steps : List Step) (contents : List (List ℕ)) (plan : IsPlan moment r h steps contents) → IsRequest r → IsImage h → IsNameable r h → IsProperRequest r → IsOwn r h plan.aside
        → length steps < 2 ^ 64 → IsJournal steps }
    ensures possible { (moment : List ℕ) (r : Request) (h : Image) (steps : List Step) (contents : List (List ℕ)) (plan : IsPlan moment r h steps contents) (stage : Stage) → IsRequest r → IsImage h → IsOwn r h plan.aside
        → Staged stage 0 contents → IsTrue (possible stage steps h) }
    ensures means { (moment : List ℕ) (r : Request) (h : Image) (steps : List Step) (contents : List (List ℕ)) (plan : IsPlan moment r h steps contents) (stage : Stage) → IsRequest r → IsImage h → IsNameable r h → IsOwn r h plan.aside
        → Staged stage 0 contents → IsImageAfter moment r (visible h) (visible (all_laid stage steps h)) }
    ensures stepped { (moment : List ℕ) (r : Request) (h : Image) (steps : List Step) (contents : List (List ℕ)) (plan : IsPlan moment r h steps contents) (q : List ℕ) → IsRequest r → IsImage h → IsOwn r h plan.aside
        → named steps q ≡ not (is_kept (change_saving r h plan.aside q)) }
{}
