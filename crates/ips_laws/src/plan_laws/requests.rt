//! Laws of requests, each the contract of a function that does nothing.

ghost use Rattle.std.specs.Prelude.{◌≡◌, ◌⊎◌, ℕ, Bool, IsTrue};
ghost use Rattle.ips_outside.specs.Image.{Image, is_dir};
ghost use Rattle.ips_steps.specs.Private.{records_name};
ghost use Rattle.ips_state.specs.State.{recorded};
ghost use Rattle.ips_state.specs.declared.state.State.{State};
ghost use Rattle.ips_plan.specs.image_plan.Accounts.{Given};
ghost use Rattle.ips_plan.specs.declared.request_plan.fault.PlanFault as plan;
ghost use Rattle.ips_plan.specs.declared.request_plan.fault.PlanFault.TheVariants as fault;
ghost use Rattle.ips_plan.specs.declared.request_plan.planning.Plan as planning;
ghost use Rattle.ips_plan.specs.requested.Meant.{ComesAt, IsMeant, IsPlanAt};
ghost use Rattle.ips_laws.specs.plan_laws.Alike.{AreLikePlans, IsOfNoCall, IsSameCause};

use ips_account_files::{answers_are_one, due_files_fit};

/// There is one image after a request: the image before, the records of both states, the repository and the moment leave no choice.
pub fn image_after_is_one()
    ensures { (moment : ℕ) (old other new next : State) (repository t a b : Image) → recorded old ≡ recorded other → recorded new ≡ recorded next
        → IsMeant moment old new repository t a → IsMeant moment other next repository t b → a ≡ b }
{
    answers_are_one();
}

/// Plans of one request are like, where folder and source tell what they hold and the folder of the records stands: they have the same steps, what is staged for
/// them comes from like sources, and licenses, words and counts are the same.
pub fn plans_are_one()
    ensures { (g : Given) (moment : ℕ) (old other new next : State) (accept : Bool) (p q : planning.Plan) → IsTrue g.told → IsTrue g.tells → IsTrue (is_dir (g.image.look records_name))
        → recorded old ≡ recorded other → recorded new ≡ recorded next → IsPlanAt g moment old new accept p → IsPlanAt g moment other next accept q → AreLikePlans g.image p q }
{
    answers_are_one();
    due_files_fit();
}

/// A request that has no plan has none for one cause, unless a call failed, where folder and source tell what they hold and the folder of the records stands.
pub fn unplanned_is_one()
    ensures { (g : Given) (moment : ℕ) (old other new next : State) (accept : Bool) (why cause : plan.PlanFault) → IsTrue g.told → IsTrue g.tells → IsTrue (is_dir (g.image.look records_name))
        → recorded old ≡ recorded other → recorded new ≡ recorded next → ComesAt g moment old new accept why → ComesAt g moment other next accept cause
        → IsOfNoCall why → IsOfNoCall cause → IsSameCause why cause }
{
    answers_are_one();
    due_files_fit();
}

/// A request that has a plan has no cause against it but a failed call, where folder and source tell what they hold and the folder of the records stands.
pub fn plan_excludes_causes()
    ensures { (g : Given) (moment : ℕ) (old other new next : State) (accept : Bool) (p : planning.Plan) (why : plan.PlanFault) → IsTrue g.told → IsTrue g.tells → IsTrue (is_dir (g.image.look records_name))
        → recorded old ≡ recorded other → recorded new ≡ recorded next → IsPlanAt g moment old new accept p → ComesAt g moment other next accept why
        → (why ≡ fault.SourceFault) ⊎ (why ≡ fault.FolderFault) }
{
    answers_are_one();
    due_files_fit();
}
