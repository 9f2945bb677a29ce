//! Laws of the making of an image, each the contract of a function that does nothing.

ghost use Rattle.std.specs.Prelude.{◌≡◌, ◌≢◌, ℕ, Bool, IsTrue, None, map};
ghost use Rattle.ips_outside.specs.Image.{Image};
ghost use Rattle.ips_steps.specs.View.{step_of};
ghost use Rattle.ips_state.specs.State.{recorded};
ghost use Rattle.ips_state.specs.declared.state.State.{State};
ghost use Rattle.ips_emit.specs.declared.emitting.Emitted as emitting;
ghost use Rattle.ips_plan_limits.specs.Limits.{first_excess};
ghost use Rattle.ips_plan.specs.created.Creating.{AreCreationSteps, ComesOfCreation};
ghost use Rattle.ips_plan.specs.declared.created.fault.CreateFault as create;
ghost use Rattle.ips_plan.specs.declared.created.fault.CreateFault.TheVariants as fault;
ghost use Rattle.ips_laws.specs.plan_laws.Alike.{AreLikeSteps, IsSameCreateFault};

/// The steps that make an image with these records are like.
pub fn creation_steps_are_one()
    ensures { (moment : ℕ) (new next : State) (t : Image) (d e : emitting.Emitted) → recorded new ≡ recorded next → AreCreationSteps moment new t d → AreCreationSteps moment next t e → AreLikeSteps t d e }
{}

/// Where there are none, it is for one cause, unless a call failed, where the folder tells what it holds.
pub fn uncreated_is_one()
    ensures { (told : Bool) (moment : ℕ) (new next : State) (t : Image) (why cause : create.CreateFault) → IsTrue told → recorded new ≡ recorded next
        → ComesOfCreation told t moment new why → ComesOfCreation told t moment next cause → why ≢ fault.FolderFault → cause ≢ fault.FolderFault → IsSameCreateFault why cause }
{}

/// Where there are such steps, and no more of them than there may be, there is no cause but a failed call.
pub fn creation_excludes_causes()
    ensures { (told : Bool) (moment : ℕ) (new next : State) (t : Image) (e : emitting.Emitted) (why : create.CreateFault) → IsTrue told → recorded new ≡ recorded next
        → AreCreationSteps moment new t e → first_excess (map step_of e.steps.items) e.staged.items ≡ None → ComesOfCreation told t moment next why → why ≡ fault.FolderFault }
{}
