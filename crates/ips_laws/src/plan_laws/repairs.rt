//! Laws of repairs, each the contract of a function that does nothing.

ghost use Rattle.std.specs.Prelude.{◌≡◌, ◌≢◌, ℕ, Bool, IsTrue, List, None, map};
ghost use Rattle.ips_outside.specs.Image.{Image};
ghost use Rattle.ips_steps.specs.View.{step_of};
ghost use Rattle.ips_meaning.specs.declared.entry.Entry.{Entry};
ghost use Rattle.ips_state.specs.State.{recorded};
ghost use Rattle.ips_state.specs.declared.state.State.{State};
ghost use Rattle.ips_emit.specs.declared.emitting.Emitted as emitting;
ghost use Rattle.ips_plan.specs.image_plan.Meaning.{StateMeans};
ghost use Rattle.ips_plan_limits.specs.Limits.{first_excess};
ghost use Rattle.ips_repair.specs.Meant.{IsRepairedImage};
ghost use Rattle.ips_repair.specs.Repairing.{AreRepairSteps, ComesOfRepairAt};
ghost use Rattle.ips_repair.specs.declared.fault.RepairFault as repair;
ghost use Rattle.ips_repair.specs.declared.fault.RepairFault.TheVariants as fault;
ghost use Rattle.ips_laws.specs.plan_laws.Alike.{AreLikeSteps, IsSameRepairFault};

/// There is one repaired image: the image before, the records, the repository and the moment leave no choice.
pub fn repaired_image_is_one()
    ensures { (moment : ℕ) (new next : State) (repository t a b : Image) → recorded new ≡ recorded next → IsRepairedImage moment new repository t a → IsRepairedImage moment next repository t b → a ≡ b }
{}

/// The steps of a repair by what the packages of states with the same records mean, which leaves this history, are like.
pub fn repair_steps_are_one()
    ensures { (moment : ℕ) (a b : State) (history : List (List ℕ)) (want other : List (List ℕ × Entry)) (t : Image) (d e : emitting.Emitted) → recorded a ≡ recorded b → StateMeans a want → StateMeans b other
        → AreRepairSteps moment history want t d → AreRepairSteps moment history other t e → AreLikeSteps t d e }
{}

/// Where there are none, it is for one cause, unless a call failed, where the folder tells what it holds.
pub fn unrepaired_is_one()
    ensures { (told : Bool) (moment : ℕ) (a b : State) (history : List (List ℕ)) (want other : List (List ℕ × Entry)) (t : Image) (why cause : repair.RepairFault) → IsTrue told → recorded a ≡ recorded b → StateMeans a want → StateMeans b other
        → ComesOfRepairAt told t moment history want why → ComesOfRepairAt told t moment history other cause → why ≢ fault.FolderFault → cause ≢ fault.FolderFault → IsSameRepairFault why cause }
{}

/// Where there are such steps, and no more of them than there may be, there is no cause but a failed call.
pub fn repair_excludes_causes()
    ensures { (told : Bool) (moment : ℕ) (a b : State) (history : List (List ℕ)) (want other : List (List ℕ × Entry)) (t : Image) (e : emitting.Emitted) (why : repair.RepairFault) → IsTrue told → recorded a ≡ recorded b → StateMeans a want → StateMeans b other
        → AreRepairSteps moment history want t e → first_excess (map step_of e.steps.items) e.staged.items ≡ None → ComesOfRepairAt told t moment history other why → why ≡ fault.FolderFault }
{}
