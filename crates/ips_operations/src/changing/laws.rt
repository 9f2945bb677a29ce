//! Laws of what is told, each the contract of a function that does nothing.

ghost use Rattle.std.specs.Prelude.{List, ℕ, Bool, IsTrue, is_some};
ghost use Rattle.ips_text.specs.declared.refusal.Or.TheVariants.{Bad};
ghost use Rattle.ips_state.specs.declared.state.State.{State};
ghost use Rattle.ips_plan.specs.image_plan.Accounts.{Given};
ghost use Rattle.ips_plan.specs.request_plan.Plans.{ComesOfPlan};
ghost use Rattle.ips_plan.specs.declared.request_plan.fault.PlanFault.{PlanFault};
ghost use Rattle.ips_operations.specs.changing.Refusals.{unplanned_told};

// Each fault for which a request has no plan is told.
pub(crate) fn plan_faults_are_told()
    ensures { (g : Given) (moment : List ℕ) (old new : State) (accept : Bool) (why : PlanFault)
        → ComesOfPlan g moment old new accept why → IsTrue (is_some (unplanned_told (Bad why))) }
{}
