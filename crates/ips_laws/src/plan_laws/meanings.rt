//! Laws of what the packages of a state mean, each the contract of a function that does nothing.

ghost use Rattle.std.specs.Prelude.{◌≡◌, ℕ, List};
ghost use Rattle.ips_meaning.specs.declared.entry.Entry.{Entry};
ghost use Rattle.ips_meaning.specs.declared.fault.WantFault.{WantFault};
ghost use Rattle.ips_state.specs.State.{recorded};
ghost use Rattle.ips_state.specs.declared.state.State.{State};
ghost use Rattle.ips_change.specs.wanted.Wanted.{want_of};
ghost use Rattle.ips_plan.specs.image_plan.Meaning.{StateFails, StateMeans};
ghost use Rattle.ips_laws.specs.plan_laws.Alike.{IsSameUnmeant};

/// States with the same records want the same at each path.
pub fn want_is_one()
    ensures { (a b : State) (x y : List (List ℕ × Entry)) → recorded a ≡ recorded b → StateMeans a x → StateMeans b y → want_of x ≡ want_of y }
{}

/// Where their packages mean no image, it is for one fault.
pub fn unmeant_is_one()
    ensures { (a b : State) (why other : WantFault) → recorded a ≡ recorded b → StateFails a why → StateFails b other → IsSameUnmeant why other }
{}

/// Where those of one have a fault, those of the other mean nothing.
pub fn want_or_fault()
    ensures { (a b : State) (why : WantFault) (y : List (List ℕ × Entry)) → recorded a ≡ recorded b → StateFails a why → StateMeans b y → ⊥ }
{}
