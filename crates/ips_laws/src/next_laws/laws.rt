//! Laws of what a command comes to.

ghost use Rattle.std.specs.Prelude.{◌≡◌, ◌⊎◌};
ghost use Rattle.ips_state.specs.State.{Recorded};
ghost use Rattle.ips_next.specs.Decided.{limit_asked};
ghost use Rattle.ips_next.specs.Next.{ComesNext, Given, IsNext};
ghost use Rattle.ips_next.specs.declared.fault.NextFault.{NextFault};
ghost use Rattle.ips_next.specs.declared.fault.NextFault.TheVariants.{SearchSpent, SourceFault};
ghost use Rattle.ips_laws.specs.next_laws.Causes.{IsBesideSpent, IsSameCause};

/// Two causes that come of one command are the same, apart from a call that failed, which may come at any time; but that the search was spent may come
/// beside that nothing fits, and beside that nothing is to be done.
pub fn causes_are_one()
    ensures { (g : Given) (a b : NextFault) → (a ≡ SourceFault → ⊥) → (b ≡ SourceFault → ⊥) → ComesNext g a → ComesNext g b → IsSameCause a b ⊎ IsBesideSpent a b }
{}

/// Where there is a next state no cause comes, but that the search was spent under the command's limit, and that a call failed.
pub fn next_excludes_causes()
    ensures { (g : Given) (new : Recorded) (why : NextFault) → IsNext g new → ComesNext g why → (why ≡ SearchSpent (limit_asked g.what)) ⊎ (why ≡ SourceFault) }
{}
