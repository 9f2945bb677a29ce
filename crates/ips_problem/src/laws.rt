//! Laws of what is asked: the stems in reach are enough, and one list; and the best selection is one.

ghost use Rattle.std.specs.Prelude.{◌≡◌, ℕ, List};
ghost use Rattle.ips_refute.specs.Meaning.{HasNoChoice, pairs};
ghost use Rattle.ips_search.specs.Best.{IsFirst};
ghost use Rattle.ips_depend.specs.Selection.{Selection};
ghost use Rattle.ips_request.specs.Case.{Case};
ghost use Rattle.ips_problem.specs.Reach.{IsReach};
ghost use Rattle.ips_problem.specs.Selecting.{IsAdmissible, IsBestSelection, restricted};
ghost use Rattle.ips_problem.specs.Posed.{meaning_of, picked, posed};

/// The law that reach is enough. An admissible selection over all stems stays admissible where the stems out of reach are left
/// out. So where no choice for the stems in reach breaks no test, no selection is admissible; and the first choice that breaks no
/// test is the best selection.
pub fn reach_is_enough()
    ensures restricted { (c : Case) (reach : List (List ℕ)) (s : Selection) → IsReach c reach → IsAdmissible c s → IsAdmissible c (restricted reach s) }
    ensures none { (c : Case) (reach : List (List ℕ)) (s : Selection) → IsReach c reach → HasNoChoice (meaning_of (posed c reach)) → IsAdmissible c s → ⊥ }
    ensures best { (c : Case) (reach : List (List ℕ)) (choice : List ℕ) → IsReach c reach → IsFirst (meaning_of (posed c reach)) choice → IsBestSelection c reach (picked (posed c reach) (pairs choice)) }
{}

/// The stems in reach of a case are one list, in one order.
pub fn reach_is_one()
    ensures { (c : Case) (a b : List (List ℕ)) → IsReach c a → IsReach c b → a ≡ b }
{}

/// The best selection is one: two of them give every stem the same version, or are both without it.
pub fn best_selection_is_one()
    ensures { (c : Case) (reach : List (List ℕ)) (s t : Selection) → IsBestSelection c reach s → IsBestSelection c reach t → (stem : List ℕ) → s stem ≡ t stem }
{}
