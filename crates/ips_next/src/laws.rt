//! Laws of what is decided.

ghost use Rattle.std.specs.Prelude.{◌≡◌, ℕ, List, Option};
ghost use Rattle.ips_outside.specs.Image.{Image};
ghost use Rattle.ips_request.specs.Case.{IsReading, ManifestReading};
ghost use Rattle.ips_state.specs.State.{Installed, Recorded};
ghost use Rattle.ips_words.specs.declared.what.What.{What};
ghost use Rattle.ips_next.specs.Best.{AreBest, NoneFits};
ghost use Rattle.ips_next.specs.Decided.{ComesOfKind, HasNoSolution, IsDecided, IsPosed, chosen_over};
ghost use Rattle.ips_asked.specs.Requested.{kind_asked};
ghost use Rattle.ips_next.specs.declared.fault.NextFault as next;
ghost use Rattle.ips_next.specs.Next.{ChangesNothing, ComesNext, Given, IsNext};
ghost use Rattle.ips_problem.specs.Posed.{Posed};
ghost use Rattle.ips_repo.specs.Opening.{Opened};
ghost use Rattle.ips_request.specs.declared.request.Request.{Request};
ghost use Rattle.ips_report.specs.declared.unsolved.Tried as tried;
ghost use Rattle.ips_refute.specs.declared.nogoods.Refutation.{Refutation};

/// The packages that are decided on are those of the best selection, however manifests are read by their grammar.
pub fn decided_is_best()
    ensures { (w : What) (old asked : Recorded) (held : Image) (packages : List Installed) (avoid : List (List ℕ)) (r : ManifestReading)
        → IsDecided w old asked held packages avoid → IsReading (chosen_over w old asked).settings r → AreBest w old asked held r packages }
{}

/// Where there is no solution, no selection is admissible.
pub fn none_fits()
    ensures { (w : What) (old asked : Recorded) (held : Image) (r : ManifestReading) (request : Request) (repository : Option Opened) (p : Posed) (stems : List tried.Tried) (refutation : Refutation)
        → IsPosed w old asked held request repository p → HasNoSolution p stems refutation → IsReading (chosen_over w old asked).settings r → NoneFits w old asked held r }
{}

/// What is decided on is one: the same packages, and the same avoided stems.
pub fn decided_is_one()
    ensures { (w : What) (old asked : Recorded) (held : Image) (packages others : List Installed) (avoid more : List (List ℕ))
        → IsDecided w old asked held packages avoid → IsDecided w old asked held others more → (packages ≡ others) × (avoid ≡ more) }
{}

/// That packages are decided on and that there is no solution exclude each other.
pub fn decided_excludes_none()
    ensures { (w : What) (old asked : Recorded) (held : Image) (packages : List Installed) (avoid : List (List ℕ)) (request : Request) (repository : Option Opened) (p : Posed) (stems : List tried.Tried) (refutation : Refutation)
        → IsDecided w old asked held packages avoid → IsPosed w old asked held request repository p → HasNoSolution p stems refutation → ⊥ }
{}

/// The next state is one: the same packages, lists and settings, the same index and the same line in the history.
pub fn next_is_one()
    ensures { (g : Given) (a b : Recorded) → IsNext g a → IsNext g b → a ≡ b }
{}

/// That there is a next state and that nothing is to be done exclude each other.
pub fn next_excludes_nothing()
    ensures { (g : Given) (new : Recorded) → IsNext g new → ChangesNothing g → ⊥ }
{}

/// A fault comes only of the kinds of commands of which it may: of a pattern where there are some, and of the repository, its catalog and its manifests
/// where versions are looked for.
pub fn faults_are_of_their_kinds()
    ensures { (g : Given) (why : next.NextFault) → ComesNext g why → ComesOfKind (kind_asked g.what) why }
{}
