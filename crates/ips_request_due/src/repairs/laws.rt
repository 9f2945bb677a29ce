//! Laws of repairs, each the contract of a function that does nothing.

ghost use Rattle.std.specs.Prelude.{◌≡◌, ◌||◌, ℕ, List, Bool, IsTrue, None, is_some};
ghost use Rattle.ips_text.specs.Ancestry.{covers};
ghost use Rattle.ips_outside.specs.Image.{Image, is_dir};
ghost use Rattle.ips_steps.specs.Private.{records_name, visible};
ghost use Rattle.ips_steps.specs.Journal.{may_name};
ghost use Rattle.ips_manifest.specs.declared.package.Package.{Package};
ghost use Rattle.ips_filter.specs.Settings.{Set};
ghost use Rattle.ips_mediate.specs.declared.set.SetMediator.{SetMediator};
ghost use Rattle.ips_meaning.specs.declared.entry.Entry.{Entry};
ghost use Rattle.ips_after.specs.Planned.{IsNameable, IsProperRequest};
ghost use Rattle.ips_after.specs.Repaired.{IsRepair, Repair, request_of};
ghost use Rattle.ips_after.specs.Findings.{findings};
ghost use Rattle.ips_after.specs.Request.{Over};
ghost use Rattle.ips_due.specs.Apart.{LeavesSalvage};
ghost use Rattle.ips_due.specs.Asked.{AreMeant};
ghost use Rattle.ips_due.specs.Due.{HasProperDue, IsDue, IsOverOf, is_own};
ghost use Rattle.ips_request_due.specs.repairs.Repairing.{repair_between, repair_due};

/// What a repair makes due hangs together, has proper parts, and leaves the folder of all salvage folders alone.
pub fn repairs_hang_together()
    ensures due { (history : List (List ℕ)) → IsDue (repair_due history) }
    ensures proper { (history : List (List ℕ)) → HasProperDue (repair_due history) }
    ensures salvage { (bytes : List ℕ → List ℕ) (holds : List ℕ → List ℕ → Bool) (history : List (List ℕ)) (t : Image) (o : Over) → IsOverOf bytes holds (repair_due history) t o → LeavesSalvage o }
{}

/// A repair of what packages mean is one such as the laws of the repaired image ask for; as a request it can be named by a journal, has proper parts, and
/// leaves the image's own folders to it.
pub fn repairs_are_lawful()
    ensures repair { (settings : Set) (mediators : List SetMediator) (packages : List Package) (entries : List (List ℕ × Entry)) → AreMeant settings mediators packages entries
        → (bytes : List ℕ → List ℕ) (holds : List ℕ → List ℕ → Bool) (history : List (List ℕ)) (t : Image) (o : Over) → IsOverOf bytes holds (repair_due history) t o → IsRepair (repair_between entries bytes holds o) }
    ensures names { (settings : Set) (mediators : List SetMediator) (packages : List Package) (entries : List (List ℕ × Entry)) → AreMeant settings mediators packages entries
        → (bytes : List ℕ → List ℕ) (holds : List ℕ → List ℕ → Bool) (history : List (List ℕ)) (t : Image) (o : Over) → IsOverOf bytes holds (repair_due history) t o → IsTrue (is_dir (t.look records_name))
        → IsNameable (request_of (repair_between entries bytes holds o) t) t }
    ensures proper { (settings : Set) (mediators : List SetMediator) (packages : List Package) (entries : List (List ℕ × Entry)) → AreMeant settings mediators packages entries
        → (bytes : List ℕ → List ℕ) (holds : List ℕ → List ℕ → Bool) (history : List (List ℕ)) (t : Image) (o : Over) → IsOverOf bytes holds (repair_due history) t o
        → IsProperRequest (request_of (repair_between entries bytes holds o) t) }
    ensures own_new { (settings : Set) (mediators : List SetMediator) (packages : List Package) (entries : List (List ℕ × Entry)) → AreMeant settings mediators packages entries
        → (bytes : List ℕ → List ℕ) (holds : List ℕ → List ℕ → Bool) (t : Image) (o : Over) (q : List ℕ) → IsTrue (is_own q) → (request_of (repair_between entries bytes holds o) t).new.at q ≡ None }
    ensures own_old { (settings : Set) (mediators : List SetMediator) (packages : List Package) (entries : List (List ℕ × Entry)) → AreMeant settings mediators packages entries
        → (bytes : List ℕ → List ℕ) (holds : List ℕ → List ℕ → Bool) (t : Image) (o : Over) (q : List ℕ) → IsTrue (is_own q) → (request_of (repair_between entries bytes holds o) t).old.at q ≡ None }
{}

/// What is found in the whole image is what is found in the visible one, so a repair is the same request of both, where no wanted path is private.
pub fn findings_are_of_the_visible_image()
    ensures findings { (f : Repair) (h : Image) → IsRepair f → ((q : List ℕ) → IsTrue (is_some (f.want.at q)) → IsTrue (may_name q || covers q records_name)) → findings f.holds f.want (visible h) ≡ findings f.holds f.want h }
    ensures request { (f : Repair) (h : Image) → IsRepair f → ((q : List ℕ) → IsTrue (is_some (f.want.at q)) → IsTrue (may_name q || covers q records_name)) → request_of f (visible h) ≡ request_of f h }
{}
