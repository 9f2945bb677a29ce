//! Laws of what is due, each the contract of a function that does nothing.

ghost use Rattle.std.specs.Prelude.{◌≡◌, ℕ, ◌<◌, List, Option, Some, None, is_some, is_none, codes, Bool, IsTrue, IsFalse};
ghost use Rattle.ips_text.specs.Ancestry.{is_below};
ghost use Rattle.ips_outside.specs.Image.{File, Image, IsImage, is_dir};
ghost use Rattle.ips_state.specs.Lawful.{IsLawful};
ghost use Rattle.ips_steps.specs.Private.{records_name};
ghost use Rattle.ips_manifest.specs.declared.package.Package.{Package};
ghost use Rattle.ips_filter.specs.Settings.{Set};
ghost use Rattle.ips_mediate.specs.declared.set.SetMediator.{SetMediator};
ghost use Rattle.ips_conflict.specs.Clash.{has_legacy};
ghost use Rattle.ips_meaning.specs.declared.entry.Entry.{Entry};
ghost use Rattle.ips_after.specs.After.{IsEmptied, image_after};
ghost use Rattle.ips_after.specs.Planned.{IsNameable, IsProperRequest};
ghost use Rattle.ips_after.specs.Salvage.{Aside, IsAside, IsOwn, IsRoot};
ghost use Rattle.ips_due.specs.Apart.{LeavesSalvage};
ghost use Rattle.ips_change.specs.wanted.Wanted.{want_of};
ghost use Rattle.ips_steps.specs.Journal.{may_name};
ghost use Rattle.ips_after.specs.Lists.{listed};
ghost use Rattle.ips_after.specs.Request.{is_dir_wanted, IsRequest, IsWant, OverFits, Over, Request, Want};
ghost use Rattle.ips_state.specs.State.{Recorded};
ghost use Rattle.ips_due.specs.State.{state_due};
ghost use Rattle.ips_due.specs.Asked.{AreMeant, request_between};
ghost use Rattle.ips_after.specs.Findings.{is_account_path};
ghost use Rattle.ips_due.specs.Delivered.{AreNamedByBytes, CanBeNamed, Delivered, creation_due, request_due};
ghost use Rattle.ips_due.specs.Due.{account_at, Content, Due, DueFile, HasProperDue, is_due, FitsAccounts, goes_with, holds_content, is_own, IsDue, IsOverOf, LeavesOwn, MeansSame, record_at, said};

/// What account files and records say by what is due fits what is wanted.
pub fn due_fits_the_want()
    ensures { (bytes : List ℕ → List ℕ) (holds : List ℕ → List ℕ → Bool) (due : Due) (t : Image) (o : Over) (new : Want) → IsDue due → IsOverOf bytes holds due t o → IsWant new → FitsAccounts due new → LeavesOwn due new → OverFits o new }
{}

/// A journal can name each path of which they speak.
pub fn due_can_be_named()
    ensures { (bytes : List ℕ → List ℕ) (holds : List ℕ → List ℕ → Bool) (due : Due) (t : Image) (o : Over) (q : List ℕ) → IsDue due → IsOverOf bytes holds due t o → IsTrue (is_some (o.at q)) → IsTrue (may_name q) }
{}

/// A record that stands as it should, and that doesn't go with what is above it, isn't spoken of, nor is what goes where nothing stands.
pub fn standing_is_not_spoken_of()
    ensures stands { (bytes : List ℕ → List ℕ) (holds : List ℕ → List ℕ → Bool) (due : Due) (t : Image) (q : List ℕ) (content : Content) → account_at due.accounts q ≡ None → record_at due.records q ≡ Some content
        → IsTrue (holds_content holds content (t.look q)) → IsFalse (goes_with due q) → said bytes holds due t q ≡ None }
    ensures absent { (bytes : List ℕ → List ℕ) (holds : List ℕ → List ℕ → Bool) (due : Due) (t : Image) (q : List ℕ) → account_at due.accounts q ≡ None → record_at due.records q ≡ None → IsFalse (listed due.renewed q) → IsFalse (listed due.folders q)
        → IsTrue (is_none (t.look q)) → said bytes holds due t q ≡ None }
{}

/// So it stands behind the request too, with its content: where nothing of the image's own was wanted before, and what is wanted leaves
/// that to the image.
pub fn standing_records_stay()
    ensures { (due : Due) (t : Image) (r : Request) (emptied : List ℕ → Bool) (q : List ℕ) (content : Content) → IsRequest r → IsImage t → IsEmptied r t emptied → IsDue due → IsOverOf r.bytes r.holds due t r.over → LeavesOwn due r.new
        → ((x : List ℕ) → IsTrue (is_own x) → r.old.at x ≡ None)
        → account_at due.accounts q ≡ None → record_at due.records q ≡ Some content → IsTrue (holds_content r.holds content (t.look q)) → IsFalse (goes_with due q)
        → IsTrue (holds_content r.holds content ((image_after r t emptied).look q)) }
{}

/// Between what packages mean, with what is due behind the request, there is a request such as the laws of the image after ask for:
/// its Wants and what account files and records say fit, a journal can name what it is about, and its parts are proper. Records of
/// legacy packages are due only where the new packages have such an entry.
pub fn requests_are_lawful()
    ensures request { (so sn : Set) (mo mn : List SetMediator) (po pn : List Package) (old new : List (List ℕ × Entry)) (was : AreMeant so mo po old) (is : AreMeant sn mn pn new)
        → (bytes : List ℕ → List ℕ) (holds : List ℕ → List ℕ → Bool) (due : Due) (t : Image) (o : Over) → IsDue due → IsOverOf bytes holds due t o → FitsAccounts due (want_of new)
        → ((q : List ℕ) → IsTrue (is_below (codes "var/sadm/pkg") q) → IsTrue (is_due due q) → IsTrue (has_legacy is.mean.taken.kept))
        → IsRequest (request_between old new bytes holds o) }
    ensures names { (so sn : Set) (mo mn : List SetMediator) (po pn : List Package) (old new : List (List ℕ × Entry)) → AreMeant so mo po old → AreMeant sn mn pn new
        → (bytes : List ℕ → List ℕ) (holds : List ℕ → List ℕ → Bool) (due : Due) (t : Image) (o : Over) → IsDue due → IsOverOf bytes holds due t o → IsTrue (is_dir (t.look records_name))
        → IsNameable (request_between old new bytes holds o) t }
    ensures proper { (so sn : Set) (mo mn : List SetMediator) (po pn : List Package) (old new : List (List ℕ × Entry)) → AreMeant so mo po old → AreMeant sn mn pn new
        → (bytes : List ℕ → List ℕ) (holds : List ℕ → List ℕ → Bool) (due : Due) (t : Image) (o : Over) → IsDue due → HasProperDue due → IsOverOf bytes holds due t o
        → IsProperRequest (request_between old new bytes holds o) }
{}

/// All of this depends only on what is due at each path: where that is the same, the same is said of each path and by the same keys, and one hangs
/// together, and has proper parts, where the other does.
pub fn due_is_told_by_paths()
    ensures said { (a b : Due) → MeansSame a b → (bytes : List ℕ → List ℕ) (holds : List ℕ → List ℕ → Bool) (t : Image) (q : List ℕ) → said bytes holds a t q ≡ said bytes holds b t q }
    ensures over { (a b : Due) → MeansSame a b → (bytes : List ℕ → List ℕ) (holds : List ℕ → List ℕ → Bool) (t : Image) (o : Over) → IsOverOf bytes holds a t o → IsOverOf bytes holds b t o }
    ensures due { (a b : Due) → MeansSame a b → (q : List ℕ) → is_due a q ≡ is_due b q }
    ensures together { (a b : Due) → MeansSame a b → IsDue a → IsDue b }
    ensures proper { (a b : Due) → MeansSame a b → HasProperDue a → HasProperDue b }
{}

/// What a change of an image's state makes due hangs together, in both formats of the records and from the older to the newer one.
pub fn state_hangs_together()
    ensures { (old new : Recorded) → IsDue (state_due old new) }
{}

/// What a request makes due hangs together: account files, the records of the new state in its format, and owners, drivers, licenses and
/// legacy packages; what was recorded and isn't any more goes, with the folder of its stem where nothing else is due there.
pub fn requests_hang_together()
    ensures { (accounts : List DueFile) (old new : Recorded) (was is : Delivered) → ((q : List ℕ) → IsTrue (is_some (account_at accounts q)) → IsTrue (is_account_path q)) → AreNamedByBytes was → AreNamedByBytes is
        → IsDue (request_due accounts old new was is) }
{}

/// So does what an image is made with: its records, in which nothing is installed, and the folders of licenses, of packages and of what was lost.
pub fn creations_hang_together()
    ensures { (new : Recorded) → IsDue (creation_due new) }
{}

/// Its paths are paths, and a journal can hold the modes: where both states are lawful, and what packages deliver can be named by files.
pub fn requests_have_proper_due()
    ensures { (accounts : List DueFile) (old new : Recorded) (was is : Delivered) → ((q : List ℕ) → IsTrue (is_some (account_at accounts q)) → IsTrue (is_account_path q))
        → ((q : List ℕ) (m : ℕ) (b : List ℕ) → account_at accounts q ≡ Some (File m b) → m < 4096) → IsLawful old → IsLawful new → CanBeNamed was → CanBeNamed is → HasProperDue (request_due accounts old new was is) }
{}

/// And the paths of what an image is made with are paths, where its state is lawful.
pub fn creations_have_proper_due()
    ensures { (new : Recorded) → IsLawful new → HasProperDue (creation_due new) }
{}

/// What is salvaged lies apart from what account files and records speak of: in the image's own folder, which stands and is wanted, or beside what is
/// wanted. So the folder of the records is the image's own, as the laws of what is saved ask for.
pub fn salvage_lies_apart()
    ensures { (moment : List ℕ) (r : Request) (t : Image) (a : Aside) → IsRequest r → IsImage t → IsTrue (is_dir (t.look records_name)) → IsTrue (is_dir_wanted (r.new.at records_name))
        → ((q : List ℕ) → IsTrue (is_own q) → r.old.at q ≡ None) → ((q : List ℕ) → IsTrue (is_own q) → r.new.at q ≡ None)
        → LeavesSalvage r.over → IsRoot t moment a.root → IsAside r t a → IsOwn r t a }
{}

/// What a request makes due leaves the folder of all salvage folders alone.
pub fn requests_leave_salvage()
    ensures { (bytes : List ℕ → List ℕ) (holds : List ℕ → List ℕ → Bool) (accounts : List DueFile) (old new : Recorded) (was is : Delivered) (t : Image) (o : Over)
        → ((q : List ℕ) → IsTrue (is_some (account_at accounts q)) → IsTrue (is_account_path q)) → AreNamedByBytes was → AreNamedByBytes is
        → IsOverOf bytes holds (request_due accounts old new was is) t o → LeavesSalvage o }
{}
