//! What is said of publications, while texts are put.

ghost use Rattle.std.specs.Prelude.{◌≡◌, ℕ, Bool, List, ◌∷◌, Vec, IsTrue, IsFalse, Some, None, length, slice_get};
ghost use Rattle.std.specs.declared.alloc.Global.{Global};
ghost use Rattle.ips_text.specs.Ancestry.{covers};
ghost use Rattle.ips_outside.specs.Image.{Image, File, is_dir};
ghost use Rattle.ips_folder.specs.Calls.{Throughout};
ghost use Rattle.ips_steps.specs.Steps.{Step};
ghost use Rattle.ips_steps.specs.Private.{records_name, gate_name, visible};
ghost use Rattle.ips_steps.specs.Journal.{IsJournal};
ghost use Rattle.ips_journal.specs.Text.{journal_text};
ghost use Rattle.ips_journal.specs.declared.staged.Staged as declared;
ghost use Rattle.ips_journal.specs.declared.staged.Staged.TheVariants.{Bytes};
ghost use Rattle.ips_commit.specs.Staging.{CanStage};
ghost use Rattle.ips_sends.specs.Keeps.{Keeps};
ghost use Rattle.ips_manifest.specs.declared.line.Line.{Line};
ghost use Rattle.ips_catalog.specs.Listed.{Listed};
ghost use Rattle.ips_text.specs.Quote.{quoted};
ghost use Rattle.ips_digest.specs.declared.name.PayloadName as names;
ghost use Rattle.ips_fmri.specs.Name.{IsPublisher};
ghost use Rattle.ips_fmri.specs.Version.{Parts, version_text};
ghost use Rattle.ips_repo.specs.Places.{mark_place, catalog_place, manifest_place, payload_place};
ghost use Rattle.ips_repo.specs.Mark.{is_repository};
ghost use Rattle.ips_sends.specs.Whole.{Attempt, AreWholeOrOut, IsInCatalog, IsWhole};
ghost use Rattle.ips_put.specs.Putting.{AreGiven, IsMeant, Puts};
ghost use Rattle.ips_put.specs.Two.{two_puts, CanPutTwo};
ghost use Rattle.ips_put.specs.Ready.{manifest_of, place_of_catalog, IsReadyToPut, AreApart};

use ips_folder::Folder;
use ips_outside::Source;

/// Where something is said of the image that was seen and of each that is meant, it is said at every moment while the texts are put; and
/// behind that what is said of each that is meant.
pub fn puts_keep<F: Folder>()
    ensures moments { (steps : List Step) (staged : List declared.Staged) (t : Image) (is_done : Bool) (xs : List Attempt) (old new : F) → Puts F.outside (IsMeant steps staged t) is_done old new
        → AreWholeOrOut xs (visible (F.outside.state old).held) → ((a : Image) → IsMeant steps staged t a → AreWholeOrOut xs a) → Throughout F.outside old new (Keeps journal_text (AreWholeOrOut xs)) }
    ensures done { (steps : List Step) (staged : List declared.Staged) (t : Image) (is_done : Bool) (xs : List Attempt) (old new : F) → Puts F.outside (IsMeant steps staged t) is_done old new
        → IsTrue is_done → ((a : Image) → IsMeant steps staged t a → AreWholeOrOut xs a) → Keeps journal_text (AreWholeOrOut xs) (F.outside.state new) }
{}

/// Two texts, at paths of which neither stands at or above the other and each stands in a directory, can be put at once; where they are, what
/// is meant has them there, and every other path as it was.
pub fn two_texts_are_put()
    ensures lists { (t : Image) (p q : List ℕ) → CanPutTwo t p q → IsJournal (two_puts p q) }
    ensures can { (t : Image) (p q : List ℕ) (staged : List declared.Staged) → CanPutTwo t p q → AreGiven staged → length staged ≡ 2 → IsTrue (is_dir (t.look records_name)) → t.look gate_name ≡ None → CanStage (two_puts p q) staged t }
    ensures first { (t a : Image) (p q : List ℕ) (staged : List declared.Staged) (bytes : Vec ℕ Global) → CanPutTwo t p q → IsMeant (two_puts p q) staged t a → slice_get staged 0 ≡ Some (Bytes bytes) → a.look p ≡ Some (File 420 bytes.items) }
    ensures second { (t a : Image) (p q : List ℕ) (staged : List declared.Staged) (bytes : Vec ℕ Global) → CanPutTwo t p q → IsMeant (two_puts p q) staged t a → slice_get staged 1 ≡ Some (Bytes bytes) → a.look q ≡ Some (File 420 bytes.items) }
    ensures others { (t a : Image) (p q : List ℕ) (staged : List declared.Staged) (r : List ℕ) → CanPutTwo t p q → IsMeant (two_puts p q) staged t a → IsFalse (covers p r) → IsFalse (covers q r) → a.look r ≡ (visible t).look r }
{}

/// What is put of a package that is ready to be put is whole: the catalog lists its version, its manifest has its actions, and its contents are
/// intact.
pub fn what_is_put_is_whole()
    ensures { (t a : Image) (x : Attempt) (catalog : List Listed) (lines : List Line) (manifest text : Vec ℕ Global) (staged : List declared.Staged) → IsReadyToPut t x catalog lines manifest.items text.items
        → IsMeant (two_puts (manifest_of x) (place_of_catalog x)) staged t a → slice_get staged 0 ≡ Some (Bytes manifest) → slice_get staged 1 ≡ Some (Bytes text) → IsWhole a x }
{}

/// And where of each earlier attempt was said that it is whole or out, it is said of each, and of this one, in what is meant.
pub fn all_stay_whole_or_out()
    ensures { (t a : Image) (x : Attempt) (xs : List Attempt) (catalog : List Listed) (lines : List Line) (manifest text : Vec ℕ Global) (staged : List declared.Staged) → IsReadyToPut t x catalog lines manifest.items text.items
        → AreApart x catalog xs → IsMeant (two_puts (manifest_of x) (place_of_catalog x)) staged t a → slice_get staged 0 ≡ Some (Bytes manifest) → slice_get staged 1 ≡ Some (Bytes text)
        → AreWholeOrOut xs (visible t) → AreWholeOrOut (x ∷ xs) a }
{}

/// An attempt whose version isn't listed is out, while nothing was answered: so each stays whole or out until something is put.
pub fn what_is_begun_is_out()
    ensures { (t : Image) (x : Attempt) (xs : List Attempt) → IsTrue (is_repository t) → (IsInCatalog t x → ⊥) → IsFalse x.answered → AreWholeOrOut xs t → AreWholeOrOut (x ∷ xs) t }
{}

/// No manifest and no catalog stands at or above the place of the mark, of a payload, or of one of the other; a catalog only of that publisher, a manifest
/// only of that publisher, stem and version.
pub fn places_stand_apart()
    ensures mark { (p s : List ℕ) (v : Parts) → IsFalse (covers (manifest_place p s v) mark_place) × IsFalse (covers (catalog_place p) mark_place) }
    ensures others { (p q s : List ℕ) (v : Parts) → IsPublisher p → IsPublisher q → IsFalse (covers (manifest_place p s v) (catalog_place q)) × IsFalse (covers (catalog_place p) (manifest_place q s v)) }
    ensures payloads { (p q s : List ℕ) (v : Parts) (m : names.PayloadName) → IsPublisher p → IsPublisher q → IsFalse (covers (manifest_place p s v) (payload_place q m)) × IsFalse (covers (catalog_place p) (payload_place q m)) }
    ensures catalogs { (p q : List ℕ) → IsPublisher p → IsPublisher q → IsTrue (covers (catalog_place p) (catalog_place q)) → p ≡ q }
    ensures manifests { (p q s r : List ℕ) (v w : Parts) → IsPublisher p → IsPublisher q → IsTrue (covers (manifest_place p s v) (manifest_place q r w)) → (p ≡ q) × (quoted s ≡ quoted r) × (quoted (version_text v) ≡ quoted (version_text w)) }
{}
