//! Laws of what packages mean, each the contract of a function that does nothing.

ghost use Rattle.std.specs.Prelude.{◌≡◌, ◌↔◌, true, ℕ, ◌||◌, List, map, Option, Some, None, is_some, codes, IsTrue};
ghost use Rattle.std.specs.List.{Contains};
ghost use Rattle.std.specs.List.Sorted.{IsStrictlySortedBy};
ghost use Rattle.std.specs.Ordering.{nat_cmp};
ghost use Rattle.std.specs.Cmp.Lexicographic.{slice_cmp};
ghost use Rattle.ips_text.specs.Ancestry.{is_below, covers};
ghost use Rattle.ips_text.specs.Path.{IsPath};
ghost use Rattle.ips_digest.specs.Digest.{algorithm_of, digest_of};
ghost use Rattle.ips_digest.specs.Name.{IsName, spelling};
ghost use Rattle.ips_digest.specs.declared.name.PayloadName.{PayloadName};
ghost use Rattle.ips_change.specs.wanted.Named.{is_payload_of};
ghost use Rattle.ips_steps.specs.Private.{records_name};
ghost use Rattle.ips_steps.specs.Journal.{may_name};
ghost use Rattle.ips_manifest.specs.declared.package.Package.{Package};
ghost use Rattle.ips_filter.specs.Settings.{Set};
ghost use Rattle.ips_mediate.specs.declared.set.SetMediator.{SetMediator};
ghost use Rattle.ips_meaning.specs.declared.entry.Entry.{Entry};
ghost use Rattle.ips_meaning.specs.Want.{PackagesMean};
ghost use Rattle.ips_meaning.specs.Together.{AreProper, HangTogether};
ghost use Rattle.ips_conflict.specs.Clash.{has_legacy};
ghost use Rattle.ips_after.specs.Request.{IsWant, WantHard, Wanted, is_dir_wanted, is_file_wanted};
ghost use Rattle.ips_after.specs.Planned.{HasWantedParts};
ghost use Rattle.ips_change.specs.wanted.Wanted.{AreLinkBytes, want_of, wanted_of};

/// Entries in the order of their paths, each path once, that hang together are a Want; each is wanted at its path, and nothing
/// else is wanted.
pub fn meanings_are_wants()
    ensures want { (entries : List (List ℕ × Entry)) → IsStrictlySortedBy (slice_cmp nat_cmp) (map (λ e. e.0) entries) → HangTogether entries → IsWant (want_of entries) }
    ensures found { (entries : List (List ℕ × Entry)) (path : List ℕ) (entry : Entry) → IsStrictlySortedBy (slice_cmp nat_cmp) (map (λ e. e.0) entries)
        → Contains entries (path, entry) → (want_of entries).at path ≡ Some (wanted_of entry) }
    ensures only { (entries : List (List ℕ × Entry)) (path : List ℕ) (w : Wanted) → (want_of entries).at path ≡ Some w → (entry : Entry) × Contains entries (path, entry) × (w ≡ wanted_of entry) }
{}

/// A hard link that packages mean leads to a wanted file.
pub fn links_lead_to_files()
    ensures { (entries : List (List ℕ × Entry)) (path to : List ℕ) → IsStrictlySortedBy (slice_cmp nat_cmp) (map (λ e. e.0) entries) → HangTogether entries
        → (want_of entries).at path ≡ Some (WantHard to) → IsTrue (is_file_wanted ((want_of entries).at to)) }
{}

/// What packages mean has proper parts: paths are paths, modes are permission bits, and links say what one can say.
pub fn parts_are_proper()
    ensures { (entries : List (List ℕ × Entry)) (path : List ℕ) (w : Wanted) → AreProper entries → AreLinkBytes entries → (want_of entries).at path ≡ Some w → IsPath path × HasWantedParts w }
{}

/// Packages leave the folders of the image's records to the image: that of its own is wanted as a directory, and that of legacy packages
/// where one has an entry; nothing below them is wanted; and a journal can name each other wanted path that isn't above the first.
pub fn own_folders_are_left()
    ensures wanted { (settings : Set) (mediators : List SetMediator) (packages : List Package) (entries : List (List ℕ × Entry)) → PackagesMean settings mediators packages entries
        → IsTrue (is_dir_wanted ((want_of entries).at records_name)) }
    ensures none { (settings : Set) (mediators : List SetMediator) (packages : List Package) (entries : List (List ℕ × Entry)) (path : List ℕ) → PackagesMean settings mediators packages entries
        → IsTrue (is_below records_name path) → (want_of entries).at path ≡ None }
    ensures legacy_none { (settings : Set) (mediators : List SetMediator) (packages : List Package) (entries : List (List ℕ × Entry)) (path : List ℕ) → PackagesMean settings mediators packages entries
        → IsTrue (is_below (codes "var/sadm/pkg") path) → (want_of entries).at path ≡ None }
    ensures legacy { (settings : Set) (mediators : List SetMediator) (packages : List Package) (entries : List (List ℕ × Entry)) (mean : PackagesMean settings mediators packages entries)
        → IsTrue (has_legacy mean.taken.kept) → IsTrue (is_dir_wanted ((want_of entries).at (codes "var/sadm/pkg"))) }
    ensures names { (settings : Set) (mediators : List SetMediator) (packages : List Package) (entries : List (List ℕ × Entry)) (path : List ℕ) → PackagesMean settings mediators packages entries
        → IsTrue (is_some ((want_of entries).at path)) → IsTrue (may_name path || covers path records_name) }
{}

/// Bytes are a payload's by the spelling of its name just where their digest is that name.
pub fn names_are_digests()
    ensures { (name : PayloadName) (bytes : List ℕ) → IsName name → IsName (digest_of (algorithm_of name) bytes) → is_payload_of (spelling name) bytes ≡ true ↔ digest_of (algorithm_of name) bytes ≡ name }
{}
