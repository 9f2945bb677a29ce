//! What a report tells, each law the contract of a function that does nothing.

ghost use Rattle.std.specs.Prelude.{◌≡◌, ◌<◌, ◌^◌, ℕ, ◌++◌, ◌∷◌, [], Bool, IsFalse, List, codes, map};
ghost use Rattle.ips_text.specs.Kept.{Kept};
ghost use Rattle.ips_text.specs.Path.{IsPath};
ghost use Rattle.ips_digest.specs.Name.{IsName};
ghost use Rattle.ips_digest.specs.declared.name.PayloadName.{PayloadName};
ghost use Rattle.ips_syntax.specs.declared.table.Why.{Why};
ghost use Rattle.ips_books.specs.declared.books.Book.{Book};
ghost use Rattle.ips_report.specs.Report.{report_text};
ghost use Rattle.ips_report.specs.declared.outcome.Outcome.{Outcome};
ghost use Rattle.ips_report.specs.declared.outcome.Outcome.TheVariants as outcome;
ghost use Rattle.ips_manifest.specs.declared.fault.ManifestFault.{ManifestFault};
ghost use Rattle.ips_text.specs.declared.limits.Which.{Which};
ghost use Rattle.std.specs.List.{AllByRecursion, flat_map};
ghost use Rattle.ips_counts.specs.declared.counts.Counts.{Counts};
ghost use Rattle.ips_counts.specs.declared.sorts.Sorts.{Sorts};
ghost use Rattle.ips_meaning.specs.declared.finding.Finding.{Finding};
ghost use Rattle.ips_report.specs.Report.{behind_blanks, done_text, finding_text, line, prefixed_lines, tried_texts};
ghost use Rattle.ips_report.specs.declared.unsolved.Tried.{Tried};
ghost use Rattle.ips_refute.specs.Text.{RefutationEntry, refutation_text};
ghost use Rattle.ips_apart.specs.Kind.{AllLack, AreSmallCounts, AreSmallSorts, HasPath, found, HasWords, kind_of, shows, tried_words};

/// Outcomes with one text are of one kind, unless one shows a text as it stands.
pub fn reports_tell_their_kind()
    ensures { (o p : Outcome) → IsFalse (shows o) → IsFalse (shows p) → report_text o ≡ report_text p → kind_of o ≡ kind_of p }
{}

/// A report tells what its outcome does, whose paths, numbers and names are such. Of a manifest it tells the line and not the fault, and
/// of a count not what was counted.
pub fn reports_tell_what_they_say()
    ensures usage { (a b : ℕ) (x y : Why) → a < 2 ^ 64 → b < 2 ^ 64 → report_text (outcome.Usage a x) ≡ report_text (outcome.Usage b y) → (a ≡ b) × (x ≡ y) }
    ensures journal { (a b : ℕ) → a < 2 ^ 64 → b < 2 ^ 64 → report_text (outcome.BadJournal a) ≡ report_text (outcome.BadJournal b) → a ≡ b }
    ensures recovered { (a b : Bool) → report_text (outcome.Recovered a) ≡ report_text (outcome.Recovered b) → a ≡ b }
    ensures image { (p q : Kept) (a b : ℕ) → IsPath p.bytes → IsPath q.bytes → a < 2 ^ 64 → b < 2 ^ 64 → report_text (outcome.BadImage p a) ≡ report_text (outcome.BadImage q b) → (p.bytes ≡ q.bytes) × (a ≡ b) }
    ensures pattern { (a b : List ℕ) → report_text (outcome.NoMatch a) ≡ report_text (outcome.NoMatch b) → a ≡ b }
    ensures missing { (a b : List ℕ) → report_text (outcome.ManifestMissing a) ≡ report_text (outcome.ManifestMissing b) → a ≡ b }
    ensures manifest { (a b : List ℕ) (x y : ManifestFault) → x.line < 2 ^ 64 → y.line < 2 ^ 64 → report_text (outcome.BadManifest a x) ≡ report_text (outcome.BadManifest b y) → (a ≡ b) × (x.line ≡ y.line) }
    ensures depend { (a b : List ℕ) (m n : ℕ) → m < 2 ^ 64 → n < 2 ^ 64 → report_text (outcome.BadDepend a m) ≡ report_text (outcome.BadDepend b n) → (a ≡ b) × (m ≡ n) }
    ensures limit { (a b : ℕ) → a < 2 ^ 64 → b < 2 ^ 64 → report_text (outcome.SearchSpent a) ≡ report_text (outcome.SearchSpent b) → a ≡ b }
    ensures reserved { (p q : Kept) → IsPath p.bytes → IsPath q.bytes → report_text (outcome.Reserved p) ≡ report_text (outcome.Reserved q) → p.bytes ≡ q.bytes }
    ensures unmovable { (p q : Kept) → IsPath p.bytes → IsPath q.bytes → report_text (outcome.Unmovable p) ≡ report_text (outcome.Unmovable q) → p.bytes ≡ q.bytes }
    ensures account { (x y : Book) (a b : ℕ) → a < 2 ^ 64 → b < 2 ^ 64 → report_text (outcome.BadAccountLine x a) ≡ report_text (outcome.BadAccountLine y b) → (x ≡ y) × (a ≡ b) }
    ensures taken { (a b : ℕ) → a < 2 ^ 64 → b < 2 ^ 64 → report_text (outcome.IdTaken a) ≡ report_text (outcome.IdTaken b) → a ≡ b }
    ensures owner { (p q : Kept) (a b : List ℕ) → IsPath p.bytes → IsPath q.bytes → report_text (outcome.UnknownOwner p a) ≡ report_text (outcome.UnknownOwner q b) → (p.bytes ≡ q.bytes) × (a ≡ b) }
    ensures payload { (m n : PayloadName) → IsName m → IsName n → report_text (outcome.PayloadMissing m) ≡ report_text (outcome.PayloadMissing n) → m ≡ n }
    ensures digest { (m n f g : PayloadName) → IsName m → IsName n → IsName f → IsName g → report_text (outcome.PayloadDamaged m f) ≡ report_text (outcome.PayloadDamaged n g) → (m ≡ n) × (f ≡ g) }
    ensures compressed { (m n f g : PayloadName) → IsName m → IsName n → IsName f → IsName g → report_text (outcome.Compressed m f) ≡ report_text (outcome.Compressed n g) → (m ≡ n) × (f ≡ g) }
    ensures count { (v w : Which) (a b : ℕ) → a < 2 ^ 64 → b < 2 ^ 64 → report_text (outcome.TooLarge v a) ≡ report_text (outcome.TooLarge w b) → a ≡ b }
    ensures actuator { (x y : Bool) (ws vs : List (List ℕ)) (a b : ℕ) → AllLack 32 ws → AllLack 32 vs → a < 2 ^ 64 → b < 2 ^ 64 → report_text (outcome.ActuatorFailed x ws a) ≡ report_text (outcome.ActuatorFailed y vs b) → (x ≡ y) × (a ≡ b) × (ws ≡ vs) }
    ensures spawn { (x y : Bool) → report_text (outcome.SpawnFault x) ≡ report_text (outcome.SpawnFault y) → x ≡ y }
    ensures folder { (a b : Bool) → report_text (outcome.FolderFault a) ≡ report_text (outcome.FolderFault b) → a ≡ b }
{}

/// The lists that reports tell in lines are told whole, where no text has a newline: the licenses to accept, the stems
/// that a pattern may name, where none has a blank, a conflict, of which both actions are told by words, the stems and candidates of which no
/// choice fits, before the text of the refutation, what is damaged, and what was
/// changed with the licenses to display.
pub fn reports_tell_their_lists()
    ensures licenses { (xs ys : List (List ℕ)) → AllLack 10 xs → AllLack 10 ys → prefixed_lines (codes "license needed: ") xs ≡ prefixed_lines (codes "license needed: ") ys → xs ≡ ys }
    ensures stems { (p q : List ℕ) (xs ys : List (List ℕ)) → AllLack 32 (p ∷ xs) → AllLack 32 (q ∷ ys)
        → line (codes "ambiguous " ++ p ++ codes ":" ++ behind_blanks xs) ≡ line (codes "ambiguous " ++ q ++ codes ":" ++ behind_blanks ys) → (p ≡ q) × (xs ≡ ys) }
    ensures clash { (k f s l g u : List ℕ) → AllLack 32 (f ∷ s ∷ []) → AllLack 32 (g ∷ u ∷ [])
        → line (codes "clash " ++ k ++ codes " " ++ f ++ codes " " ++ s) ≡ line (codes "clash " ++ l ++ codes " " ++ g ++ codes " " ++ u) → (k ≡ l) × (f ≡ g) × (s ≡ u) }
    ensures unsolved { (xs ys : List Tried) (es fs : List RefutationEntry) → AllByRecursion HasWords xs → AllByRecursion HasWords ys
        → tried_texts 0 xs ++ refutation_text es ≡ tried_texts 0 ys ++ refutation_text fs → (map tried_words xs ≡ map tried_words ys) × (refutation_text es ≡ refutation_text fs) }
    ensures damages { (xs ys : List Finding) (a b : List ℕ) → AllByRecursion HasPath xs → AllByRecursion HasPath ys
        → flat_map finding_text xs ++ line (codes "damaged " ++ a) ≡ flat_map finding_text ys ++ line (codes "damaged " ++ b) → map found xs ≡ map found ys }
    ensures changes { (c d : Counts) (s u : Sorts) (xs ys : List (List ℕ)) → AreSmallCounts c → AreSmallCounts d → AreSmallSorts s → AreSmallSorts u → AllLack 10 xs → AllLack 10 ys
        → done_text c s xs ≡ done_text d u ys → (c ≡ d) × (s ≡ u) × (xs ≡ ys) }
{}
