//! Laws of any number of runs, each the contract of a function that does nothing.

ghost use Rattle.std.specs.Prelude.{◌⊎◌, ℕ, IsTrue, List};
ghost use Rattle.ips_kinds.specs.Tallies.{Carrier};
ghost use Rattle.ips_journal.specs.Text.{journal_text};
ghost use Rattle.ips_steps.specs.Private.{visible};
ghost use Rattle.ips_sends.specs.Sends.{Sends};
ghost use Rattle.ips_sends.specs.Whole.{Attempt, AreWholeOrOut};
ghost use Rattle.ips_send_report.specs.declared.outcome.SendOutcome as told;
ghost use Rattle.ips_send_report.specs.declared.outcome.SendOutcome.TheVariants as outcome;
ghost use Rattle.ips_publish.specs.Comes.{IsSettledAt};
ghost use Rattle.ips_publish.specs.Done.{SaysCreated, SaysPublished, StarvesEarly};
ghost use Rattle.ips_publish.specs.Sent.{IsSent};
ghost use Rattle.ips_publish.specs.Stops.{BreaksOff, GoesOn};
ghost use Rattle.ips_publish.specs.Told.{IsFault};

use ips_folder::Folder;
use ips_outside::Source;

/// A history goes on with each run that comes to its end, and what is told as published is answered in it; unless a call failed while directories of the records were made.
pub fn runs_go_on<S: Source, F: Folder>()
    ensures { (xs : List Attempt) (words : List (List ℕ)) (moment : ℕ) (source source_new : S) (old new : F) (before now : List Carrier) (x : told.SendOutcome) → IsTrue (S.outside.tells source) → IsTrue (F.outside.tells old)
        → Sends journal_text F.outside AreWholeOrOut xs (F.outside.state old) → IsSent S.outside F.outside words moment source source_new old new before now x
        → GoesOn F.outside words moment xs new x ⊎ BreaksOff F.outside old new x }
{}

/// However runs were stopped, and however often, a later one whose outcome is no fault has found each attempt so far whole in the repository or not at all, and each whole of
/// which it was answered that it is published: so it is of what is seen once the target is settled. And the journal is never bad.
pub fn later_runs_find<S: Source, F: Folder>()
    ensures found { (xs : List Attempt) (words : List (List ℕ)) (moment : ℕ) (source source_new : S) (old new : F) (before now : List Carrier) (x : told.SendOutcome) → IsTrue (F.outside.tells old)
        → Sends journal_text F.outside AreWholeOrOut xs (F.outside.state old) → IsSent S.outside F.outside words moment source source_new old new before now x → (IsFault x → ⊥)
        → (at : F) × (mid : List Carrier) × IsSettledAt F.outside old at before mid × AreWholeOrOut xs (visible (F.outside.state at).held) }
    ensures readable { (xs : List Attempt) (words : List (List ℕ)) (moment : ℕ) (source source_new : S) (old new : F) (before now : List Carrier) (line : ℕ) → IsTrue (S.outside.tells source) → IsTrue (F.outside.tells old)
        → Sends journal_text F.outside AreWholeOrOut xs (F.outside.state old) → IsSent S.outside F.outside words moment source source_new old new before now (outcome.BadJournal line) → ⊥ }
{}

/// What is told as made or published is, over what was found once the target was settled.
pub fn what_is_told_is_so<S: Source, F: Folder>()
    ensures created { (words : List (List ℕ)) (moment : ℕ) (source source_new : S) (old new : F) (before now : List Carrier) → IsTrue (F.outside.tells old)
        → IsSent S.outside F.outside words moment source source_new old new before now outcome.Created → SaysCreated F.outside words moment old new before }
    ensures published { (words : List (List ℕ)) (moment : ℕ) (source source_new : S) (old new : F) (before now : List Carrier) (fmri : List ℕ) → IsTrue (S.outside.tells source) → IsTrue (F.outside.tells old)
        → IsSent S.outside F.outside words moment source source_new old new before now (outcome.Published fmri) → SaysPublished F.outside (S.outside.state source).held words moment old new before fmri }
{}

/// Where memory ran out, the target is as a run found it, or the gate has stayed closed.
pub fn memory_runs_out_early<S: Source, F: Folder>()
    ensures { (words : List (List ℕ)) (moment : ℕ) (source source_new : S) (old new : F) (before now : List Carrier) → IsTrue (S.outside.tells source) → IsTrue (F.outside.tells old)
        → IsSent S.outside F.outside words moment source source_new old new before now outcome.OutOfMemory → StarvesEarly F.outside old new before }
{}
