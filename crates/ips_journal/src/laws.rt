//! Laws of journals.

ghost use Rattle.std.specs.Prelude.{◌≡◌, ◌≤◌, ℕ, List, length, take};
ghost use Rattle.ips_steps.specs.Steps.{Step};
ghost use Rattle.ips_steps.specs.Journal.{IsJournal};
ghost use Rattle.ips_journal.specs.Text.{journal_text};
ghost use Rattle.ips_journal.specs.Bad.{IsBadLine};
ghost use Rattle.ips_journal.specs.Reading.{ReaderState, IsAt};

/// No two lists of steps have one text, and the text of a list has no bad line.
pub fn journals_read_back()
    ensures one { (a b : List Step) → IsJournal a → IsJournal b → journal_text a ≡ journal_text b → a ≡ b }
    ensures none_bad { (steps : List Step) (line : ℕ) → IsJournal steps → IsBadLine (journal_text steps) line → ⊥ }
{}

/// A text has at most one first bad line.
pub fn one_bad_line()
    ensures { (text : List ℕ) (m n : ℕ) → IsBadLine text m → IsBadLine text n → m ≡ n }
{}

/// Of the text of a list, a reader reads the steps of that list, one after another from the first.
pub fn steps_come_in_order()
    ensures within { (steps front : List Step) (r : ReaderState) → IsJournal steps → IsAt (journal_text steps) front r → length front ≤ length steps }
    ensures front { (steps front : List Step) (r : ReaderState) → IsJournal steps → IsAt (journal_text steps) front r → front ≡ take (length front) steps }
{}
