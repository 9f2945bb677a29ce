//! Questions of changes, entries and what is said.

ghost use Rattle.std.specs.Prelude.{◌≡◌, ℕ, List};
ghost use Rattle.std.specs.Option.{option_map};
ghost use Rattle.ips_after.specs.Change as changes;
ghost use Rattle.ips_change.specs.wanted.Wanted.{wanted_of};
ghost use Rattle.ips_change.specs.Told.{change_told};
ghost use Rattle.ips_change.specs.survey.Said.{says_laid};
ghost use Rattle.ips_links.specs.Leading.{hard_to};

use ips_change::Change;
use ips_change::survey::Said;
use ips_meaning::Entry;
use ips_text::RelPath;

/// Whether something is made at a path of which this becomes.
pub fn makes(change: Change<'_>) -> bool
    ensures { (bytes : List ℕ → List ℕ) → result ≡ changes.makes (change_told bytes change.entry) }
{
    matches!(
        change,
        Change::Dir { .. } | Change::File { .. } | Change::Link { .. } | Change::Hard { .. }
    )
}

/// The path whose file is to have one more name there.
pub fn lead<'a>(new: Option<&'a Entry>) -> Option<&'a RelPath>
    ensures { option_map (λ x. x.now.bytes) result ≡ hard_to (option_map (λ x. wanted_of x.now) new.entry) }
{
    match new {
        Some(Entry::Hard { to }) => Some(to),
        _ => None,
    }
}

/// Whether an entry is laid there.
pub fn lays(said: Option<Said>) -> bool
    ensures { result ≡ says_laid said }
{
    matches!(said, Some(Said::Lays))
}
