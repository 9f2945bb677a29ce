//! Whether what stands at a path is displaced.

ghost use Rattle.std.specs.Prelude.{◌≡◌, ℕ, false, not, ◌&&◌, IsTrue, IfOk, List, Option};
ghost use Rattle.ips_text.specs.Ancestry as ancestry;
ghost use Rattle.ips_outside.specs.Image as image;
ghost use Rattle.ips_outside.specs.Outside.{Reads, look_of};
ghost use Rattle.ips_after.specs.After as after;
ghost use Rattle.ips_after.specs.Change as outcome;
ghost use Rattle.ips_change.specs.content.Failing.{HasFailed};
ghost use Rattle.ips_steps.specs.Private.{records_name};
ghost use Rattle.ips_change.specs.wanted.Wanted.{wanted_of};
ghost use Rattle.ips_change.specs.Told.{change_told};
ghost use Rattle.ips_mend.specs.displaced.Displacing.{displaces_by};

use ips_change::Change;
use ips_change::content::look_at;
use ips_links::makes;
use ips_meaning::Entry;
use ips_outside::{Failed, Look, Source};
use ips_text::{Or, RelPath, covers};

/// Whether the change lays something at the path and what stands there isn't of the wanted kind, outside the folder of the records. It
/// looks only where something is laid.
pub(crate) fn displaces<S: Source>(
    source: &mut S,
    path: &RelPath,
    entry: &Entry,
    change: Change<'_>,
) -> Result<bool, Or<Failed>>
    ensures found { IsTrue (S.outside.tells source.old) → IfOk result (λ displaces. (bytes : List ℕ → List ℕ)
        → displaces ≡ displaces_by path.now.bytes (wanted_of entry.now) (change_told bytes change.entry) ((S.outside.state source.old).held.look path.now.bytes)) }
    ensures untouched { (bytes : List ℕ → List ℕ) → outcome.makes (change_told bytes change.entry) ≡ false → source.new ≡ source.old }
    ensures reads { Reads S.outside source.old source.new (HasFailed result) }
{
    if !makes(change) || is_own(path.bytes()) {
        return Ok(false);
    }
    let found = look_at(source, path)?;
    Ok(!is_kind(entry, found))
}

// Whether the path is in the folder of the records, or that folder.
#[tactic(auto, unfolding(ips_steps::specs::Private::records_name))]
fn is_own(path: &[u8]) -> bool
    ensures { result ≡ ancestry.covers records_name path.now }
{
    covers(b"var/pkg", path)
}

// Whether what was found is of the wanted kind; one more name of a file is a file.
fn is_kind(entry: &Entry, found: Look) -> bool
    ensures { (e : Option image.Entry) → found ≡ look_of e → result ≡ after.is_kind (wanted_of entry.now) e }
{
    match entry {
        Entry::Dir { .. } => matches!(found, Look::Dir { .. }),
        Entry::File { .. } | Entry::Hard { .. } => matches!(found, Look::File { .. }),
        Entry::Link { .. } => matches!(found, Look::Link),
    }
}
