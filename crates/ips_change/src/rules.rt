//! The rules: what becomes of a path by itself, and of what stands there.

ghost use Rattle.std.specs.Prelude.{◌≡◌, ℕ, Bool, false, cond, List, Option, Some, None, is_some};
ghost use Rattle.std.specs.Option.{option_map};
ghost use Rattle.ips_outside.specs.Image as image;
ghost use Rattle.ips_digest.specs.Name.{spelling};
ghost use Rattle.ips_after.specs.After as after;
ghost use Rattle.ips_after.specs.Change as changes;
ghost use Rattle.ips_after.specs.Request.{Request, WantDir, WantFile, WantLink, Wanted};
ghost use Rattle.ips_after.specs.Salvage as salvage;
ghost use Rattle.ips_change.specs.wanted.Named.{is_payload_of};
ghost use Rattle.ips_change.specs.wanted.Wanted.{wanted_of};
ghost use Rattle.ips_action.specs.declared.action.Preserve as preserves;
ghost use Rattle.ips_change.specs.Fitting.{Fits};
ghost use Rattle.ips_change.specs.Stands as spec;
ghost use Rattle.ips_change.specs.Stands.{has_fresh, is_dir_seen, is_file_seen, is_link_seen, is_spent_seen, is_unasked, seen_of, stands_of};
ghost use Rattle.ips_change.specs.Told.{beside_for, change_told, naming, side_told};

use crate::answering::{answer, answer_gone};
use crate::asking::spent;
use crate::change::{Beside, Change};
use crate::stands::Stands;
use ips_action::Preserve;
use ips_digest::PayloadName;
use ips_meaning::Entry;
use ips_preserve::Keep;
use ips_text::Text;

/// What becomes of a path by what was and what is wanted there, and by what stands.
pub fn itself<'a>(old: Option<&Entry>, new: Option<&'a Entry>, stands: Stands) -> Change<'a>
    ensures told { (r : Request) (e : Option image.Entry) → stands ≡ stands_of is_payload_of (option_map (λ x. wanted_of x.now) old.entry) (option_map (λ x. wanted_of x.now) new.entry) e
        → change_told r.bytes result ≡ after.by_itself (naming r) (option_map (λ x. wanted_of x.now) old.entry) (option_map (λ x. wanted_of x.now) new.entry) e }
    ensures fits { Fits (option_map (λ x. wanted_of x.now) new.entry) result }
{
    if let Stands::Unasked = stands {
        return Change::Kept;
    }
    match new {
        Some(new) => new_change(old, new, stands),
        None => old_change(old, stands),
    }
}

// What becomes of a wanted path whose entry isn't equal.
fn new_change<'a>(old: Option<&Entry>, new: &'a Entry, stands: Stands) -> Change<'a>
    ensures told { (r : Request) (e : Option image.Entry) → stands ≡ seen_of is_payload_of (option_map (λ x. wanted_of x.now) old.entry) (Some (wanted_of new.now)) e
        → change_told r.bytes result ≡ after.new_change (naming r) (option_map (λ x. wanted_of x.now) old.entry) (wanted_of new.now) e }
    ensures fits { Fits (Some (wanted_of new.now)) result }
{
    match new {
        Entry::Dir { mode } => dir_change(*mode, stands),
        Entry::File {
            payload,
            mode,
            preserve,
        } => file_change(
            answer(old, payload, *preserve, stands),
            payload,
            *mode,
            stands,
        ),
        Entry::Link { target } => link_change(target, stands),
        Entry::Hard { to } => Change::Hard { to },
    }
}

// What becomes of the path of a directory, which is made with mode 0755 where none is stated.
fn dir_change<'a>(mode: Option<u16>, stands: Stands) -> Change<'a>
    ensures told { (bytes : List ℕ → List ℕ) → change_told bytes result ≡ cond (is_dir_seen stands) (after.mode_given mode) (changes.Laid (image.Dir (after.stated mode) false)) }
    ensures fits { Fits (Some (WantDir mode)) result }
{
    if is_dir(stands) {
        return match mode {
            Some(mode) => Change::Mode { mode },
            None => Change::Kept,
        };
    }
    Change::Dir {
        mode: mode.unwrap_or(0o755),
    }
}

// What becomes of the path of a file by the table's answer.
fn file_change<'a>(answer: Keep, payload: &'a PayloadName, mode: u16, stands: Stands) -> Change<'a>
    ensures told { (bytes : List ℕ → List ℕ) (e : Option image.Entry) → is_file_seen stands ≡ image.is_file e
        → change_told bytes result ≡ after.file_change answer (image.File mode (bytes (spelling payload.now))) mode e }
    ensures fits { (preserve : preserves.Preserve) → Fits (Some (WantFile (spelling payload.now) mode preserve)) result }
{
    match answer {
        Keep::Lay | Keep::SalvageLay | Keep::SaveOld | Keep::SaveLegacy => {
            Change::File { payload, mode }
        }
        Keep::Stay | Keep::LayNew if is_file(stands) => Change::Mode { mode },
        _ => Change::Kept,
    }
}

// What becomes of the path of a symbolic link.
fn link_change(target: &Text, stands: Stands) -> Change<'_>
    ensures told { (bytes : List ℕ → List ℕ) (holds : List ℕ → List ℕ → Bool) (was : Option Wanted) (e : Option image.Entry) → stands ≡ seen_of holds was (Some (WantLink target.now)) e
        → change_told bytes result ≡ cond (after.links_to target.now e) changes.Kept (changes.Laid (image.Link target.now)) }
    ensures fits { Fits (Some (WantLink target.now)) result }
{
    if says_wanted(stands) {
        return Change::Kept;
    }
    Change::Link { target }
}

// What becomes of a path that is no longer wanted.
fn old_change<'a>(old: Option<&Entry>, stands: Stands) -> Change<'a>
    ensures told { (r : Request) (e : Option image.Entry) → stands ≡ seen_of is_payload_of (option_map (λ x. wanted_of x.now) old.entry) None e
        → change_told r.bytes result ≡ after.by_itself (naming r) (option_map (λ x. wanted_of x.now) old.entry) None e }
    ensures fits { Fits None result }
{
    if goes(old, stands) {
        return Change::Removed;
    }
    Change::Kept
}

// Whether what stands at a path that is no longer wanted goes.
fn goes(old: Option<&Entry>, stands: Stands) -> bool
    ensures { (r : Request) (e : Option image.Entry) → stands ≡ seen_of is_payload_of (option_map (λ x. wanted_of x.now) old.entry) None e
        → after.removed_if result ≡ after.by_itself (naming r) (option_map (λ x. wanted_of x.now) old.entry) None e }
{
    match old {
        Some(Entry::Dir { mode: Some(_) }) => is_dir(stands),
        Some(Entry::File { preserve, .. }) => drops(answer_gone(*preserve, stands)),
        Some(Entry::Link { .. }) => is_link(stands),
        Some(Entry::Hard { .. }) => is_file(stands),
        _ => false,
    }
}

// Whether what stands goes by the table's answer.
fn drops(answer: Keep) -> bool
    ensures { result ≡ after.drops answer }
{
    matches!(answer, Keep::Drop | Keep::SalvageDrop)
}

/// The file that is put beside a path.
pub fn side(old: Option<&Entry>, new: Option<&Entry>, stands: Stands) -> Option<Beside>
    ensures told { (r : Request) (e : Option image.Entry) → stands ≡ stands_of is_payload_of (option_map (λ x. wanted_of x.now) old.entry) (option_map (λ x. wanted_of x.now) new.entry) e
        → side_told r.bytes (option_map (λ x. wanted_of x.now) new.entry) e result ≡ salvage.side_as (naming r) (option_map (λ x. wanted_of x.now) old.entry) (option_map (λ x. wanted_of x.now) new.entry) e }
    ensures only { (r : Request) (e : Option image.Entry) → stands ≡ stands_of is_payload_of (option_map (λ x. wanted_of x.now) old.entry) (option_map (λ x. wanted_of x.now) new.entry) e
        → is_some result ≡ is_some (salvage.side_as (naming r) (option_map (λ x. wanted_of x.now) old.entry) (option_map (λ x. wanted_of x.now) new.entry) e) }
{
    let Stands::File { .. } = stands else {
        return None;
    };
    match new {
        Some(
            Entry::File {
                payload,
                preserve,
                ..
            },
        ) => beside(answer(old, payload, *preserve, stands)),
        _ => None,
    }
}

// What is put beside a file by the table's answer.
fn beside(answer: Keep) -> Option<Beside>
    ensures { result ≡ beside_for answer }
{
    match answer {
        Keep::SaveOld => Some(Beside::Old),
        Keep::SaveLegacy => Some(Beside::Legacy),
        Keep::LayNew => Some(Beside::New),
        _ => None,
    }
}

/// Whether what stands is ours and no one may have edited it.
pub fn given_up(old: Option<&Entry>, stands: Stands) -> bool
    ensures { (new : Option Wanted) (e : Option image.Entry) → stands ≡ seen_of is_payload_of (option_map (λ x. wanted_of x.now) old.entry) new e
        → result ≡ after.given_up_as is_payload_of (option_map (λ x. wanted_of x.now) old.entry) e }
{
    match old {
        Some(Entry::Dir { .. }) => is_dir(stands),
        Some(Entry::File { preserve, .. }) => is_spent(*preserve, stands),
        Some(Entry::Link { .. }) => is_link(stands),
        Some(Entry::Hard { .. }) => is_file(stands),
        None => false,
    }
}

/// Whether what stands, which isn't given up, needn't be salvaged: it is kept under another name, or has the bytes that are laid.
pub fn saved(old: Option<&Entry>, new: Option<&Entry>, stands: Stands) -> bool
    ensures { (r : Request) (e : Option image.Entry) → stands ≡ seen_of is_payload_of (option_map (λ x. wanted_of x.now) old.entry) (option_map (λ x. wanted_of x.now) new.entry) e
        → is_unasked (option_map (λ x. wanted_of x.now) old.entry) (option_map (λ x. wanted_of x.now) new.entry) ≡ false
        → after.given_up_as is_payload_of (option_map (λ x. wanted_of x.now) old.entry) e ≡ false
        → result ≡ salvage.saved_as (naming r) (option_map (λ x. wanted_of x.now) old.entry) (option_map (λ x. wanted_of x.now) new.entry) e }
{
    let Stands::File { known, fresh, .. } = stands else {
        return false;
    };
    match new {
        Some(
            Entry::File {
                payload,
                preserve,
                ..
            },
        ) => has_new(old, known, fresh) || copies(answer(old, payload, *preserve, stands)),
        _ => false,
    }
}

// Whether a file that stands, which isn't given up, has the bytes of the file that is wanted.
fn has_new(old: Option<&Entry>, known: bool, fresh: bool) -> bool
    ensures { result ≡ has_fresh (option_map (λ x. wanted_of x.now) old.entry) known fresh }
{
    match old {
        Some(Entry::File { .. }) => fresh,
        _ => known,
    }
}

// Whether what stands is kept under another name.
fn copies(answer: Keep) -> bool
    ensures { result ≡ salvage.copies answer }
{
    matches!(answer, Keep::SaveOld | Keep::SaveLegacy)
}

/// Whether a file that was wanted goes, and was edited.
pub fn drops_edit(old: Option<&Entry>, new: Option<&Entry>, stands: Stands) -> bool
    ensures { (r : Request) (e : Option image.Entry) → stands ≡ stands_of is_payload_of (option_map (λ x. wanted_of x.now) old.entry) (option_map (λ x. wanted_of x.now) new.entry) e
        → result ≡ salvage.drops_edit_as (naming r) (option_map (λ x. wanted_of x.now) old.entry) (option_map (λ x. wanted_of x.now) new.entry) e }
{
    if new.is_some() {
        return false;
    }
    match old {
        Some(Entry::File { preserve, .. }) => is_salvage(answer_gone(*preserve, stands)),
        _ => false,
    }
}

// Whether what stands goes and is salvaged.
fn is_salvage(answer: Keep) -> bool
    ensures { result ≡ salvage.is_salvage answer }
{
    matches!(answer, Keep::SalvageDrop)
}

// Whether a file stands that may go unsaved, where one with this preserve was wanted.
fn is_spent(preserve: Preserve, stands: Stands) -> bool
    ensures { result ≡ is_spent_seen preserve stands }
{
    match stands {
        Stands::File { known, .. } => spent(known, preserve),
        _ => false,
    }
}

// Whether a symbolic link stands that says what one that is wanted says.
fn says_wanted(stands: Stands) -> bool
    ensures { result ≡ spec.says_wanted stands }
{
    match stands {
        Stands::Link { wanted } => wanted,
        _ => false,
    }
}

// Whether a directory stands.
fn is_dir(stands: Stands) -> bool
    ensures { result ≡ is_dir_seen stands }
{
    matches!(stands, Stands::Dir { .. })
}

// Whether a file stands.
fn is_file(stands: Stands) -> bool
    ensures { result ≡ is_file_seen stands }
{
    matches!(stands, Stands::File { .. })
}

// Whether a symbolic link stands.
fn is_link(stands: Stands) -> bool
    ensures { result ≡ is_link_seen stands }
{
    matches!(stands, Stands::Link { .. })
}
