//! Which account files and records aren't as they are due.

ghost use Rattle.std.specs.Prelude.{◌≡◌, IsTrue, IfOk, List, ℕ, map};
ghost use Rattle.std.specs.List.Sorted.{IsStrictlySortedBy};
ghost use Rattle.std.specs.Ordering.{nat_cmp};
ghost use Rattle.std.specs.Cmp.Lexicographic.{slice_cmp};
ghost use Rattle.ips_text.specs.Path.{IsPath};
ghost use Rattle.ips_outside.specs.Image.{Image};
ghost use Rattle.ips_outside.specs.Outside.{Reads};
ghost use Rattle.ips_change.specs.content.Failing.{HasFailed};
ghost use Rattle.ips_change.specs.wanted.Named.{is_payload_of};
ghost use Rattle.ips_due.specs.Due.{Due, IsOverOf, said};
ghost use Rattle.ips_due.specs.outstanding.Noted.{AreMarked, told};
ghost use Rattle.ips_due.specs.outstanding.Outstanding.{AreOutstanding, over_of};
ghost use Rattle.ips_due.specs.outstanding.Parts.{due_of};
ghost use Rattle.ips_due.specs.outstanding.Verdicts.{named_paths};
ghost use Rattle.ips_due.specs.outstanding.Verdicts as spec;

use crate::outstanding::answer::Outstanding;
use crate::outstanding::due::{DueParts, Records};
use crate::outstanding::filling::fill;
use crate::outstanding::notes::Notes;
use crate::outstanding::verdict::Named;
use ips_outside::{Failed, Source};
use ips_text::{Or, RelPath};
use std::alloc::{AllocError, Global};

/// The account files and records that aren't as they are due. An account file that is due is laid, whatever stands there; so are folders that are made
/// anew, and records that go with one of these or with what is taken away. Of the other due paths it asks what stands there.
pub fn outstanding<S: Source, R: Records>(
    alloc: Global,
    source: &mut S,
    due: &DueParts<'_, R>,
) -> Result<Outstanding, Or<Failed>>
    ensures order { IfOk result (λ found. IsStrictlySortedBy (slice_cmp nat_cmp) (named_paths found.named.items)) }
    ensures found { IsTrue (S.outside.tells source.old) → IfOk result (λ found. (bytes : List ℕ → List ℕ) → AreOutstanding bytes (due_of R.records due.now) (S.outside.state source.old).held found.named.items) }
    ensures over { IsTrue (S.outside.tells source.old) → IfOk result (λ found. (bytes : List ℕ → List ℕ) → IsOverOf bytes is_payload_of (due_of R.records due.now) (S.outside.state source.old).held (over_of bytes (due_of R.records due.now) (S.outside.state source.old).held (named_paths found.named.items))) }
    ensures reads { Reads S.outside source.old source.new (HasFailed result) }
{
    let mut notes = Notes::new(alloc);
    match fill(alloc, source, due, &mut notes) {
        Ok(()) => collected(alloc, &notes),
        Err(fault) => Err(fault),
    }
}

// The marked paths, with what is said of each, where there is memory for them.
fn collected(alloc: Global, notes: &Notes) -> Result<Outstanding, Or<Failed>>
    requires { AreMarked notes.now }
    ensures order { IfOk result (λ found. IsStrictlySortedBy (slice_cmp nat_cmp) (named_paths found.named.items)) }
    ensures found { IfOk result (λ found. (bytes : List ℕ → List ℕ) (due : Due) (t : Image) → ((q : List ℕ) → spec.meant bytes due (told notes.now q) ≡ said bytes is_payload_of due t q) → AreOutstanding bytes due t found.named.items) }
    ensures over { IfOk result (λ found. (bytes : List ℕ → List ℕ) (due : Due) (t : Image) → ((q : List ℕ) → spec.meant bytes due (told notes.now q) ≡ said bytes is_payload_of due t q) → IsOverOf bytes is_payload_of due t (over_of bytes due t (named_paths found.named.items))) }
    ensures memory { HasFailed result → ⊥ }
{
    Ok(Outstanding {
        named: collect(alloc, notes)?,
    })
}

// The marked paths, with what is said of each.
fn collect(alloc: Global, notes: &Notes) -> Result<Vec<Named>, AllocError>
    requires { AreMarked notes.now }
    ensures order { IfOk result (λ named. IsStrictlySortedBy (slice_cmp nat_cmp) (named_paths named.items)) }
    ensures keys { IfOk result (λ named. named_paths named.items ≡ map (λ k. k.items) notes.now.keys.keys) }
    ensures said { IfOk result (λ named. map (λ n. n.verdict) named.items ≡ map (told notes.now) (named_paths named.items)) }
{
    let mut named = Vec::with_capacity(alloc, notes.keys.len())?;
    for key in notes.keys.iter() {
        named.push(named_at(alloc, notes, key)?)?;
    }
    Ok(named)
}

// A path with what is said of it.
fn named_at(alloc: Global, notes: &Notes, key: &[u8]) -> Result<Named, AllocError>
    requires { IsPath key.now }
    ensures path { IfOk result (λ named. named.path.bytes ≡ key.now) }
    ensures verdict { IfOk result (λ named. named.verdict ≡ told notes.now key.now) }
{
    let path = path_of(alloc, key)?;
    Ok(Named {
        path,
        verdict: notes.told(key),
    })
}

// The path that the bytes are.
fn path_of(alloc: Global, bytes: &[u8]) -> Result<RelPath, AllocError>
    requires { IsPath bytes.now }
    ensures { IfOk result (λ path. path.bytes ≡ bytes.now) }
{
    match RelPath::parse(alloc, bytes) {
        Ok(path) => Ok(path),
        Err(Or::OutOfMemory) => Err(AllocError),
        Err(Or::Bad(_)) => unreachable!(),
    }
}
