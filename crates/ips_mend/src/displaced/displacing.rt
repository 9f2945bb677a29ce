//! All that a repair salvages.

ghost use Rattle.std.specs.Prelude.{◌≡◌, ℕ, ◌&&◌, IsTrue, IfOk, OnOk, List, length, map};
ghost use Rattle.std.specs.List.{list_any};
ghost use Rattle.std.specs.List.Sorted.{IsStrictlySortedBy};
ghost use Rattle.std.specs.Ordering.{nat_cmp};
ghost use Rattle.std.specs.Cmp.Lexicographic.{slice_cmp};
ghost use Rattle.ips_text.specs.Ancestry.{covers};
ghost use Rattle.ips_outside.specs.Outside.{Reads};
ghost use Rattle.ips_after.specs.Lists.{listed};
ghost use Rattle.ips_after.specs.Repaired as repaired;
ghost use Rattle.ips_after.specs.Repaired.{IsRepair, Repair, is_displaced, relinked_as};
ghost use Rattle.ips_change.specs.content.Failing.{HasFailed};
ghost use Rattle.ips_change.specs.wanted.Wanted.{want_of, wanted_of};
ghost use Rattle.ips_change.specs.Told.{change_told};
ghost use Rattle.ips_found.specs.Found.{AreThings, thing_paths};
ghost use Rattle.ips_strays.specs.Strays.{Adds};
ghost use Rattle.ips_mend.specs.displaced.Displacing.{displaces_by};

use crate::displaced::asking::displaces;
use ips_change::Change;
use ips_folder::Folder;
use ips_found::Thing;
use ips_meaning::{Entry, Want};
use ips_outside::Failed;
use ips_strays::{gather, sort};
use ips_text::{Or, RelPath};
use std::alloc::Global;

/// What a repair salvages by what becomes of each wanted path, by bytes, each path once, with what stands there. It looks only where something
/// is laid, and at and below what is of another kind there.
pub fn displaced<F: Folder>(
    alloc: Global,
    folder: &mut F,
    want: &Want,
    changes: &[Change<'_>],
) -> Result<Vec<Thing>, Or<Failed>>
    requires { length changes.now ≡ length want.now }
    ensures order { IfOk result (λ things. IsStrictlySortedBy (slice_cmp nat_cmp) (thing_paths things.items)) }
    ensures listed { IsTrue (F.outside.tells folder.old) → IfOk result (λ things. (f : Repair) → IsRepair f → f.want ≡ want_of want.now
        → map (change_told f.bytes) changes.now ≡ map (λ p. relinked_as f (F.outside.state folder.old).held p (f.want.at p)) f.want.keys
        → (q : List ℕ) → listed (thing_paths things.items) q ≡ is_displaced f (F.outside.state folder.old).held q) }
    ensures found { IsTrue (F.outside.tells folder.old) → IfOk result (λ things. AreThings (F.outside.state folder.old).held things.items) }
    ensures reads { Reads F.outside folder.old folder.new (HasFailed result) }
{
    let mut things = Vec::new(alloc);
    gather_all(alloc, folder, want, changes, &mut things)?;
    sort(&mut things)?;
    Ok(things)
}

// Adds what stands at and below each wanted path at which it is displaced.
fn gather_all<F: Folder>(
    alloc: Global,
    folder: &mut F,
    want: &Want,
    changes: &[Change<'_>],
    things: &mut Vec<Thing>,
) -> Result<(), Or<Failed>>
    requires { length changes.now ≡ length want.now }
    ensures found { IsTrue (F.outside.tells folder.old) → OnOk result ((f : Repair) → f.want ≡ want_of want.now
        → map (change_told f.bytes) changes.now ≡ map (λ p. relinked_as f (F.outside.state folder.old).held p (f.want.at p)) f.want.keys
        → Adds (F.outside.state folder.old).held (λ q. list_any (λ p. repaired.displaces f (F.outside.state folder.old).held p && covers p q) f.want.keys) things.old.items things.new.items) }
    ensures things { IsTrue (F.outside.tells folder.old) → OnOk result (AreThings (F.outside.state folder.old).held things.old.items → AreThings (F.outside.state folder.old).held things.new.items) }
    ensures reads { Reads F.outside folder.old folder.new (HasFailed result) }
{
    for i in 0..want.len() {
        let Some((path, entry)) = want.at(i) else {
            unreachable!();
        };
        add(alloc, folder, path, entry, changes[i], things)?;
    }
    Ok(())
}

// Adds what stands at and below the path, where it is displaced.
fn add<F: Folder>(
    alloc: Global,
    folder: &mut F,
    path: &RelPath,
    entry: &Entry,
    change: Change<'_>,
    things: &mut Vec<Thing>,
) -> Result<(), Or<Failed>>
    ensures found { IsTrue (F.outside.tells folder.old) → OnOk result ((bytes : List ℕ → List ℕ)
        → Adds (F.outside.state folder.old).held (λ q. displaces_by path.now.bytes (wanted_of entry.now) (change_told bytes change.entry) ((F.outside.state folder.old).held.look path.now.bytes) && covers path.now.bytes q) things.old.items things.new.items) }
    ensures reads { Reads F.outside folder.old folder.new (HasFailed result) }
{
    if displaces(folder, path, entry, change)? {
        gather(alloc, folder, path, things)?;
    }
    Ok(())
}
