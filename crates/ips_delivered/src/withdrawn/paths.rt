//! All that goes, as paths.

ghost use Rattle.std.specs.Prelude.{◌≡◌, ◌++◌, ℕ, List, map, true, false, IfOk, OnOk};
ghost use Rattle.std.specs.List.{AllByRecursion};
ghost use Rattle.std.specs.List.Sorted.{IsStrictlySortedBy};
ghost use Rattle.std.specs.Ordering.{nat_cmp};
ghost use Rattle.std.specs.Cmp.Lexicographic.{slice_cmp};
ghost use Rattle.ips_text.specs.Path.{IsPath};
ghost use Rattle.ips_conflict.specs.Index.{has_path};
ghost use Rattle.ips_after.specs.Lists.{listed};
ghost use Rattle.ips_state.specs.Lawful.{IsLawful};
ghost use Rattle.ips_state.specs.Records.{taken_away};
ghost use Rattle.ips_state.specs.State.{recorded};
ghost use Rattle.ips_due.specs.Delivered.{CanBeNamed, Delivered, delivered_gone};
ghost use Rattle.ips_delivered.specs.delivered.Named.{names_told};
ghost use Rattle.ips_delivered.specs.withdrawn.Sets.{HasJust, HasMore};
ghost use Rattle.ips_delivered.specs.withdrawn.Withdrawn.{AreWithdrawn, IsDeliveredBy};

use crate::delivered::{Named, delivered_names, names_are_one};
use crate::withdrawn::leaving::{add_legacy, add_licenses, add_taken};
use crate::withdrawn::staying::{legacy_names, licenses};
use ips_due::requests_have_proper_due;
use ips_load::path_of;
use ips_state::State;
use ips_text::RelPath;
use std::alloc::{AllocError, Global};
use std::collections::BTreeSet;

/// What goes with a request from the old state to the new one, with all below it, in the order of bytes: records of packages that aren't installed
/// any more, licenses and legacy packages that aren't delivered any more, and what only the older format of the records has.
pub fn withdrawn(alloc: Global, old: &State, new: &State) -> Result<Vec<RelPath>, AllocError>
    requires old { IsLawful (recorded old.now) }
    requires new { IsLawful (recorded new.now) }
    ensures paths { IfOk result (λ paths. AreWithdrawn old.now new.now (map (λ p. p.bytes) paths.items)) }
    ensures old { OnOk result ((was : Delivered) × IsDeliveredBy old.now was × CanBeNamed was) }
{
    requests_have_proper_due();
    names_are_one();
    let before = delivered_names(alloc, &old.installed, &old.settings)?;
    let after = delivered_names(alloc, &new.installed, &new.settings)?;
    let gone = gathered(alloc, old, new, &before, &after)?;
    in_order(alloc, &gone)
}

// What goes, where this is delivered by the old packages and by the new ones.
fn gathered(
    alloc: Global,
    old: &State,
    new: &State,
    was: &Named<'_>,
    is: &Named<'_>,
) -> Result<BTreeSet<Vec<u8>>, AllocError>
    requires was { CanBeNamed (names_told was.now) }
    requires is { CanBeNamed (names_told is.now) }
    ensures { IfOk result (λ gone. HasJust gone (taken_away (recorded old.now) (recorded new.now) ++ delivered_gone (names_told was.now) (names_told is.now))) }
{
    let mut gone = BTreeSet::new(alloc);
    add_taken(alloc, old, new, &mut gone)?;
    add_delivered(alloc, was, is, &mut gone)?;
    Ok(gone)
}

// Adds what isn't delivered any more.
fn add_delivered(
    alloc: Global,
    was: &Named<'_>,
    is: &Named<'_>,
    gone: &mut BTreeSet<Vec<u8>>,
) -> Result<(), AllocError>
    requires was { CanBeNamed (names_told was.now) }
    requires is { CanBeNamed (names_told is.now) }
    ensures { OnOk result (HasMore gone.old gone.new (delivered_gone (names_told was.now) (names_told is.now))) }
{
    let licenses = licenses(alloc, &is.licenses)?;
    let names = legacy_names(alloc, &is.legacy)?;
    add_licenses(alloc, &was.licenses, &licenses, gone)?;
    add_legacy(alloc, &was.legacy, &names, gone)
}

// The paths of a set, in order.
fn in_order(alloc: Global, gone: &BTreeSet<Vec<u8>>) -> Result<Vec<RelPath>, AllocError>
    requires { (q : List ℕ) → has_path gone.now q ≡ true → IsPath q }
    ensures order { IfOk result (λ paths. IsStrictlySortedBy (slice_cmp nat_cmp) (map (λ p. p.bytes) paths.items)) }
    ensures paths { IfOk result (λ paths. HasJust gone.now (map (λ p. p.bytes) paths.items)) }
{
    let mut paths = Vec::new(alloc);
    for key in gone.iter() {
        paths.push(path_of(alloc, key)?)?;
    }
    Ok(paths)
}
