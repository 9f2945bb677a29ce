//! The stems that are to be avoided.

ghost use Rattle.std.specs.Prelude.{◌≡◌, ◌||◌, ◌&&◌, ℕ, not, List, map, IfOk, OnOk};
ghost use Rattle.std.specs.Str.{bytes_eq};
ghost use Rattle.ips_state.specs.State.{Ascend, installed};
ghost use Rattle.ips_request.specs.Stems.{has, stems_of};
ghost use Rattle.ips_asked.specs.Asked.{AreAvoidedToo, stems_installed};

use crate::removing::is_in;
use indexmap::IndexSet;
use ips_manifest::Package;
use ips_request::add_packages;
use ips_text::Text;
use std::alloc::{AllocError, Global};
use std::collections::BTreeSet;

/// Puts those of these stems in that aren't installed.
pub fn avoid_too(
    alloc: Global,
    avoid: &mut Vec<Text>,
    packages: &[Package],
    stems: &[Text],
) -> Result<(), AllocError>
    ensures { OnOk result (AreAvoidedToo stems.now (map installed packages.now) avoid.old.items avoid.new.items) }
{
    let mut all = BTreeSet::new(alloc);
    let there = packages_of(alloc, packages)?;
    add_absent(alloc, &mut all, &there, stems)?;
    add_each(alloc, &mut all, avoid)?;
    *avoid = in_order(alloc, all)?;
    Ok(())
}

// The stems of the packages, to be looked up.
fn packages_of(alloc: Global, packages: &[Package]) -> Result<IndexSet<String>, AllocError>
    ensures { IfOk result (λ index. (stem : List ℕ) → has stem (stems_of index.keys) ≡ has stem (stems_installed (map installed packages.now))) }
{
    let mut index = IndexSet::new(alloc);
    add_packages(alloc, &mut index, packages)?;
    Ok(index)
}

// Adds those of the stems that aren't there.
fn add_absent(
    alloc: Global,
    all: &mut BTreeSet<Text>,
    there: &IndexSet<String>,
    stems: &[Text],
) -> Result<(), AllocError>
    ensures { OnOk result ((stem : List ℕ) → has stem all.new.keys ≡ ((has stem stems.now && not (has stem (stems_of there.now.keys))) || has stem all.old.keys)) }
{
    for stem in stems {
        if !is_in(there, stem) {
            add(alloc, all, stem)?;
        }
    }
    Ok(())
}

// Adds each of the stems.
fn add_each(alloc: Global, all: &mut BTreeSet<Text>, stems: &[Text]) -> Result<(), AllocError>
    ensures { OnOk result ((stem : List ℕ) → has stem all.new.keys ≡ (has stem stems.now || has stem all.old.keys)) }
{
    for stem in stems {
        add(alloc, all, stem)?;
    }
    Ok(())
}

// Adds the stem.
fn add(alloc: Global, all: &mut BTreeSet<Text>, stem: &Text) -> Result<(), AllocError>
    ensures { OnOk result ((other : List ℕ) → has other all.new.keys ≡ (bytes_eq other stem.now || has other all.old.keys)) }
{
    let copy = stem.copy(alloc)?;
    all.insert(copy)?;
    Ok(())
}

// The stems, by their bytes.
fn in_order(alloc: Global, all: BTreeSet<Text>) -> Result<Vec<Text>, AllocError>
    ensures stems { IfOk result (λ v. v.items ≡ all.keys) }
    ensures order { IfOk result (λ v. Ascend v.items) }
{
    all.into_iter().collect(alloc)
}
