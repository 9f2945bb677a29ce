//! The stems that patterns are matched against.

ghost use Rattle.std.specs.Prelude.{◌≡◌, ◌||◌, ℕ, IfOk, List, OnOk, map, option_map};
ghost use Rattle.std.specs.Str.{bytes_eq};
ghost use Rattle.ips_state.specs.State.{Ascend, installed};
ghost use Rattle.ips_request.specs.Named.{AreKnown, listed_stems, installed_stems};
ghost use Rattle.ips_request.specs.Stems.{has};
ghost use Rattle.ips_request.specs.Listing.{listing_of};

use ips_catalog::Catalog;
use ips_manifest::Package;
use ips_text::Text;
use std::alloc::{AllocError, Global};
use std::collections::BTreeSet;

/// The stems that are listed or installed, by their bytes.
pub fn known_stems(
    alloc: Global,
    catalog: Option<&Catalog>,
    packages: &[Package],
) -> Result<Vec<Text>, AllocError>
    ensures { IfOk result (λ known. AreKnown (listing_of (option_map (λ c. c.now) catalog.entry)) (map installed packages.now) known.items) }
{
    let mut known = BTreeSet::new(alloc);
    add_listed(alloc, &mut known, catalog)?;
    add_installed(alloc, &mut known, packages)?;
    in_order(alloc, known)
}

// Adds the stems of the catalog, where there is one.
fn add_listed(
    alloc: Global,
    known: &mut BTreeSet<Text>,
    catalog: Option<&Catalog>,
) -> Result<(), AllocError>
    ensures { OnOk result ((stem : List ℕ) → has stem known.new.keys ≡ (has stem (listed_stems (listing_of (option_map (λ c. c.now) catalog.entry))) || has stem known.old.keys)) }
{
    match catalog {
        Some(catalog) => add_stems(alloc, known, catalog),
        None => Ok(()),
    }
}

// Adds the stems of the catalog.
fn add_stems(alloc: Global, known: &mut BTreeSet<Text>, catalog: &Catalog) -> Result<(), AllocError>
    ensures { OnOk result ((stem : List ℕ) → has stem known.new.keys ≡ (has stem (listed_stems catalog.now) || has stem known.old.keys)) }
{
    for number in 0..catalog.stems() {
        if let Some(stem) = catalog.stem(number) {
            add_stem(known, Text::new(alloc, stem)?)?;
        }
    }
    Ok(())
}

// Adds the stems of the packages.
fn add_installed(
    alloc: Global,
    known: &mut BTreeSet<Text>,
    packages: &[Package],
) -> Result<(), AllocError>
    ensures { OnOk result ((stem : List ℕ) → has stem known.new.keys ≡ (has stem (installed_stems (map installed packages.now)) || has stem known.old.keys)) }
{
    for package in packages {
        add_stem(known, package.stem.copy(alloc)?)?;
    }
    Ok(())
}

// Adds the stem.
fn add_stem(known: &mut BTreeSet<Text>, stem: Text) -> Result<(), AllocError>
    ensures { OnOk result ((other : List ℕ) → has other known.new.keys ≡ (bytes_eq other stem || has other known.old.keys)) }
{
    known.insert(stem)?;
    Ok(())
}

// The stems of the set, by their bytes.
fn in_order(alloc: Global, known: BTreeSet<Text>) -> Result<Vec<Text>, AllocError>
    ensures stems { IfOk result (λ v. v.items ≡ known.keys) }
    ensures order { IfOk result (λ v. Ascend v.items) }
{
    known.into_iter().collect(alloc)
}
