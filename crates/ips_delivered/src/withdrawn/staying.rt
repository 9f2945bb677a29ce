//! What the new packages still have.

ghost use Rattle.std.specs.Prelude.{◌≡◌, ◌∷◌, ◌++◌, [], map, IfOk, OnOk};
ghost use Rattle.std.specs.List.{AllByRecursion};
ghost use Rattle.ips_delivered.specs.delivered.Named.{NamesLicense, legacy_told, license_told};
ghost use Rattle.ips_delivered.specs.withdrawn.Sets.{HasJust, HasMore, license_place};

use crate::delivered::{Legacy, License};
use crate::withdrawn::sets::add;
use ips_manifest::Package;
use ips_metafiles::license_path;
use std::alloc::{AllocError, Global};
use std::collections::BTreeSet;

/// Licenses that stay: their stems, and where they are recorded.
#[derive(Drop)]
pub struct Staying {
    pub stems: BTreeSet<Vec<u8>>,
    pub places: BTreeSet<Vec<u8>>,
}

/// The stems of packages.
pub fn stems(alloc: Global, packages: &[Package]) -> Result<BTreeSet<Vec<u8>>, AllocError>
    ensures { IfOk result (λ stems. HasJust stems (map (λ p. p.stem) packages.now)) }
{
    let mut stems = BTreeSet::new(alloc);
    for held in packages {
        add(alloc, &mut stems, held.stem.as_str().as_bytes())?;
    }
    Ok(stems)
}

/// The stems and the places of licenses.
pub fn licenses(alloc: Global, licenses: &[License<'_>]) -> Result<Staying, AllocError>
    requires { AllByRecursion NamesLicense (map license_told licenses.now) }
    ensures stems { IfOk result (λ staying. HasJust staying.stems (map (λ l. l.stem) (map license_told licenses.now))) }
    ensures places { IfOk result (λ staying. HasJust staying.places (map license_place (map license_told licenses.now))) }
{
    let mut staying = Staying {
        stems: BTreeSet::new(alloc),
        places: BTreeSet::new(alloc),
    };
    for license in licenses {
        add_license(alloc, license, &mut staying)?;
    }
    Ok(staying)
}

// Adds the stem and the place of a license.
fn add_license(
    alloc: Global,
    license: &License<'_>,
    staying: &mut Staying,
) -> Result<(), AllocError>
    requires { NamesLicense (license_told license.now) }
    ensures stems { OnOk result (HasMore staying.old.stems staying.new.stems (license.now.stem.now ∷ [])) }
    ensures places { OnOk result (HasMore staying.old.places staying.new.places (license_place (license_told license.now) ∷ [])) }
{
    let place = license_path(alloc, license.stem, license.name)?;
    add(alloc, &mut staying.stems, license.stem.as_bytes())?;
    add(alloc, &mut staying.places, place.bytes())
}

/// The names of legacy packages.
pub fn legacy_names(alloc: Global, legacy: &[Legacy<'_>]) -> Result<BTreeSet<Vec<u8>>, AllocError>
    ensures { IfOk result (λ names. HasJust names (map (λ g. g.pkg) (map legacy_told legacy.now))) }
{
    let mut names = BTreeSet::new(alloc);
    for one in legacy {
        add(alloc, &mut names, one.pkg.as_bytes())?;
    }
    Ok(names)
}
