//! What goes of each sort.

ghost use Rattle.std.specs.Prelude.{◌∷◌, [], map, true, false, not, if◌then◌else◌, OnOk};
ghost use Rattle.std.specs.List.{AllByRecursion};
ghost use Rattle.ips_conflict.specs.Index.{has_path};
ghost use Rattle.ips_state.specs.Records.{gone_stems, package_place, taken_away, taken_by};
ghost use Rattle.ips_state.specs.State.{installed, recorded};
ghost use Rattle.ips_due.specs.Delivered.{legacy_folder};
ghost use Rattle.ips_delivered.specs.delivered.Named.{NamesLicense, legacy_told, license_told};
ghost use Rattle.ips_delivered.specs.withdrawn.Sets as spec;
ghost use Rattle.ips_delivered.specs.withdrawn.Sets.{HasMore, gone_legacy, gone_licenses, gone_packages};

use crate::delivered::{Legacy, License};
use crate::withdrawn::sets::{add, has, place};
use crate::withdrawn::staying::{Staying, stems};
use ips_manifest::Package;
use ips_metafiles::license_path;
use ips_state::State;
use std::alloc::{AllocError, Global};
use std::collections::BTreeSet;

/// Adds what a change of the state takes away.
pub fn add_taken(
    alloc: Global,
    old: &State,
    new: &State,
    gone: &mut BTreeSet<Vec<u8>>,
) -> Result<(), AllocError>
    ensures { OnOk result (HasMore gone.old gone.new (taken_away (recorded old.now) (recorded new.now))) }
{
    if old.format == 1 {
        if new.format == 1 {
            add_other_stems(alloc, true, &old.installed, &new.installed, gone)
        } else {
            add_first_format(alloc, gone)
        }
    } else if new.format == 1 {
        Ok(())
    } else {
        add_other_stems(alloc, false, &old.installed, &new.installed, gone)
    }
}

// Adds the places of the old packages whose stems the new ones lack, in the format that the flag tells.
fn add_other_stems(
    alloc: Global,
    first: bool,
    old: &[Package],
    new: &[Package],
    gone: &mut BTreeSet<Vec<u8>>,
) -> Result<(), AllocError>
    ensures { OnOk result (HasMore gone.old gone.new (map (package_place first) (gone_stems (map installed old.now) (map installed new.now)))) }
{
    let staying = stems(alloc, new)?;
    add_packages(alloc, first, old, &staying, gone)
}

// Adds what only the first format has.
fn add_first_format(alloc: Global, gone: &mut BTreeSet<Vec<u8>>) -> Result<(), AllocError>
    ensures { OnOk result (HasMore gone.old gone.new (taken_by true false [] [])) }
{
    add(alloc, gone, b"var/pkg/installed")?;
    add(alloc, gone, b"var/pkg/manifests")
}

// Adds the places of packages of other stems than these, in the format that the flag tells.
fn add_packages(
    alloc: Global,
    first: bool,
    packages: &[Package],
    staying: &BTreeSet<Vec<u8>>,
    gone: &mut BTreeSet<Vec<u8>>,
) -> Result<(), AllocError>
    ensures { OnOk result (HasMore gone.old gone.new (gone_packages first staying.now (map (λ p. p.stem) packages.now))) }
{
    for held in packages {
        add_package(alloc, first, held.stem.as_str(), staying, gone)?;
    }
    Ok(())
}

// Adds the place of a package, unless its stem is one of these.
fn add_package(
    alloc: Global,
    first: bool,
    stem: &str,
    staying: &BTreeSet<Vec<u8>>,
    gone: &mut BTreeSet<Vec<u8>>,
) -> Result<(), AllocError>
    ensures { OnOk result (HasMore gone.old gone.new (if not (has_path staying.now stem.now) then package_place first stem.now ∷ [] else [])) }
{
    if has(staying, stem.as_bytes()) {
        return Ok(());
    }
    let front = if first {
        "var/pkg/manifests/"
    } else {
        "var/pkg/packages/"
    };
    let place = place(alloc, front, stem)?;
    add(alloc, gone, place.as_bytes())
}

/// Adds what goes of licenses.
pub fn add_licenses(
    alloc: Global,
    licenses: &[License<'_>],
    staying: &Staying,
    gone: &mut BTreeSet<Vec<u8>>,
) -> Result<(), AllocError>
    requires { AllByRecursion NamesLicense (map license_told licenses.now) }
    ensures { OnOk result (HasMore gone.old gone.new (gone_licenses staying.now (map license_told licenses.now))) }
{
    for license in licenses {
        add_license(alloc, license, staying, gone)?;
    }
    Ok(())
}

// Adds what goes of a license, unless it stays.
fn add_license(
    alloc: Global,
    license: &License<'_>,
    staying: &Staying,
    gone: &mut BTreeSet<Vec<u8>>,
) -> Result<(), AllocError>
    requires { NamesLicense (license_told license.now) }
    ensures { OnOk result (HasMore gone.old gone.new (if spec.goes staying.now (license_told license.now) then spec.gone_with staying.now (license_told license.now) ∷ [] else [])) }
{
    let path = license_path(alloc, license.stem, license.name)?;
    if has(&staying.places, path.bytes()) {
        return Ok(());
    }
    if has(&staying.stems, license.stem.as_bytes()) {
        return add(alloc, gone, path.bytes());
    }
    let folder = place(alloc, "var/pkg/license/", license.stem)?;
    add(alloc, gone, folder.as_bytes())
}

/// Adds the folders of legacy packages of other names than these.
pub fn add_legacy(
    alloc: Global,
    legacy: &[Legacy<'_>],
    staying: &BTreeSet<Vec<u8>>,
    gone: &mut BTreeSet<Vec<u8>>,
) -> Result<(), AllocError>
    ensures { OnOk result (HasMore gone.old gone.new (gone_legacy staying.now (map legacy_told legacy.now))) }
{
    for one in legacy {
        add_folder(alloc, one.pkg, staying, gone)?;
    }
    Ok(())
}

// Adds the folder of a legacy package, unless its name is one of these.
fn add_folder(
    alloc: Global,
    name: &str,
    staying: &BTreeSet<Vec<u8>>,
    gone: &mut BTreeSet<Vec<u8>>,
) -> Result<(), AllocError>
    ensures { OnOk result (HasMore gone.old gone.new (if not (has_path staying.now name.now) then legacy_folder name.now ∷ [] else [])) }
{
    if has(staying, name.as_bytes()) {
        return Ok(());
    }
    let folder = place(alloc, "var/sadm/pkg/", name)?;
    add(alloc, gone, folder.as_bytes())
}
