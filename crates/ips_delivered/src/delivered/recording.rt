//! The records of licenses and legacy packages.

ghost use Rattle.std.specs.Prelude.{◌≡◌, ◌++◌, map, IfOk, OnOk, string_bytes};
ghost use Rattle.std.specs.List.{AllByRecursion};
ghost use Rattle.ips_due.specs.Delivered as due;
ghost use Rattle.ips_due.specs.Delivered.{info_path};
ghost use Rattle.ips_due.specs.outstanding.Parts.{due_record};
ghost use Rattle.ips_delivered.specs.delivered.Named.{NamesLegacy, NamesLicense, legacy_told, license_told};

use crate::delivered::named::{Legacy, License};
use crate::delivered::owners::parsed;
use ips_due::outstanding::{Content, DueRecord};
use ips_metafiles::{license_path, pkginfo};
use ips_text::{RelPath, quote};
use std::alloc::{AllocError, Global};

/// Adds the records of licenses.
pub fn add_licenses(
    alloc: Global,
    licenses: &[License<'_>],
    records: &mut Vec<DueRecord>,
) -> Result<(), AllocError>
    requires { AllByRecursion NamesLicense (map license_told licenses.now) }
    ensures { OnOk result (map due_record records.new.items ≡ map due_record records.old.items ++ map due.license_record (map license_told licenses.now)) }
{
    for license in licenses {
        records.push(license_record(alloc, license)?)?;
    }
    Ok(())
}

// The record of a license: its payload.
fn license_record(alloc: Global, license: &License<'_>) -> Result<DueRecord, AllocError>
    requires { NamesLicense (license_told license.now) }
    ensures { IfOk result (λ r. due_record r ≡ due.license_record (license_told license.now)) }
{
    let path = license_path(alloc, license.stem, license.name)?;
    Ok(DueRecord {
        path,
        content: Content::Payload(license.payload),
    })
}

/// Adds the records of legacy packages.
pub fn add_legacies(
    alloc: Global,
    legacy: &[Legacy<'_>],
    records: &mut Vec<DueRecord>,
) -> Result<(), AllocError>
    requires { AllByRecursion NamesLegacy (map legacy_told legacy.now) }
    ensures { OnOk result (map due_record records.new.items ≡ map due_record records.old.items ++ map due.legacy_record (map legacy_told legacy.now)) }
{
    for one in legacy {
        records.push(legacy_record(alloc, one)?)?;
    }
    Ok(())
}

// The record of a legacy package: its text.
fn legacy_record(alloc: Global, legacy: &Legacy<'_>) -> Result<DueRecord, AllocError>
    requires { NamesLegacy (legacy_told legacy.now) }
    ensures { IfOk result (λ r. due_record r ≡ due.legacy_record (legacy_told legacy.now)) }
{
    let path = info_at(alloc, legacy.pkg)?;
    let text = pkginfo(alloc, legacy.action)?;
    Ok(DueRecord {
        path,
        content: Content::Own(text),
    })
}

// Where a legacy package of this name is recorded.
fn info_at(alloc: Global, name: &str) -> Result<RelPath, AllocError>
    requires { due.CanName name.now }
    ensures { IfOk result (λ path. path.bytes ≡ info_path name.now) }
{
    let place = info_place(alloc, name)?;
    parsed(alloc, place.as_bytes())
}

// The same, as text.
fn info_place(alloc: Global, name: &str) -> Result<String, AllocError>
    ensures { IfOk result (λ place. string_bytes place ≡ info_path name.now) }
{
    let form = quote(alloc, name.as_bytes())?;
    let mut place = String::from_str(alloc, "var/sadm/pkg/")?;
    place.push_str(form.as_str())?;
    place.push_str("/pkginfo")?;
    Ok(place)
}
