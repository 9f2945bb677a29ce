//! Licenses and legacy packages, which packages deliver under names of their own.

ghost use Rattle.std.specs.Prelude.{◌≡◌, ◌++◌, ◌∷◌, [], map, true, false, if◌then◌else◌, IfOk, OnOk};
ghost use Rattle.std.specs.List.{AllByRecursion};
ghost use Rattle.ips_fmri.specs.Name.{IsStem};
ghost use Rattle.ips_action.specs.Action.{IsAction};
ghost use Rattle.ips_conflict.specs.Key as keys;
ghost use Rattle.ips_digest.specs.Name.{spelling};
ghost use Rattle.ips_metafiles.specs.Records.{IsQuotedName, info_text};
ghost use Rattle.ips_due.specs.Delivered.{CanBeNamed, CanName};
ghost use Rattle.ips_delivered.specs.delivered.Delivering as spec;
ghost use Rattle.ips_delivered.specs.delivered.Delivering.{legacies_of, legacy_of, license_of, licenses_of};
ghost use Rattle.ips_delivered.specs.delivered.Named.{DeliverNamed, NamesLegacy, NamesLicense, legacy_told, license_told, names_told};

use crate::delivered::admitting::admitted;
use crate::delivered::attribute::value;
use ips_action::{Action, ActionKind};
use ips_conflict::Placed;
use ips_digest::PayloadName;
use ips_filter::Settings;
use ips_manifest::Package;
use std::alloc::{AllocError, Global};

/// A license that a package delivers. Stem and name are lent.
#[derive(Clone, Copy, Drop)]
pub struct License<'a> {
    /// The package's stem.
    pub stem: &'a str,
    /// The license's name.
    pub name: &'a str,
    /// The name of its payload.
    pub payload: PayloadName,
}

/// A legacy package that a package delivers, lent.
#[derive(Clone, Copy, Drop)]
pub struct Legacy<'a> {
    /// Its name.
    pub pkg: &'a str,
    /// The action that tells of it.
    pub action: &'a Action,
}

/// What packages deliver under names, in the order of packages and lines.
#[derive(Drop)]
pub struct Named<'a> {
    /// The licenses.
    pub licenses: Vec<License<'a>>,
    /// The legacy packages.
    pub legacy: Vec<Legacy<'a>>,
}

/// The licenses and the legacy packages that packages deliver where these are the settings. Owners needn't be known for them.
pub fn delivered_names<'a>(
    alloc: Global,
    packages: &'a [Package],
    settings: &Settings,
) -> Result<Named<'a>, AllocError>
    requires stems { AllByRecursion (λ p. IsStem false p.stem) packages.now }
    ensures delivered { IfOk result (λ n. DeliverNamed settings.now packages.now (names_told n).licenses (names_told n).legacy) }
    ensures names { IfOk result (λ n. CanBeNamed (names_told n)) }
{
    let admitted = admitted(alloc, packages, settings)?;
    names_of(alloc, &admitted)
}

/// The licenses and the legacy packages that admitted actions deliver.
pub(crate) fn names_of<'a>(alloc: Global, admitted: &[Placed<'a>]) -> Result<Named<'a>, AllocError>
    requires stems { AllByRecursion (λ p. IsStem false p.stem) admitted.now }
    ensures licenses { IfOk result (λ n. map license_told n.licenses.items ≡ licenses_of admitted.now) }
    ensures legacy { IfOk result (λ n. map legacy_told n.legacy.items ≡ legacies_of admitted.now) }
    ensures names { IfOk result (λ n. CanBeNamed (names_told n)) }
{
    Ok(Named {
        licenses: licenses(alloc, admitted)?,
        legacy: legacies(alloc, admitted)?,
    })
}

/// The licenses that admitted actions deliver, in their order.
pub fn licenses<'a>(alloc: Global, admitted: &[Placed<'a>]) -> Result<Vec<License<'a>>, AllocError>
    requires { AllByRecursion (λ p. IsStem false p.stem) admitted.now }
    ensures told { IfOk result (λ licenses. map license_told licenses.items ≡ licenses_of admitted.now) }
    ensures named { OnOk result (AllByRecursion NamesLicense (licenses_of admitted.now)) }
{
    let mut licenses = Vec::new(alloc);
    for item in admitted {
        add_license(item, &mut licenses)?;
    }
    Ok(licenses)
}

// Adds the license that an action delivers, if it does.
fn add_license<'a>(item: &Placed<'a>, licenses: &mut Vec<License<'a>>) -> Result<(), AllocError>
    requires { IsStem false item.now.stem }
    ensures told { OnOk result (map license_told licenses.new.items ≡ map license_told licenses.old.items ++ (if spec.is_license item.now.action.kind then license_of item.now ∷ [] else [])) }
    ensures named { OnOk result (spec.is_license item.now.action.kind ≡ true → NamesLicense (license_of item.now)) }
{
    if is_license(item.kind()) {
        licenses.push(license_of(item))?;
    }
    Ok(())
}

/// The license that an action delivers.
pub fn license_of<'a>(item: &Placed<'a>) -> License<'a>
    requires kind { spec.is_license item.now.action.kind ≡ true }
    requires stem { IsStem false item.now.stem }
    ensures told { license_told result ≡ license_of item.now }
    ensures named { NamesLicense (license_of item.now) }
{
    let name = license_name(item);
    let action = item.action();
    match action.payload {
        Some(payload) => license_at(item.stem().as_str(), name, payload),
        None => unreachable!(),
    }
}

// The license of a stem with this name and payload.
fn license_at<'a>(stem: &'a str, name: &'a str, payload: PayloadName) -> License<'a>
    requires stem { IsQuotedName stem.now }
    requires name { IsQuotedName name.now }
    ensures told { license_told result ≡ record { stem = stem.now; name = name.now; payload = spelling payload } }
    ensures named { CanName stem.now × CanName name.now }
{
    License {
        stem,
        name,
        payload,
    }
}

// The name of a license.
fn license_name<'a>(item: &Placed<'a>) -> &'a str
    requires { item.now.action.kind ≡ ActionKind.License }
    ensures value { result.now ≡ (license_of item.now).name }
    ensures named { IsQuotedName result.now }
    ensures action { IsAction item.now.action }
{
    value(item.action(), "license")
}

// The legacy packages that actions deliver.
fn legacies<'a>(alloc: Global, admitted: &[Placed<'a>]) -> Result<Vec<Legacy<'a>>, AllocError>
    ensures told { IfOk result (λ legacy. map legacy_told legacy.items ≡ legacies_of admitted.now) }
    ensures named { OnOk result (AllByRecursion NamesLegacy (legacies_of admitted.now)) }
{
    let mut legacy = Vec::new(alloc);
    for item in admitted {
        add_legacy(item, &mut legacy)?;
    }
    Ok(legacy)
}

// Adds the legacy package that an action delivers, if it does.
fn add_legacy<'a>(item: &Placed<'a>, legacy: &mut Vec<Legacy<'a>>) -> Result<(), AllocError>
    ensures told { OnOk result (map legacy_told legacy.new.items ≡ map legacy_told legacy.old.items ++ (if keys.is_legacy item.now.action.kind then legacy_of item.now ∷ [] else [])) }
    ensures named { OnOk result (keys.is_legacy item.now.action.kind ≡ true → NamesLegacy (legacy_of item.now)) }
{
    if is_legacy(item.kind()) {
        legacy.push(legacy_at(legacy_name(item), item.action()))?;
    }
    Ok(())
}

// The legacy package of this name, of which the action tells.
fn legacy_at<'a>(pkg: &'a str, action: &'a Action) -> Legacy<'a>
    requires { IsQuotedName pkg.now }
    ensures told { legacy_told result ≡ record { pkg = pkg.now; text = info_text action.now } }
    ensures named { CanName pkg.now }
{
    Legacy { pkg, action }
}

// The name of a legacy package.
fn legacy_name<'a>(item: &Placed<'a>) -> &'a str
    requires { item.now.action.kind ≡ ActionKind.Legacy }
    ensures value { result.now ≡ (legacy_of item.now).pkg }
    ensures named { IsQuotedName result.now }
{
    value(item.action(), "pkg")
}

/// Whether the kind is that of a license.
pub fn is_license(kind: ActionKind) -> bool
    ensures { result ≡ spec.is_license kind }
{
    matches!(kind, ActionKind::License)
}

// Whether the kind is that of a legacy package's entry.
fn is_legacy(kind: ActionKind) -> bool
    ensures { result ≡ keys.is_legacy kind }
{
    matches!(kind, ActionKind::Legacy)
}
