//! All that packages deliver.

ghost use Rattle.std.specs.Prelude.{◌≡◌, ◌∷◌, ◌++◌, [], ℕ, List, Some, false, filter, if◌then◌else◌, map, IfOk, OnOk};
ghost use Rattle.std.specs.List.{AllByRecursion};
ghost use Rattle.ips_text.specs.Reading.{IfBad};
ghost use Rattle.ips_fmri.specs.Name.{IsStem};
ghost use Rattle.ips_books.specs.Seen.{accounts};
ghost use Rattle.ips_metafiles.specs.Records.{IsDrivers, owners_text};
ghost use Rattle.ips_due.specs.Due.{Own};
ghost use Rattle.ips_due.specs.Delivered.{CanBeNamed, Delivered, delivered_records, drivers_path, owners_path};
ghost use Rattle.ips_due.specs.outstanding.Parts.{due_record};
ghost use Rattle.ips_delivered.specs.delivered.Delivering as spec;
ghost use Rattle.ips_delivered.specs.delivered.Delivering.{AreDelivered, HasUnknownOwner, PackagesDeliver};
ghost use Rattle.ips_delivered.specs.delivered.Kept as kept;
ghost use Rattle.ips_delivered.specs.delivered.Named.{names_told, records_with};
ghost use Rattle.ips_delivered.specs.delivered.Kept.{ActionsDeliver, missing_told};
ghost use Rattle.ips_text.specs.Path.{IsPath};

use crate::delivered::admitting::admitted;
use crate::delivered::named::{Named, names_of};
use crate::delivered::owners::{owner_rows, parsed};
use crate::delivered::recording::{add_legacies, add_licenses};
use crate::delivered::unknown::{Missing, UnknownOwner, first_unknown};
use ips_action::{Action, ActionKind};
use ips_books::Books;
use ips_conflict::Placed;
use ips_due::outstanding::{Content, DueRecord};
use ips_filter::Settings;
use ips_manifest::Package;
use ips_metafiles::{OwnerRow, drivers, owners};
use ips_passwd::Owners;
use ips_text::{Or, Text};
use std::alloc::{AllocError, Global};

/// The records of what packages deliver where these are the settings and the account files: owners, drivers, licenses and legacy
/// packages. Where the account files aren't read they are empty, and just the names that need no line are known.
///
/// Bad names the least path of an admitted directory or file whose owner or group is unknown, the owner first.
pub fn delivered(
    alloc: Global,
    packages: &[Package],
    settings: &Settings,
    books: &Books,
) -> Result<Vec<DueRecord>, Or<UnknownOwner>>
    requires stems { AllByRecursion (λ p. IsStem false p.stem) packages.now }
    ensures records { IfOk result (λ records. (d : Delivered) × PackagesDeliver (accounts books.now) settings.now packages.now d × CanBeNamed d × (map due_record records.items ≡ delivered_records d)) }
    ensures unknown { IfBad result (λ fault. HasUnknownOwner (accounts books.now) settings.now packages.now fault.path.bytes fault.name) }
{
    let admitted = admitted(alloc, packages, settings)?;
    of_actions(alloc, &admitted, books)
}

// The records of what admitted actions deliver.
fn of_actions<'a>(
    alloc: Global,
    admitted: &[Placed<'a>],
    books: &Books,
) -> Result<Vec<DueRecord>, Or<UnknownOwner>>
    requires stems { AllByRecursion (λ p. IsStem false p.stem) admitted.now }
    ensures records { IfOk result (λ records. ActionsDeliver (accounts books.now) admitted.now (map due_record records.items)) }
    ensures unknown { IfBad result (λ fault. spec.first_unknown (accounts books.now) admitted.now ≡ Some (fault.path.bytes, fault.name)) }
{
    let accounts = Owners::new(alloc, books)?;
    of_owned(alloc, admitted, &accounts)
}

// The same, where users and groups are found by name.
fn of_owned<'a>(
    alloc: Global,
    admitted: &[Placed<'a>],
    accounts: &Owners,
) -> Result<Vec<DueRecord>, Or<UnknownOwner>>
    requires stems { AllByRecursion (λ p. IsStem false p.stem) admitted.now }
    ensures records { IfOk result (λ records. ActionsDeliver accounts.now admitted.now (map due_record records.items)) }
    ensures unknown { IfBad result (λ fault. spec.first_unknown accounts.now admitted.now ≡ Some (fault.path.bytes, fault.name)) }
{
    if let Some(missing) = first_unknown(accounts, admitted) {
        return Err(Or::Bad(unknown_owner(alloc, missing)?));
    }
    let rows = owner_rows(alloc, accounts, admitted)?;
    Ok(records(alloc, admitted, &rows)?)
}

// The unknown owner of a path.
fn unknown_owner(alloc: Global, missing: Missing<'_>) -> Result<UnknownOwner, AllocError>
    requires { IsPath missing.path.now }
    ensures { IfOk result (λ fault. (fault.path.bytes, fault.name) ≡ missing_told missing.entry) }
{
    let path = parsed(alloc, missing.path.as_bytes())?;
    let name = Text::new(alloc, missing.name)?;
    Ok(UnknownOwner { path, name })
}

// The records of what actions deliver, with these rows of owners.
fn records(
    alloc: Global,
    admitted: &[Placed<'_>],
    rows: &[OwnerRow],
) -> Result<Vec<DueRecord>, AllocError>
    requires stems { AllByRecursion (λ p. IsStem false p.stem) admitted.now }
    ensures { IfOk result (λ records. AreDelivered admitted.now rows.now (map due_record records.items)) }
{
    let named = names_of(alloc, admitted)?;
    all_records(alloc, admitted, rows, &named)
}

// The same, where these are the licenses and the legacy packages.
fn all_records(
    alloc: Global,
    admitted: &[Placed<'_>],
    rows: &[OwnerRow],
    named: &Named<'_>,
) -> Result<Vec<DueRecord>, AllocError>
    requires { CanBeNamed (names_told named.now) }
    ensures { IfOk result (λ records. (bytes : List ℕ) × IsDrivers (map (λ p. p.action) admitted.now) bytes × (map due_record records.items ≡ records_with rows.now bytes (names_told named.now).licenses (names_told named.now).legacy)) }
{
    let mut records = first_records(alloc, admitted, rows)?;
    add_licenses(alloc, &named.licenses, &mut records)?;
    add_legacies(alloc, &named.legacy, &mut records)?;
    Ok(records)
}

// The records of owners and drivers.
fn first_records(
    alloc: Global,
    admitted: &[Placed<'_>],
    rows: &[OwnerRow],
) -> Result<Vec<DueRecord>, AllocError>
    ensures { IfOk result (λ records. (bytes : List ℕ) × IsDrivers (map (λ p. p.action) admitted.now) bytes × (map due_record records.items ≡ (owners_path, Own (owners_text rows.now)) ∷ (drivers_path, Own bytes) ∷ [])) }
{
    let owners = owners_record(alloc, rows)?;
    let drivers = drivers_record(alloc, admitted)?;
    let mut records = Vec::new(alloc);
    records.push(owners)?;
    records.push(drivers)?;
    Ok(records)
}

// The record of owners.
fn owners_record(alloc: Global, rows: &[OwnerRow]) -> Result<DueRecord, AllocError>
    ensures { IfOk result (λ r. due_record r ≡ (owners_path, Own (owners_text rows.now))) }
{
    Ok(DueRecord {
        path: parsed(alloc, b"var/pkg/owners")?,
        content: Content::Own(owners(alloc, rows)?),
    })
}

// The record of drivers.
fn drivers_record(alloc: Global, admitted: &[Placed<'_>]) -> Result<DueRecord, AllocError>
    ensures { IfOk result (λ r. (bytes : List ℕ) × IsDrivers (map (λ p. p.action) admitted.now) bytes × (due_record r ≡ (drivers_path, Own bytes))) }
{
    let actions = driver_actions(alloc, admitted)?;
    let path = parsed(alloc, b"var/pkg/drivers")?;
    let text = drivers(alloc, &actions)?;
    Ok(DueRecord {
        path,
        content: Content::Own(text),
    })
}

// The driver actions.
fn driver_actions(alloc: Global, admitted: &[Placed<'_>]) -> Result<Vec<Action>, AllocError>
    ensures { IfOk result (λ actions. actions.items ≡ map (λ p. p.action) (filter (λ p. kept.is_driver p.action.kind) admitted.now)) }
{
    let mut actions = Vec::new(alloc);
    for item in admitted {
        add_driver(alloc, item, &mut actions)?;
    }
    Ok(actions)
}

// Adds an action, if it is a driver.
fn add_driver(alloc: Global, item: &Placed<'_>, actions: &mut Vec<Action>) -> Result<(), AllocError>
    ensures { OnOk result (actions.new.items ≡ actions.old.items ++ (if kept.is_driver item.now.action.kind then item.now.action ∷ [] else [])) }
{
    if is_driver(item.kind()) {
        actions.push(item.action().copy(alloc)?)?;
    }
    Ok(())
}

// Whether the kind is that of a driver.
fn is_driver(kind: ActionKind) -> bool
    ensures { result ≡ kept.is_driver kind }
{
    matches!(kind, ActionKind::Driver)
}
