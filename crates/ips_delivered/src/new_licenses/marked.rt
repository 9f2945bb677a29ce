//! The licenses that are new and marked.

ghost use Rattle.std.specs.Prelude.{◌≡◌, ◌∷◌, ◌&&◌, [], false, IfOk, OnOk, List};
ghost use Rattle.std.specs.List.{AllByRecursion, list_any};
ghost use Rattle.ips_fmri.specs.Name.{IsStem};
ghost use Rattle.ips_due.specs.Delivered.{License};
ghost use Rattle.ips_delivered.specs.delivered.Delivering as delivering;
ghost use Rattle.ips_delivered.specs.delivered.Named.{NamesLicense};
ghost use Rattle.ips_delivered.specs.new_licenses.New as spec;
ghost use Rattle.ips_delivered.specs.new_licenses.New.{LicenseName};
ghost use Rattle.ips_delivered.specs.new_licenses.Kept.{HasKeys, HasNew, holds};

use crate::delivered::{is_license, license_of, value};
use crate::new_licenses::before::license_key;
use ips_conflict::Placed;
use std::alloc::{AllocError, Global};
use std::collections::BTreeSet;

/// The names of the licenses that these actions newly deliver, and that are marked by this key.
pub fn marked<'a>(
    alloc: Global,
    was: &BTreeSet<Vec<u8>>,
    is: &[Placed<'a>],
    key: &str,
) -> Result<BTreeSet<(&'a str, &'a str)>, AllocError>
    requires { AllByRecursion (λ p. IsStem false p.stem) is.now }
    ensures { IfOk result (λ names. (licenses : List License) → AllByRecursion NamesLicense licenses → HasKeys was.now licenses → (one : LicenseName) → holds names one ≡ list_any (spec.delivers_new licenses key.now one) is.now) }
{
    let mut names = BTreeSet::new(alloc);
    for item in is {
        add_marked(alloc, was, item, key, &mut names)?;
    }
    Ok(names)
}

// Adds the name of the license that an action delivers, if it is new and marked.
fn add_marked<'a>(
    alloc: Global,
    was: &BTreeSet<Vec<u8>>,
    item: &Placed<'a>,
    key: &str,
    names: &mut BTreeSet<(&'a str, &'a str)>,
) -> Result<(), AllocError>
    requires { IsStem false item.now.stem }
    ensures { OnOk result ((licenses : List License) → AllByRecursion NamesLicense licenses → HasKeys was.now licenses → HasNew licenses key.now (item.now ∷ []) names.old names.new) }
{
    if !is_marked(item, key) {
        return Ok(());
    }
    let license = license_of(item);
    let place = license_key(alloc, &license)?;
    if was.contains(place.as_slice()) {
        return Ok(());
    }
    names.insert((license.stem, license.name))?;
    Ok(())
}

// Whether the action is that of a license, and marked by this key.
fn is_marked(item: &Placed<'_>, key: &str) -> bool
    ensures { result ≡ (delivering.is_license item.now.action.kind && spec.is_marked key.now item.now) }
{
    is_license(item.kind()) && value(item.action(), key) == "true"
}
