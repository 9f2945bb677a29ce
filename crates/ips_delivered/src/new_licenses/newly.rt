//! The texts of the licenses that are new.

ghost use Rattle.std.specs.Prelude.{◌≡◌, ◌++◌, ◌∷◌, false, IfOk, List, map, codes};
ghost use Rattle.std.specs.List.{AllByRecursion};
ghost use Rattle.std.specs.List.Sorted.{IsStrictlySortedBy};
ghost use Rattle.ips_fmri.specs.Name.{IsStem};
ghost use Rattle.ips_conflict.specs.declared.placed.Placed as placed;
ghost use Rattle.ips_delivered.specs.delivered.Delivering.{licenses_of};
ghost use Rattle.ips_delivered.specs.delivered.Named.{NamesLicense};
ghost use Rattle.ips_delivered.specs.new_licenses.New.{AreNew, AreNewlyDelivered, license_cmp, shown_license};
ghost use Rattle.ips_delivered.specs.new_licenses.Kept.{HasKeys, told};

use crate::delivered::{admitted, licenses};
use crate::new_licenses::before::keys;
use crate::new_licenses::marked::marked;
use ips_conflict::Placed;
use ips_filter::Settings;
use ips_manifest::Package;
use ips_text::Text;
use std::alloc::{AllocError, Global};
use std::collections::BTreeSet;

/// Licenses that a request newly delivers, each as the stem of its package, a blank and its name, in the order of stems and names.
#[derive(Drop)]
pub struct NewLicenses {
    /// Those that are to be shown.
    pub display: Vec<Text>,
    /// Those that must be accepted.
    pub accept: Vec<Text>,
}

/// The licenses that a request from the old packages, with their settings, to the new ones, with theirs, newly delivers: the package of the stem, if it
/// was installed, had none of that name and payload. A license on several lines counts once, and is marked if one of them is.
pub fn new_licenses(
    alloc: Global,
    old: &[Package],
    old_settings: &Settings,
    new: &[Package],
    new_settings: &Settings,
) -> Result<NewLicenses, AllocError>
    requires old { AllByRecursion (λ p. IsStem false p.stem) old.now }
    requires new { AllByRecursion (λ p. IsStem false p.stem) new.now }
    ensures { IfOk result (λ found. AreNewlyDelivered old_settings.now old.now new_settings.now new.now found.display.items found.accept.items) }
{
    let before = admitted(alloc, old, old_settings)?;
    let after = admitted(alloc, new, new_settings)?;
    of_actions(alloc, &before, &after)
}

// The same, of admitted actions.
fn of_actions(
    alloc: Global,
    was: &[Placed<'_>],
    is: &[Placed<'_>],
) -> Result<NewLicenses, AllocError>
    requires was { AllByRecursion (λ p. IsStem false p.stem) was.now }
    requires is { AllByRecursion (λ p. IsStem false p.stem) is.now }
    ensures display { IfOk result (λ found. AreNew was.now is.now (codes "must-display") found.display.items) }
    ensures accept { IfOk result (λ found. AreNew was.now is.now (codes "must-accept") found.accept.items) }
{
    let licenses = licenses(alloc, was)?;
    let keys = keys(alloc, &licenses)?;
    Ok(NewLicenses {
        display: texts(alloc, &keys, is, "must-display")?,
        accept: texts(alloc, &keys, is, "must-accept")?,
    })
}

// The texts of the licenses that are new and marked by this key.
fn texts(
    alloc: Global,
    was: &BTreeSet<Vec<u8>>,
    is: &[Placed<'_>],
    key: &str,
) -> Result<Vec<Text>, AllocError>
    requires { AllByRecursion (λ p. IsStem false p.stem) is.now }
    ensures { IfOk result (λ texts. (old : List placed.Placed) → AllByRecursion NamesLicense (licenses_of old) → HasKeys was.now (licenses_of old) → AreNew old is.now key.now texts.items) }
{
    let names = marked(alloc, was, is, key)?;
    written(alloc, &names)
}

// The texts of names, in order.
fn written(alloc: Global, names: &BTreeSet<(&str, &str)>) -> Result<Vec<Text>, AllocError>
    ensures order { IfOk result (λ texts. IsStrictlySortedBy license_cmp (map told names.now.keys)) }
    ensures texts { IfOk result (λ texts. texts.items ≡ map shown_license (map told names.now.keys)) }
{
    let mut texts = Vec::with_capacity(alloc, names.len())?;
    for name in names.iter() {
        texts.push(text_of(alloc, name.0, name.1)?)?;
    }
    Ok(texts)
}

// A stem, a blank and a name.
fn text_of(alloc: Global, stem: &str, name: &str) -> Result<Text, AllocError>
    ensures { IfOk result (λ text. text ≡ stem.now ++ 32 ∷ name.now) }
{
    let mut text = String::from_str(alloc, stem)?;
    text.push_str(" ")?;
    text.push_str(name)?;
    Ok(Text::from_string(text))
}
