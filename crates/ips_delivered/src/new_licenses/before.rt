//! What the old packages delivered.

ghost use Rattle.std.specs.Prelude.{◌≡◌, ◌++◌, ◌∷◌, [], map, IfOk, OnOk};
ghost use Rattle.ips_text.specs.Quote.{quoted};
ghost use Rattle.ips_digest.specs.Name.{spelling};
ghost use Rattle.ips_delivered.specs.delivered.Named.{license_told};
ghost use Rattle.ips_delivered.specs.new_licenses.Kept as spec;
ghost use Rattle.ips_delivered.specs.new_licenses.Kept.{HasKeys};

use crate::delivered::License;
use ips_digest::PayloadName;
use ips_text::quote;
use std::alloc::{AllocError, Global};
use std::collections::BTreeSet;

/// The keys of licenses.
pub fn keys(alloc: Global, licenses: &[License<'_>]) -> Result<BTreeSet<Vec<u8>>, AllocError>
    ensures { IfOk result (λ keys. HasKeys keys (map license_told licenses.now)) }
{
    let mut keys = BTreeSet::new(alloc);
    for license in licenses {
        keys.insert(license_key(alloc, license)?)?;
    }
    Ok(keys)
}

/// The key of a license: it tells its stem, its name and its payload.
pub fn license_key(alloc: Global, license: &License<'_>) -> Result<Vec<u8>, AllocError>
    ensures { IfOk result (λ key. key.items ≡ spec.license_key (license_told license.now)) }
{
    let mut key = Vec::new(alloc);
    push_part(alloc, license.stem, &mut key)?;
    push_part(alloc, license.name, &mut key)?;
    push_payload(license.payload, &mut key)?;
    Ok(key)
}

// Adds the quoted form of a name, and a `/`.
fn push_part(alloc: Global, name: &str, key: &mut Vec<u8>) -> Result<(), AllocError>
    ensures { OnOk result (key.new.items ≡ key.old.items ++ quoted name.now ++ 47 ∷ []) }
{
    let form = quote(alloc, name.as_bytes())?;
    key.extend_from_slice(form.as_str().as_bytes())?;
    key.push(b'/')?;
    Ok(())
}

// Adds the digits of a payload's name.
fn push_payload(payload: PayloadName, key: &mut Vec<u8>) -> Result<(), AllocError>
    ensures { OnOk result (key.new.items ≡ key.old.items ++ spelling payload) }
{
    let mut digits = [0; 64];
    let count = payload.print(&mut digits);
    key.extend_from_slice(&digits[..count])?;
    Ok(())
}
