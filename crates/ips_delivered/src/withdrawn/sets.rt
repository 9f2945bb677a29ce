//! Sets of bytes, and the places of records by the quoted form of a name.

ghost use Rattle.std.specs.Prelude.{◌≡◌, ◌∷◌, ◌++◌, [], IfOk, OnOk, string_bytes};
ghost use Rattle.ips_conflict.specs.Index.{has_path};
ghost use Rattle.ips_text.specs.Quote.{quoted};
ghost use Rattle.ips_delivered.specs.withdrawn.Sets.{HasMore};

use ips_text::quote;
use std::alloc::{AllocError, Global};
use std::collections::BTreeSet;

/// Adds bytes to a set.
pub fn add(alloc: Global, set: &mut BTreeSet<Vec<u8>>, bytes: &[u8]) -> Result<(), AllocError>
    ensures { OnOk result (HasMore set.old set.new (bytes.now ∷ [])) }
{
    let key = Vec::from_slice(alloc, bytes)?;
    set.insert(key)?;
    Ok(())
}

/// Whether a set has these bytes.
pub fn has(set: &BTreeSet<Vec<u8>>, bytes: &[u8]) -> bool
    ensures { result ≡ has_path set.now bytes.now }
{
    set.contains(bytes)
}

/// The bytes in front, and behind them the quoted form of a name.
pub fn place(alloc: Global, front: &str, name: &str) -> Result<String, AllocError>
    ensures { IfOk result (λ place. string_bytes place ≡ front.now ++ quoted name.now) }
{
    let form = quote(alloc, name.as_bytes())?;
    let mut place = String::from_str(alloc, front)?;
    place.push_str(form.as_str())?;
    Ok(place)
}
