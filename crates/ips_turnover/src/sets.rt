//! Sets of texts.

ghost use Rattle.std.specs.Prelude.{◌≡◌, ◌||◌, List, ℕ, OnOk};
ghost use Rattle.ips_action.specs.Attrs.{is_same};
ghost use Rattle.ips_turnover.specs.Seen.{is_in};

use std::alloc::{AllocError, Global};
use std::collections::BTreeSet;

/// Puts a text into the set.
pub fn insert(alloc: Global, set: &mut BTreeSet<Vec<u8>>, text: &str) -> Result<(), AllocError>
    ensures { OnOk result ((other : List ℕ) → is_in set.new other ≡ (is_same other text.now || is_in set.old other)) }
{
    let key = Vec::from_slice(alloc, text.as_bytes())?;
    set.insert(key)?;
    Ok(())
}

/// Whether the text is in the set.
pub fn has(set: &BTreeSet<Vec<u8>>, text: &[u8]) -> bool
    ensures { result ≡ is_in set.now text.now }
{
    set.contains(text)
}
