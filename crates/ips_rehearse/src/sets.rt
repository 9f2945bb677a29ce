//! Sets of paths.

ghost use Rattle.std.specs.Prelude.{◌≡◌, ◌||◌, List, ℕ, OnOk};
ghost use Rattle.ips_text.specs.Ancestry.{same_path};
ghost use Rattle.ips_outside.specs.Tearing.{in_set};

use std::alloc::{AllocError, Global};
use std::collections::BTreeSet;

/// Adds a path.
pub(crate) fn add(
    alloc: Global,
    paths: &mut BTreeSet<Vec<u8>>,
    path: &[u8],
) -> Result<(), AllocError>
    ensures { OnOk result ((q : List ℕ) → in_set paths.new q ≡ (same_path path.now q || in_set paths.old q)) }
{
    let key = Vec::from_slice(alloc, path)?;
    paths.insert(key)?;
    Ok(())
}

/// Whether the path is one of them.
pub(crate) fn has(paths: &BTreeSet<Vec<u8>>, path: &[u8]) -> bool
    ensures { result ≡ in_set paths.now path.now }
{
    paths.contains(path)
}
