//! What goes with folders that are made anew, or with what is taken away.

ghost use Rattle.std.specs.Prelude.{◌≡◌, ◌||◌, List, ℕ, OnOk, false, map};
ghost use Rattle.ips_after.specs.Change.{reached};
ghost use Rattle.ips_after.specs.Lists.{listed};
ghost use Rattle.ips_conflict.specs.Index.{has_path};
ghost use Rattle.ips_due.specs.Due as due;
ghost use Rattle.ips_due.specs.outstanding.Parts.{due_of};

use crate::outstanding::due::{DueParts, Records};
use crate::outstanding::marking::add;
use ips_text::{RelPath, parent};
use std::alloc::{AllocError, Global};
use std::collections::BTreeSet;

/// Adds the folders that are made anew, and what goes, to an empty set.
pub fn gather<R: Records>(
    alloc: Global,
    parts: &DueParts<'_, R>,
    going: &mut BTreeSet<Vec<u8>>,
) -> Result<(), AllocError>
    requires none { (q : List ℕ) → has_path going.old q ≡ false }
    ensures { OnOk result ((q : List ℕ) → reached (has_path going.new) q ≡ due.goes_with (due_of R.records parts.now) q) }
{
    add_all(alloc, parts.renewed, going)?;
    add_all(alloc, parts.gone, going)?;
    Ok(())
}

// Adds paths to a set.
fn add_all(
    alloc: Global,
    paths: &[RelPath],
    going: &mut BTreeSet<Vec<u8>>,
) -> Result<(), AllocError>
    ensures { OnOk result ((q : List ℕ) → has_path going.new q ≡ (has_path going.old q || listed (map (λ p. p.bytes) paths.now) q)) }
{
    for i in 0..paths.len() {
        add(alloc, going, paths[i].bytes())?;
    }
    Ok(())
}

/// Whether one of these paths is the path or stands above it.
pub fn goes_with(going: &BTreeSet<Vec<u8>>, path: &[u8]) -> bool
    ensures { result ≡ reached (has_path going.now) path.now }
{
    if going.contains(path) {
        return true;
    }
    let mut at = path;
    while let Some(dir) = parent(at) {
        if going.contains(dir) {
            return true;
        }
        at = dir;
    }
    false
}
