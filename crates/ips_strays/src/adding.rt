//! A thing that is added to a list.

ghost use Rattle.std.specs.Prelude.{◌≡◌, ◌++◌, ◌∷◌, [], OnOk, map};
ghost use Rattle.ips_found.specs.Found.{found_told};
ghost use Rattle.ips_strays.specs.Strays.{seen};

use ips_found::{Found, Thing};
use ips_text::RelPath;
use std::alloc::{AllocError, Global};

// Adds a copy of the path, with what was found there.
pub(crate) fn add(
    alloc: Global,
    path: &RelPath,
    found: Found,
    things: &mut Vec<Thing>,
) -> Result<(), AllocError>
    ensures { OnOk result (map seen things.new.items ≡ map seen things.old.items ++ (path.now.bytes, found_told found) ∷ []) }
{
    things.push(Thing {
        path: path.copy(alloc)?,
        found,
    })?;
    Ok(())
}
