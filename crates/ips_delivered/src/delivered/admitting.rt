//! The admitted actions of packages.

ghost use Rattle.std.specs.Prelude.{◌≡◌, ◌++◌, List, IfOk, OnOk};
ghost use Rattle.ips_filter.specs.Admitted.{Admits};
ghost use Rattle.ips_conflict.specs.declared.placed.Placed as declared;
ghost use Rattle.ips_meaning.specs.Leaving.{LeavesMore};
ghost use Rattle.ips_meaning.specs.Taken.{AreAdmitted, placed_of};

use ips_conflict::Placed;
use ips_filter::Settings;
use ips_manifest::Package;
use std::alloc::{AllocError, Global};

/// The actions of the packages that the settings admit, in the order of packages and lines.
pub fn admitted<'a>(
    alloc: Global,
    packages: &'a [Package],
    settings: &Settings,
) -> Result<Vec<Placed<'a>>, AllocError>
    ensures { IfOk result (λ admitted. AreAdmitted settings.now packages.now admitted.items) }
{
    let mut admitted = Vec::new(alloc);
    for pkg in packages {
        add_package(&mut admitted, pkg, settings)?;
    }
    Ok(admitted)
}

// Adds the admitted actions of a package.
fn add_package<'a>(
    admitted: &mut Vec<Placed<'a>>,
    pkg: &'a Package,
    settings: &Settings,
) -> Result<(), AllocError>
    ensures { OnOk result (LeavesMore (λ p. Admits settings.now p.action.attrs) (placed_of pkg.now) admitted.old.items admitted.new.items) }
{
    for line in &pkg.manifest.lines {
        if settings.admits(&line.action) {
            admitted.push(Placed::new(&pkg.stem, line.number, &line.action))?;
        }
    }
    Ok(())
}
