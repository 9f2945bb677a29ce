//! The packages of a publisher.

ghost use Rattle.std.specs.Prelude.{◌≡◌, map, IfOk};
ghost use Rattle.ips_text.specs.Reading.{Gives};
ghost use Rattle.ips_catalog.specs.Seen.{seen};
ghost use Rattle.ips_catalog.specs.Listed.{IsInOrder};
ghost use Rattle.ips_catalog.specs.Reading.{package_at, packages_at};
ghost use Rattle.ips_catalog.specs.Outline.{package_kept, package_data, packages_kept, packages_data};

use crate::entries::read_versions;
use crate::fault::CatalogFault;
use crate::outline::Package;
use crate::pointers::package_pointer;
use crate::stems::read_stem;
use ips_fmri::Version;
use ips_text::{Or, Text};
use std::alloc::Global;
use std::collections::BTreeMap;

/// A package of a catalog.
#[derive(Drop)]
pub struct Listing {
    pub(crate) stem: Text,
    pub(crate) versions: Vec<Version>,
}

/// The packages that stand at their keys. Each is dropped once it is read.
pub fn read_packages(
    alloc: Global,
    publisher: &str,
    members: &mut BTreeMap<Text, Package>,
) -> Result<Vec<Listing>, Or<CatalogFault>>
    ensures read { Gives (λ v. map seen v.items) result (packages_at publisher.now (packages_data (packages_kept members.old.entries))) }
    ensures ordered { IfOk result (λ v. IsInOrder (map seen v.items)) }
{
    let mut packages = Vec::with_capacity(alloc, members.len())?;
    'members: while let Some((key, value)) = members.pop_first() {
        let package = read_package(alloc, publisher, key.as_str(), &value)?;
        packages.push(package)?;
    }
    Ok(packages)
}

// The package that stands at a key.
#[tactic(auto, unfolding(crate::specs::Reading::package_at))]
fn read_package(
    alloc: Global,
    publisher: &str,
    key: &str,
    value: &Package,
) -> Result<Listing, Or<CatalogFault>>
    ensures { Gives (λ l. seen l) result (package_at publisher.now key.now (package_data (package_kept value.now))) }
{
    match (read_stem(alloc, key)?, value.as_ref()) {
        (Some(stem), Some(entries)) => {
            let versions = read_versions(alloc, publisher, key, entries)?;
            Ok(Listing { stem, versions })
        }
        _ => {
            let pointer = package_pointer(alloc, publisher, key)?;
            Err(Or::Bad(CatalogFault::WrongShape { pointer }))
        }
    }
}
