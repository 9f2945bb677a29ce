//! What the catalog lists.

ghost use Rattle.std.specs.Prelude.{◌↔◌, IsTrue};
ghost use Rattle.std.specs.List.{Contains};
ghost use Rattle.ips_catalog.specs.Listed.{versions_of};

use ips_catalog::Catalog;
use ips_fmri::{Version, version_order_is_total};

/// Whether the catalog lists the version of the stem.
pub(crate) fn is_listed(catalog: &Catalog, stem: &str, version: &Version) -> bool
    ensures { IsTrue result ↔ Contains (versions_of catalog.now stem.now) version.now }
{
    version_order_is_total();
    catalog.versions(stem).contains(version)
}
