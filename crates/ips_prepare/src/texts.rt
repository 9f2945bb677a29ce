//! The texts that are put.

ghost use Rattle.std.specs.Prelude.{◌≡◌, IfOk};
ghost use Rattle.std.specs.Str.{IsUtf8};
ghost use Rattle.ips_listing.specs.Text.{catalog_text, with_version};
ghost use Rattle.ips_sends.specs.Published.{actions_text};
ghost use Rattle.ips_prepare.specs.Prepared.{actions_of};

use crate::prepared::Texts;
use ips_catalog::Catalog;
use ips_fmri::Version;
use ips_listing::print_with;
use ips_manifest::Manifest;
use std::alloc::{AllocError, Global};

/// The text of the manifest, and that of the catalog with the version besides.
pub fn print_texts(
    alloc: Global,
    publisher: &str,
    stem: &str,
    version: &Version,
    catalog: &Catalog,
    manifest: &Manifest,
) -> Result<Texts, AllocError>
    ensures manifest { IfOk result (λ texts. texts.manifest ≡ actions_text (actions_of manifest.now.lines.items)) }
    ensures catalog { IfOk result (λ texts. texts.catalog.items ≡ catalog_text publisher.now (with_version stem.now version.now catalog.now)) }
    ensures utf8 { IfOk result (λ texts. IsUtf8 texts.catalog.items) }
{
    let catalog = print_with(alloc, publisher, catalog, stem, version)?;
    match manifest.print(alloc) {
        Ok(manifest) => Ok(Texts { manifest, catalog }),
        Err(AllocError) => Err(AllocError),
    }
}
