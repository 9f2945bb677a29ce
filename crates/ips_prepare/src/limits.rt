//! The limits of what is put.

ghost use Rattle.std.specs.Prelude.{◌≡◌, ℕ, IfSome, IfNone};
ghost use Rattle.std.specs.List.{Contains};
ghost use Rattle.ips_text.specs.declared.limits.Which as declared;
ghost use Rattle.ips_catalog.specs.Listed.{versions_of};
ghost use Rattle.ips_repo.specs.Opening.{IsOffered};
ghost use Rattle.ips_listing.specs.Text.{with_version};
ghost use Rattle.ips_sends.specs.Judged.{Put, IsOverPut};
ghost use Rattle.ips_prepare.specs.Limits.{is_listed, IsOverSizes};

use crate::prepared::Texts;
use ips_catalog::Catalog;
use ips_fmri::Version;
use ips_text::Which;

/// The most bytes that a catalog may have.
const CATALOG_BYTES: usize = 67_108_864;

/// The most stems that it may list.
const STEMS: usize = 20_000;

/// The most versions that it may list.
const VERSIONS: usize = 200_000;

/// The most bytes that a manifest may have.
const MANIFEST_BYTES: usize = 16_777_216;

/// A limit that is passed.
#[derive(Clone, Copy, Drop)]
pub struct Over {
    /// Which.
    pub which: Which,
    /// By what count.
    pub count: u64,
}

/// The first limit that these texts pass, of which that of the catalog lists the version besides, which it doesn't list yet.
pub fn limit_passed(catalog: &Catalog, stem: &str, version: &Version, texts: &Texts) -> Option<Over>
    requires offered { IsOffered catalog.now }
    requires new { Contains (versions_of catalog.now stem.now) version.now → ⊥ }
    ensures some { IfSome result (λ over. (put : Put) → put.manifest ≡ texts.now.manifest → put.catalog ≡ texts.now.catalog.items → IsOverPut (with_version stem.now version.now catalog.now) put over.which over.count) }
    ensures none { IfNone result ((put : Put) → put.manifest ≡ texts.now.manifest → put.catalog ≡ texts.now.catalog.items → (which : declared.Which) (count : ℕ) → IsOverPut (with_version stem.now version.now catalog.now) put which count → ⊥) }
{
    let stems = if lists(catalog, stem) {
        catalog.stems()
    } else {
        catalog.stems() + 1
    };
    let versions = catalog.count() + 1;
    first_over(
        texts.catalog.len(),
        stems,
        versions,
        texts.manifest.as_str().len(),
    )
}

// Whether the catalog lists the stem.
fn lists(catalog: &Catalog, stem: &str) -> bool
    ensures { result ≡ is_listed stem.now catalog.now }
{
    for place in 0..catalog.stems() {
        let Some(found) = catalog.stem(place) else {
            unreachable!()
        };
        if stem == found {
            return true;
        }
    }
    false
}

// The first of the limits that is passed.
fn first_over(catalog: usize, stems: usize, versions: usize, manifest: usize) -> Option<Over>
    ensures some { IfSome result (λ over. IsOverSizes catalog stems versions manifest over.which over.count) }
    ensures none { IfNone result ((which : declared.Which) (count : ℕ) → IsOverSizes catalog stems versions manifest which count → ⊥) }
{
    if catalog > CATALOG_BYTES {
        return Some(passed(Which::CatalogBytes, catalog));
    }
    if stems > STEMS {
        return Some(passed(Which::Stems, stems));
    }
    if versions > VERSIONS {
        return Some(passed(Which::Versions, versions));
    }
    if manifest > MANIFEST_BYTES {
        return Some(passed(Which::ManifestBytes, manifest));
    }
    None
}

// This limit is passed by this count.
fn passed(which: Which, count: usize) -> Over
    ensures { result ≡ record { which = which; count = count } }
{
    Over {
        which,
        count: count as u64,
    }
}
