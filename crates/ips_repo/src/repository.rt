//! The repository of a publisher.

ghost use Rattle.std.specs.Prelude.{◌≡◌, ◌≤◌, ℕ, List, IsTrue, Ok, IfOk, vec_len};
ghost use Rattle.ips_text.specs.Reading.{Gives, Sees, IfBad};
ghost use Rattle.ips_text.specs.declared.refusal.Or.TheVariants.{Bad};
ghost use Rattle.ips_outside.specs.Outside.{Reads};
ghost use Rattle.ips_catalog.specs.Listed.{IsInOrder};
ghost use Rattle.ips_catalog.specs.Reading as catalog_text;
ghost use Rattle.ips_repo.specs.Answer.{Answers};
ghost use Rattle.ips_files.specs.Files.{file_at};
ghost use Rattle.ips_repo.specs.Places as place;
ghost use Rattle.ips_repo.specs.Opening as opened;
ghost use Rattle.ips_repo.specs.Opening.{IsOffered, IsOpeningFault, catalog_in, fault_of_catalog, limited, opening};
ghost use Rattle.ips_repo.specs.Manifest.{manifest_file, manifest_in, manifest_limit, HoldsManifest, IsBytesFault, IsSizedManifest, IsManifestRefusal, IsManifestFault};
ghost use Rattle.ips_manifest.specs.declared.line.Line as declared;
ghost use Rattle.ips_repo.specs.declared.fault.RepoFault.TheVariants as fault;

use crate::fault::RepoFault;
use crate::manifest::{manifest_bytes, sized_manifest};
use crate::mark::check_mark;
use crate::places::catalog_place;
use ips_catalog::{Catalog, CatalogFault};
use ips_files::{FileFault, read_whole};
use ips_fmri::Version;
use ips_manifest::Manifest;
use ips_outside::Source;
use ips_text::{Or, Text, Which};
use std::alloc::Global;
use std::marker::Model;

/// The most bytes that a catalog file may have.
const CATALOG_BYTES: u64 = 67_108_864;

/// The most stems that a catalog may list.
const STEMS: usize = 20_000;

/// The most versions that a catalog may list, of all stems together.
const VERSIONS: usize = 200_000;

/// The repository of a publisher, which was opened: a folder of format 4 (pkgrepo(1)). Contracts see the publisher and the
/// catalog.
#[derive(Drop)]
pub struct Repo {
    publisher: Text,
    catalog: Catalog,
}

impl Model for Repo {
    ghost use Rattle.ips_repo.specs.Opening.{Opened, IsOffered};

    ghost Value = { Opened };

    ghost view = { λ r. record { publisher = r.publisher; catalog = r.catalog } };

    ghost invariant = { λ r. IsOffered r.catalog };
}

impl Repo {
    /// Opens the repository: judges its mark, and reads the publisher's catalog.
    pub fn open<S: Source>(
        alloc: Global,
        source: &mut S,
        publisher: &str,
    ) -> Result<Repo, Or<RepoFault>>
        ensures publisher { IfOk result (λ repo. repo.publisher ≡ publisher.now) }
        ensures opened { IsTrue (S.outside.tells source.old) → Answers (λ repo. repo.catalog) result (opening publisher.now (S.outside.state source.old).held) }
        ensures offered { IfOk result (λ repo. IsOffered repo.catalog) }
        ensures faults { IfBad result IsOpeningFault }
        ensures reads { Reads S.outside source.old source.new (result ≡ Err (Bad fault.SourceFault)) }
    {
        check_mark(alloc, source)?;
        let catalog = read_catalog(alloc, source, publisher)?;
        let publisher = Text::new(alloc, publisher)?;
        Ok(Repo { publisher, catalog })
    }

    /// The bytes of the manifest of a version of a stem, whether or not the catalog lists it.
    pub fn manifest_bytes<S: Source>(
        &self,
        alloc: Global,
        source: &mut S,
        stem: &str,
        version: &Version,
    ) -> Result<Vec<u8>, Or<RepoFault>>
        ensures meant { IsTrue (S.outside.tells source.old) → Answers (λ bytes. bytes.items) result
            (manifest_in (manifest_file self.now.publisher stem.now version.now (S.outside.state source.old).held)) }
        ensures within { IfOk result (λ bytes. vec_len bytes ≤ manifest_limit) }
        ensures faults { IfBad result IsBytesFault }
        ensures reads { Reads S.outside source.old source.new (result ≡ Err (Bad fault.SourceFault)) }
    {
        manifest_bytes(alloc, source, self.publisher.as_str(), stem, version)
    }

    /// The manifest of a version of a stem, whether or not the catalog lists it, and how many bytes it has.
    pub fn manifest<S: Source>(
        &self,
        alloc: Global,
        source: &mut S,
        stem: &str,
        version: &Version,
    ) -> Result<(Manifest, u64), Or<RepoFault>>
        ensures found { IsTrue (S.outside.tells source.old) → IfOk result (λ m. HoldsManifest
            (manifest_file self.now.publisher stem.now version.now (S.outside.state source.old).held) m.0.lines.items m.1) }
        ensures only { IsTrue (S.outside.tells source.old) → (lines : List declared.Line) (size : ℕ)
            → HoldsManifest (manifest_file self.now.publisher stem.now version.now (S.outside.state source.old).held) lines size
            → Answers {Y = List declared.Line × ℕ} (λ m. (m.0.lines.items, m.1)) result (Ok (lines, size)) }
        ensures refused { IsTrue (S.outside.tells source.old)
            → IfBad result (IsManifestRefusal (manifest_file self.now.publisher stem.now version.now (S.outside.state source.old).held)) }
        ensures read { IfOk result (λ m. IsSizedManifest m.0.lines.items m.1) }
        ensures faults { IfBad result IsManifestFault }
        ensures reads { Reads S.outside source.old source.new (result ≡ Err (Bad fault.SourceFault)) }
    {
        let bytes = manifest_bytes(alloc, source, self.publisher.as_str(), stem, version)?;
        let manifest = sized_manifest(alloc, bytes.as_slice())?;
        Ok(manifest)
    }

    /// The publisher's catalog.
    pub fn catalog(&self) -> &Catalog
        ensures catalog { result.now ≡ self.now.catalog }
        ensures offered { IsOffered self.now.catalog }
    {
        &self.catalog
    }
}

// The publisher's catalog, from its file.
fn read_catalog<S: Source>(
    alloc: Global,
    source: &mut S,
    publisher: &str,
) -> Result<Catalog, Or<RepoFault>>
    ensures read { IsTrue (S.outside.tells source.old) → Answers (λ catalog. catalog) result
        (catalog_in publisher.now (file_at (S.outside.state source.old).held (place.catalog_place publisher.now))) }
    ensures offered { IfOk result (λ catalog. IsOffered catalog) }
    ensures faults { IfBad result IsOpeningFault }
    ensures reads { Reads S.outside source.old source.new (result ≡ Err (Bad fault.SourceFault)) }
{
    let Some(place) = catalog_place(alloc, publisher)? else {
        return Err(Or::Bad(RepoFault::BadCatalog(CatalogFault::NotJson)));
    };
    match read_whole(alloc, source, &place, CATALOG_BYTES) {
        Ok(bytes) => catalog_of(alloc, bytes.as_slice(), publisher),
        Err(Or::Bad(fault)) => Err(Or::Bad(catalog_fault(fault))),
        Err(Or::OutOfMemory) => Err(Or::OutOfMemory),
    }
}

// The publisher's catalog in the bytes of its file, within the limits.
fn catalog_of(alloc: Global, bytes: &[u8], publisher: &str) -> Result<Catalog, Or<RepoFault>>
    ensures read { Gives (λ catalog. catalog) result (limited (catalog_text.read_catalog publisher.now bytes.now)) }
    ensures offered { IfOk result (λ catalog. IsOffered catalog) }
    ensures faults { IfBad result (λ why. IsOpeningFault why × (why ≡ fault.SourceFault → ⊥)) }
{
    match Catalog::read(alloc, bytes, publisher) {
        Ok(catalog) => within_limits(catalog),
        Err(Or::Bad(fault)) => Err(Or::Bad(RepoFault::BadCatalog(fault))),
        Err(Or::OutOfMemory) => Err(Or::OutOfMemory),
    }
}

// The catalog, where it lists no more stems, and then no more versions, than the limits.
fn within_limits(catalog: Catalog) -> Result<Catalog, Or<RepoFault>>
    requires { IsInOrder catalog }
    ensures within { Gives (λ catalog. catalog) result (opened.within_limits catalog) }
    ensures offered { IfOk result (λ catalog. IsOffered catalog) }
    ensures faults { IfBad result (λ why. IsOpeningFault why × (why ≡ fault.SourceFault → ⊥)) }
{
    if catalog.stems() > STEMS {
        return Err(Or::Bad(RepoFault::TooLarge {
            which: Which::Stems,
            count: catalog.stems() as u64,
        }));
    }
    if catalog.count() > VERSIONS {
        return Err(Or::Bad(RepoFault::TooLarge {
            which: Which::Versions,
            count: catalog.count() as u64,
        }));
    }
    Ok(catalog)
}

// Why the catalog isn't read.
fn catalog_fault(fault: FileFault) -> RepoFault
    ensures { result ≡ fault_of_catalog fault }
{
    match fault {
        FileFault::Missing => RepoFault::BadCatalog(CatalogFault::NotJson),
        FileFault::TooLarge { count } => RepoFault::TooLarge {
            which: Which::CatalogBytes,
            count,
        },
        FileFault::SourceFault => RepoFault::SourceFault,
    }
}
