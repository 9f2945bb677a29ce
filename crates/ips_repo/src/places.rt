//! Where the files of a repository stand.

ghost use Rattle.std.specs.Prelude.{ℕ, ◌≤◌, List, false, ◌∷◌, ◌++◌, IfOk, length, take, codes};
ghost use Rattle.ips_text.specs.Path.{IsPath};
ghost use Rattle.ips_fmri.specs.Name.{IsPublisher, IsStem};
ghost use Rattle.ips_fmri.specs.Version.{Parts, IsVersion};
ghost use Rattle.ips_digest.specs.Name.{IsName};
ghost use Rattle.ips_digest.specs.declared.name.PayloadName.{PayloadName};
ghost use Rattle.ips_repo.specs.Places as place;
ghost use Rattle.ips_repo.specs.Places.{publisher_place, IsPlace};

use ips_digest::PayloadName;
use ips_fmri::Version;
use ips_text::{Or, RelPath, quote};
use std::alloc::{AllocError, Global};

/// The path of these bytes, where they are one. Nothing stands elsewhere.
fn path_of(alloc: Global, bytes: &[u8]) -> Result<Option<RelPath>, AllocError>
    ensures { IfOk result (IsPlace bytes.now) }
{
    match RelPath::parse(alloc, bytes) {
        Ok(path) => Ok(Some(path)),
        Err(Or::Bad(_)) => Ok(None),
        Err(Or::OutOfMemory) => Err(AllocError),
    }
}

/// Where the mark of a repository stands.
pub(crate) fn mark_place(alloc: Global) -> Result<Option<RelPath>, AllocError>
    ensures { IfOk result (IsPlace place.mark_place) }
{
    path_of(alloc, b"pkg5.repository")
}

/// Where the catalog of a publisher stands, where that is a path.
pub fn catalog_place(alloc: Global, publisher: &str) -> Result<Option<RelPath>, AllocError>
    ensures { IfOk result (IsPlace (place.catalog_place publisher.now)) }
{
    let mut bytes = Vec::new(alloc);
    bytes.extend_from_slice(b"publisher/")?;
    bytes.extend_from_slice(publisher.as_bytes())?;
    bytes.extend_from_slice(b"/catalog/catalog.base.C")?;
    path_of(alloc, bytes.as_slice())
}

/// Where the manifest of a version of a stem stands, where that is a path.
pub fn manifest_place(
    alloc: Global,
    publisher: &str,
    stem: &str,
    version: &Version,
) -> Result<Option<RelPath>, AllocError>
    ensures { IfOk result (IsPlace (place.manifest_place publisher.now stem.now version.now)) }
{
    let stem = quote(alloc, stem.as_bytes())?;
    let version = version.print(alloc)?;
    let version = quote(alloc, version.as_str().as_bytes())?;
    place_of_quoted(alloc, publisher, stem.as_str(), version.as_str())
}

// Where the manifest of these quoted forms of a stem and a version stands, where that is a path.
fn place_of_quoted(
    alloc: Global,
    publisher: &str,
    stem: &str,
    version: &str,
) -> Result<Option<RelPath>, AllocError>
    ensures { IfOk result (IsPlace (publisher_place publisher.now ++ codes "/pkg/" ++ stem.now ++ 47 ∷ version.now)) }
{
    let mut bytes = Vec::new(alloc);
    bytes.extend_from_slice(b"publisher/")?;
    bytes.extend_from_slice(publisher.as_bytes())?;
    bytes.extend_from_slice(b"/pkg/")?;
    bytes.extend_from_slice(stem.as_bytes())?;
    bytes.push(b'/')?;
    bytes.extend_from_slice(version.as_bytes())?;
    path_of(alloc, bytes.as_slice())
}

/// Where the payload of this name stands, where that is a path.
pub fn payload_place(
    alloc: Global,
    publisher: &str,
    name: &PayloadName,
) -> Result<Option<RelPath>, AllocError>
    ensures { IfOk result (IsPlace (place.payload_place publisher.now name.now)) }
{
    let mut digits = [0u8; 64];
    let count = name.print(&mut digits);
    place_of_digits(alloc, publisher, &digits[..count])
}

// Where the payload of these digits stands, where that is a path.
fn place_of_digits(
    alloc: Global,
    publisher: &str,
    digits: &[u8],
) -> Result<Option<RelPath>, AllocError>
    requires some { 2 ≤ length digits.now }
    requires few { length digits.now ≤ 64 }
    ensures { IfOk result (IsPlace (publisher_place publisher.now ++ codes "/file/" ++ take 2 digits.now ++ 47 ∷ digits.now)) }
{
    let mut bytes = Vec::new(alloc);
    bytes.extend_from_slice(b"publisher/")?;
    bytes.extend_from_slice(publisher.as_bytes())?;
    bytes.extend_from_slice(b"/file/")?;
    bytes.extend_from_slice(&digits[..2])?;
    bytes.push(b'/')?;
    bytes.extend_from_slice(digits)?;
    path_of(alloc, bytes.as_slice())
}

/// The law of places: where the publisher, the stem, the version and the payload's name are such, their places are paths.
pub fn places_are_paths()
    ensures catalogs { (publisher : List ℕ) → IsPublisher publisher → IsPath (place.catalog_place publisher) }
    ensures manifests { (publisher stem : List ℕ) (version : Parts) → IsPublisher publisher → IsStem false stem → IsVersion version → IsPath (place.manifest_place publisher stem version) }
    ensures payloads { (publisher : List ℕ) (name : PayloadName) → IsPublisher publisher → IsName name → IsPath (place.payload_place publisher name) }
{}
