//! Where the records of a state stand.

ghost use Rattle.std.specs.Prelude.{◌≡◌, ◌++◌, ◌∷◌, ◌==◌, [], false, IsTrue, IfOk, OnOk, Some, map};
ghost use Rattle.std.specs.List.{AllByRecursion};
ghost use Rattle.std.specs.List.Sorted.{IsPermutation, IsSortedBy};
ghost use Rattle.ips_text.specs.Path.{IsPath};
ghost use Rattle.ips_fmri.specs.Name.{IsStem};
ghost use Rattle.ips_state.specs.State.{installed, recorded};
ghost use Rattle.ips_state.specs.Form.{IsPackage};
ghost use Rattle.ips_state.specs.Lawful.{IsLawful};
ghost use Rattle.ips_state.specs.Records.{AreRecords, package_place};
ghost use Rattle.ips_state.specs.Records as records;
ghost use Rattle.ips_entries.specs.Part.{common_parts, entry_at, HasPart, index_parts, numbered, owned, owned_package, parts_of};

use crate::part::{Part, Place};
use ips_index::Index;
use ips_load::{manifest_path, path_of};
use ips_manifest::Package;
use ips_state::State;
use ips_text::{RelPath, quote};
use std::alloc::{AllocError, Global};

/// The places of all records of a state, by the bytes of their paths.
pub fn places(alloc: Global, state: &State) -> Result<Vec<Place>, AllocError>
    requires { IsLawful (recorded state.now) }
    ensures records { IfOk result (λ places. AreRecords (recorded state.now) (map (entry_at (recorded state.now)) places.items)) }
    ensures parts { IfOk result (λ places. AllByRecursion (λ place. HasPart (recorded state.now) place.part) places.items) }
    ensures own { IfOk result (λ places. IsPermutation (parts_of (recorded state.now)) (map owned places.items)) }
{
    let mut places = Vec::new(alloc);
    push_places(alloc, state, &mut places)?;
    places.sort_by(|a, b| a.path.cmp(&b.path))?;
    Ok(places)
}

// Adds the places of all records to a list that is empty.
fn push_places(alloc: Global, state: &State, places: &mut Vec<Place>) -> Result<(), AllocError>
    requires packages { AllByRecursion IsPackage (map installed state.now.installed.items) }
    requires empty { places.old.items ≡ [] }
    ensures { OnOk result (map owned places.new.items ≡ parts_of (recorded state.now)) }
{
    push_common(alloc, places)?;
    push_index(alloc, &state.index, places)?;
    if state.format == 1 {
        push_place(alloc, b"var/pkg/installed", Part::Installed, places)?;
    }
    push_packages(alloc, state.format == 1, &state.installed, places)
}

// Adds the places that each state has to a list that is empty.
fn push_common(alloc: Global, places: &mut Vec<Place>) -> Result<(), AllocError>
    requires empty { places.old.items ≡ [] }
    ensures { OnOk result (map owned places.new.items ≡ common_parts) }
{
    push_place(alloc, b"var/pkg/image", Part::Image, places)?;
    push_place(alloc, b"var/pkg/avoid", Part::Avoid, places)?;
    push_place(alloc, b"var/pkg/freeze", Part::Freeze, places)?;
    push_place(alloc, b"var/pkg/mediators", Part::Mediators, places)?;
    push_place(alloc, b"var/pkg/history", Part::History, places)?;
    Ok(())
}

// Adds the place of the index, where there is one.
fn push_index(
    alloc: Global,
    index: &Option<Index>,
    places: &mut Vec<Place>,
) -> Result<(), AllocError>
    ensures { OnOk result (map owned places.new.items ≡ map owned places.old.items ++ index_parts index.now) }
{
    match index {
        Some(_) => push_place(alloc, b"var/pkg/index", Part::Index, places),
        None => Ok(()),
    }
}

// Adds a place.
fn push_place(
    alloc: Global,
    path: &[u8],
    part: Part,
    places: &mut Vec<Place>,
) -> Result<(), AllocError>
    requires { IsPath path.now }
    ensures { OnOk result (map owned places.new.items ≡ map owned places.old.items ++ (path.now, part) ∷ []) }
{
    let path = path_of(alloc, path)?;
    places.push(Place { path, part })?;
    Ok(())
}

// Adds the place of each package, in the format that the flag tells.
fn push_packages(
    alloc: Global,
    first: bool,
    packages: &[Package],
    places: &mut Vec<Place>,
) -> Result<(), AllocError>
    requires packages { AllByRecursion IsPackage (map installed packages.now) }
    ensures { OnOk result (map owned places.new.items ≡ map owned places.old.items ++ numbered first 0 (map installed packages.now)) }
{
    for number in 0..packages.len() {
        push_package(alloc, first, number, &packages[number], places)?;
    }
    Ok(())
}

// Adds the place of a package of this number.
fn push_package(
    alloc: Global,
    first: bool,
    number: usize,
    held: &Package,
    places: &mut Vec<Place>,
) -> Result<(), AllocError>
    requires { IsStem false held.now.stem }
    ensures { OnOk result (map owned places.new.items ≡ map owned places.old.items ++ owned_package first number (installed held.now) ∷ []) }
{
    let path = place_of(alloc, first, held.stem.as_str())?;
    places.push(Place {
        path,
        part: Part::Package(number),
    })?;
    Ok(())
}

// Where the record of a stem stands, in the format that the flag tells.
fn place_of(alloc: Global, first: bool, stem: &str) -> Result<RelPath, AllocError>
    requires { IsStem false stem.now }
    ensures { IfOk result (λ path. path.bytes ≡ package_place first stem.now) }
{
    if first {
        manifest_path(alloc, stem)
    } else {
        package_path(alloc, stem)
    }
}

// Where the record of a stem stands, in format 2.
fn package_path(alloc: Global, stem: &str) -> Result<RelPath, AllocError>
    requires { IsStem false stem.now }
    ensures { IfOk result (λ path. path.bytes ≡ records.package_path stem.now) }
{
    let quoted = quote(alloc, stem.as_bytes())?;
    let mut bytes = Vec::from_slice(alloc, b"var/pkg/packages/")?;
    bytes.extend_from_slice(quoted.as_str().as_bytes())?;
    path_of(alloc, &bytes)
}
