//! Copies of lists of records.

ghost use Rattle.std.specs.Prelude.{◌≡◌, IfOk, map};
ghost use Rattle.ips_state.specs.State.{installed};

use crate::state::Origin;
use ips_fmri::Fmri;
use ips_index::Index;
use ips_manifest::Package;
use ips_mediate::SetMediator;
use ips_text::Text;
use std::alloc::{AllocError, Global};

/// The same text, where there is one.
pub fn copy_text(alloc: Global, text: &Option<Text>) -> Result<Option<Text>, AllocError>
    ensures { IfOk result (λ copy. copy ≡ text.now) }
{
    match text {
        Some(text) => Ok(Some(text.copy(alloc)?)),
        None => Ok(None),
    }
}

/// The same texts.
pub fn copy_texts(alloc: Global, texts: &[Text]) -> Result<Vec<Text>, AllocError>
    ensures { IfOk result (λ copies. copies.items ≡ texts.now) }
{
    let mut copies = Vec::with_capacity(alloc, texts.len())?;
    for text in texts {
        copies.push(text.copy(alloc)?)?;
    }
    Ok(copies)
}

/// The same FMRIs.
pub fn copy_fmris(alloc: Global, fmris: &[Fmri]) -> Result<Vec<Fmri>, AllocError>
    ensures { IfOk result (λ copies. copies.items ≡ fmris.now) }
{
    let mut copies = Vec::with_capacity(alloc, fmris.len())?;
    for fmri in fmris {
        copies.push(fmri.copy(alloc)?)?;
    }
    Ok(copies)
}

/// The same settings of mediators.
pub fn copy_mediators(
    alloc: Global,
    mediators: &[SetMediator],
) -> Result<Vec<SetMediator>, AllocError>
    ensures { IfOk result (λ copies. copies.items ≡ mediators.now) }
{
    let mut copies = Vec::with_capacity(alloc, mediators.len())?;
    for mediator in mediators {
        copies.push(mediator.copy(alloc)?)?;
    }
    Ok(copies)
}

/// The same packages.
pub fn copy_packages(alloc: Global, packages: &[Package]) -> Result<Vec<Package>, AllocError>
    ensures { IfOk result (λ copies. map installed copies.items ≡ map installed packages.now) }
{
    let mut copies = Vec::with_capacity(alloc, packages.len())?;
    for package in packages {
        let copy = copy_package(alloc, package)?;
        copies.push(copy)?;
    }
    Ok(copies)
}

// The same package.
fn copy_package(alloc: Global, original: &Package) -> Result<Package, AllocError>
    ensures { IfOk result (λ copy. installed copy ≡ installed original.now) }
{
    original.copy(alloc)
}

/// The same origins.
pub fn copy_origins(alloc: Global, origins: &[Origin]) -> Result<Vec<Origin>, AllocError>
    ensures { IfOk result (λ copies. copies.items ≡ origins.now) }
{
    let mut copies = Vec::with_capacity(alloc, origins.len())?;
    for origin in origins {
        let name = origin.name.copy(alloc)?;
        copies.push(Origin {
            name,
            sticky: origin.sticky,
        })?;
    }
    Ok(copies)
}

/// The same index, where there is one.
pub fn copy_index(alloc: Global, index: &Option<Index>) -> Result<Option<Index>, AllocError>
    ensures { IfOk result (λ copy. copy ≡ index.now) }
{
    match index {
        Some(index) => Ok(Some(index.copy(alloc)?)),
        None => Ok(None),
    }
}
