//! Copies of dependencies.

ghost use Rattle.std.specs.Prelude.{◌≡◌, IfOk};
ghost use Rattle.ips_depend.specs.Kept.{conditional_of, dependency_of};

use crate::dependency::Kept;
use ips_fmri::Fmri;
use std::alloc::{AllocError, Global};

/// The same dependency.
pub fn copy_kept(alloc: Global, kept: &Kept) -> Result<Kept, AllocError>
    ensures { IfOk result (λ copy. dependency_of copy ≡ dependency_of kept.now) }
{
    match kept {
        Kept::Require(fmri) => Ok(Kept::Require(fmri.copy(alloc)?)),
        Kept::Optional(fmri) => Ok(Kept::Optional(fmri.copy(alloc)?)),
        Kept::Incorporate(fmri) => Ok(Kept::Incorporate(fmri.copy(alloc)?)),
        Kept::Exclude(fmri) => Ok(Kept::Exclude(fmri.copy(alloc)?)),
        Kept::Conditional(both) => copy_conditional(alloc, both),
        Kept::RequireAny(fmris) => Ok(Kept::RequireAny(copy_fmris(alloc, fmris)?)),
        Kept::Group(fmri) => Ok(Kept::Group(fmri.copy(alloc)?)),
        Kept::GroupAny(fmris) => Ok(Kept::GroupAny(copy_fmris(alloc, fmris)?)),
        Kept::Parent(fmris) => Ok(Kept::Parent(copy_fmris(alloc, fmris)?)),
        Kept::Origin { rooted, fmri } => Ok(Kept::Origin {
            rooted: *rooted,
            fmri: fmri.copy(alloc)?,
        }),
    }
}

// The same conditional dependency.
fn copy_conditional(alloc: Global, both: &[Fmri; 2]) -> Result<Kept, AllocError>
    ensures { IfOk result (λ copy. dependency_of copy ≡ conditional_of both.now) }
{
    let [predicate, fmri] = both;
    Ok(Kept::Conditional([predicate.copy(alloc)?, fmri.copy(alloc)?]))
}

// The same FMRIs.
fn copy_fmris(alloc: Global, fmris: &[Fmri]) -> Result<Vec<Fmri>, AllocError>
    ensures { IfOk result (λ copies. copies.items ≡ fmris.now) }
{
    let mut copies = Vec::with_capacity(alloc, fmris.len())?;
    for fmri in fmris {
        copies.push(fmri.copy(alloc)?)?;
    }
    Ok(copies)
}
