//! What packages mean.

ghost use Rattle.std.specs.Prelude.{◌≡◌, IfOk, MatchOption};
ghost use Rattle.ips_text.specs.Reading.{IfBad};
ghost use Rattle.ips_conflict.specs.Clash.{Conflict, IsConflict, IsFirst, told};
ghost use Rattle.ips_meaning.specs.Want.{PackagesMean, PackagesFail};
ghost use Rattle.ips_meaning.specs.Together.{AreProper, HangTogether};
ghost use Rattle.ips_meaning.specs.Faults.{fault_told};

use crate::admitted::admitted;
use crate::fault::WantFault;
use crate::kept::kept;
use crate::reserved::least_reserved;
use crate::wanted::Want;
use ips_conflict::{Clash, Placed, clash};
use ips_filter::Settings;
use ips_manifest::Package;
use ips_mediate::SetMediator;
use ips_text::{Or, RelPath};
use std::alloc::{AllocError, Global};

/// What an image with these settings and mediators should hold where these packages are installed. What holds a wanted path is
/// wanted as a directory, and a hard link leads to a wanted file that is never missing.
///
/// Reserved names the least path that an admitted action gives at or below `var/pkg`, or below `var/sadm/pkg`. Only where there
/// is none is a clash told: the first among the actions that are kept.
pub fn want(
    alloc: Global,
    packages: &[Package],
    settings: &Settings,
    mediators: &[SetMediator],
) -> Result<Want, Or<WantFault>>
    ensures want { IfOk result (λ want. PackagesMean settings.now mediators.now packages.now want) }
    ensures proper { IfOk result (λ want. AreProper want) }
    ensures together { IfOk result (λ want. HangTogether want) }
    ensures fault { IfBad result (λ fault. PackagesFail settings.now mediators.now packages.now fault) }
{
    let admitted = admitted(alloc, packages, settings)?;
    let kept = kept(alloc, &admitted, mediators)?;
    let reserved = least_reserved(alloc, &admitted)?;
    let clashing = first_clash(alloc, &kept)?;
    if let Some(fault) = fault_of(reserved, clashing) {
        return Err(Or::Bad(fault));
    }
    Ok(Want::of(alloc, &kept)?)
}

// The fault that is told: a reserved path comes before a clash.
fn fault_of(reserved: Option<RelPath>, clashing: Option<Clash>) -> Option<WantFault>
    ensures { result ≡ fault_told reserved clashing }
{
    match (reserved, clashing) {
        (Some(path), _) => Some(WantFault::Reserved { path }),
        (None, Some(clash)) => Some(WantFault::Clash(clash)),
        (None, None) => None,
    }
}

// The first clash among the kept actions.
fn first_clash(alloc: Global, kept: &[Placed<'_>]) -> Result<Option<Clash>, AllocError>
    ensures { IfOk result (λ found. MatchOption found ((c : Conflict) → IsConflict kept.now c → ⊥) (λ clash. (c : Conflict) × IsFirst kept.now c × (clash ≡ told kept.now c))) }
{
    clash(alloc, kept)
}
