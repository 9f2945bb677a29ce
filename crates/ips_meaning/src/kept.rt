//! The kept actions.

ghost use Rattle.std.specs.Prelude.{IfOk};
ghost use Rattle.ips_meaning.specs.Taken.{Leaves, Stays};

use crate::mediated::{is_of_best, links, set_places};
use ips_conflict::Placed;
use ips_mediate::SetMediator;
use std::alloc::{AllocError, Global};
use std::collections::BTreeMap;

/// The actions that are left of the admitted ones without the links of other mediations than the best.
pub fn kept<'a>(
    alloc: Global,
    admitted: &[Placed<'a>],
    mediators: &[SetMediator],
) -> Result<Vec<Placed<'a>>, AllocError>
    ensures { IfOk result (λ kept. Leaves (Stays mediators.now admitted.now) admitted.now kept.items) }
{
    let links = links(alloc, admitted)?;
    let places = set_places(alloc, mediators)?;
    let mut choices = BTreeMap::new(alloc);
    let mut kept = Vec::new(alloc);
    for item in admitted {
        if is_of_best(
            alloc,
            &links,
            mediators,
            &places,
            &mut choices,
            item.action(),
        )? {
            kept.push(item.copy())?;
        }
    }
    Ok(kept)
}
