//! Refutations without the nogoods that their last one doesn't rest on.

ghost use Rattle.std.specs.Prelude.{IfOk, IfSome, IsTrue};
ghost use Rattle.ips_refute.specs.Meaning.{Meaning};
ghost use Rattle.ips_refute.specs.Refuting.{AreNogoods, EndsEmpty, IsTidyRefutation};
ghost use Rattle.ips_search.specs.Renumbering.{AreRenamed, AreTidy, IsRenamed, Renames};

use ips_refute::{Nogood, Reason};
use std::alloc::{AllocError, Global};

/// The nogoods on which the last one rests, and it, in their order.
pub fn prune(alloc: Global, nogoods: Vec<Nogood>) -> Result<Vec<Nogood>, AllocError>
    ensures { IfOk result (λ pruned. (m : Meaning) → IsTidyRefutation m nogoods.items → IsTidyRefutation m pruned.items) }
{
    let flags = needed(alloc, &nogoods)?;
    let Some(kept) = renumber(alloc, &nogoods, &flags)? else {
        return Ok(nogoods);
    };
    if ends_empty(&kept) {
        return Ok(kept);
    }
    Ok(nogoods)
}

// Which nogoods the last one rests on.
fn needed(alloc: Global, nogoods: &[Nogood]) -> Result<Vec<bool>, AllocError> {
    let mut left = nogoods.len();
    let mut flags = vec![in alloc; false; left]?;
    flag(&mut flags, left.saturating_sub(1));
    while left > 0 {
        left -= 1;
        if let Some(nogood) = nogoods.get(left)
            && is_flagged(&flags, left)
        {
            flag_reasons(&mut flags, &nogood.reasons);
        }
    }
    Ok(flags)
}

fn flag_reasons(flags: &mut Vec<bool>, reasons: &[Reason]) {
    for reason in reasons {
        if let Reason::Earlier(number) = reason {
            flag(flags, *number as usize);
        }
    }
}

fn flag(flags: &mut Vec<bool>, place: usize) {
    if place < flags.len() {
        flags[place] = true;
    }
}

fn is_flagged(flags: &[bool], place: usize) -> bool {
    place < flags.len() && flags[place]
}

// The flagged nogoods, their reasons renumbered; none where one of them rests on a nogood that isn't kept.
fn renumber(
    alloc: Global,
    nogoods: &[Nogood],
    flags: &[bool],
) -> Result<Option<Vec<Nogood>>, AllocError>
    ensures { IfOk result (λ kept. IfSome kept (λ ns. (m : Meaning) → AreNogoods m nogoods.now → AreTidy nogoods.now → AreNogoods m ns.items × AreTidy ns.items)) }
{
    let mut kept = Vec::new(alloc);
    let mut places = Vec::with_capacity(alloc, nogoods.len())?;
    for nogood in nogoods {
        if !is_flagged(flags, places.len()) {
            places.push(0)?;
            continue;
        }
        let Some(renamed) = renamed(alloc, nogood, &places)? else {
            return Ok(None);
        };
        kept.push(renamed)?;
        let count = kept.len();
        if count > u32::MAX as usize {
            return Ok(None);
        }
        places.push(count as u32)?;
    }
    Ok(Some(kept))
}

// The nogood with its reasons renumbered: `places` has one more than the new number of each earlier one that is kept, else 0.
fn renamed(alloc: Global, nogood: &Nogood, places: &[u32]) -> Result<Option<Nogood>, AllocError>
    ensures { IfOk result (λ renamed. IfSome renamed (λ g. IsRenamed places.now nogood.now g)) }
{
    let Some(reasons) = renamed_reasons(alloc, &nogood.reasons, places)? else {
        return Ok(None);
    };
    let set = Vec::from_slice(alloc, &nogood.set)?;
    let stem = nogood.stem;
    Ok(Some(Nogood { set, stem, reasons }))
}

fn renamed_reasons(
    alloc: Global,
    reasons: &[Reason],
    places: &[u32],
) -> Result<Option<Vec<Reason>>, AllocError>
    ensures { IfOk result (λ renamed. IfSome renamed (λ rs. AreRenamed places.now reasons.now rs.items)) }
{
    let mut renamed = Vec::with_capacity(alloc, reasons.len())?;
    for reason in reasons {
        let Some(other) = rename(places, *reason) else {
            return Ok(None);
        };
        renamed.push(other)?;
    }
    Ok(Some(renamed))
}

fn rename(places: &[u32], reason: Reason) -> Option<Reason>
    ensures { IfSome result (λ other. Renames places.now reason other) }
{
    match reason {
        Reason::Test(test) => Some(Reason::Test(test)),
        Reason::Earlier(number) => {
            let place = number as usize;
            if place < places.len() && places[place] > 0 {
                Some(Reason::Earlier(places[place] - 1))
            } else {
                None
            }
        }
    }
}

fn ends_empty(nogoods: &[Nogood]) -> bool
    ensures { IsTrue result → EndsEmpty nogoods.now }
{
    let count = nogoods.len();
    count > 0 && nogoods[count - 1].set.is_empty()
}
