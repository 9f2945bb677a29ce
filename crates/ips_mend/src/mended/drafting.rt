//! The steps of wanted paths in an order.

ghost use Rattle.std.specs.Prelude.{◌≡◌, ◌++◌, ◌<◌, OnOk, List, length, map};
ghost use Rattle.std.specs.List.{AllByRecursion};
ghost use Rattle.ips_outside.specs.Image.{Image};
ghost use Rattle.ips_after.specs.Repaired.{IsRepair, Repair, relinked_as};
ghost use Rattle.ips_change.specs.wanted.Wanted.{want_of};
ghost use Rattle.ips_change.specs.Told.{change_told};
ghost use Rattle.ips_emptied.specs.order.Chosen.{path_in};
ghost use Rattle.ips_emit.specs.Emitted.{HasTarget, IsEmitted, Provenance, Turn};
ghost use Rattle.ips_mend.specs.mended.Drafting.{sources_in, turns_mended};

use ips_change::Change;
use ips_emit::Emitted;
use ips_meaning::Want;
use std::alloc::{AllocError, Global};

/// Adds the steps of the wanted paths at these places, in that order, by what a repair makes of each.
pub fn draft_mended(
    alloc: Global,
    emitted: &mut Emitted,
    want: &Want,
    changes: &[Change<'_>],
    order: &[usize],
) -> Result<(), AllocError>
    requires changes { length changes.now ≡ length want.now }
    requires targets { AllByRecursion HasTarget changes.now }
    requires places { AllByRecursion (λ i. i < length want.now) order.now }
    ensures { OnOk result ((f : Repair) (t : Image) (turns : List Turn) (provenances : List Provenance) → IsRepair f → f.want ≡ want_of want.now
        → map (change_told f.bytes) changes.now ≡ map (λ p. relinked_as f t p (f.want.at p)) f.want.keys
        → IsEmitted f.bytes t turns provenances emitted.old
        → IsEmitted f.bytes t (turns ++ turns_mended f t (map (path_in (want_of want.now).keys) order.now)) (provenances ++ sources_in changes.now order.now) emitted.new) }
{
    for i in 0..order.len() {
        let place = order[i];
        let Some((path, _)) = want.at(place) else {
            unreachable!();
        };
        emitted.push(alloc, path, changes[place])?;
    }
    Ok(())
}
