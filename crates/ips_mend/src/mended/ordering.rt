//! The order in which a repair has the steps of wanted paths.

ghost use Rattle.std.specs.Prelude.{◌≡◌, ◌++◌, ◌<◌, Some, IfOk, OnOk, length, map};
ghost use Rattle.std.specs.List.{AllByRecursion};
ghost use Rattle.ips_change.specs.wanted.Wanted.{want_of, wanted_of};
ghost use Rattle.ips_emptied.specs.order.Chosen.{chosen, path_in};
ghost use Rattle.ips_mend.specs.mended.Ordering.{is_of, is_of_at, wanted_order};

use ips_meaning::{Entry, Want};
use std::alloc::{AllocError, Global};

/// The groups of wanted paths, in the order of their steps.
#[derive(Clone, Copy)]
pub(crate) enum Group {
    /// Directories.
    Dirs,
    /// Files and symbolic links.
    Others,
    /// Hard links.
    Hards,
}

/// The wanted paths in the order in which a repair has their steps, by their places: directories, files and symbolic links, hard links.
pub fn mended_order(alloc: Global, want: &Want) -> Result<Vec<usize>, AllocError>
    ensures within { IfOk result (λ order. AllByRecursion (λ i. i < length want.now) order.items) }
    ensures ordered { IfOk result (λ order. map (path_in (want_of want.now).keys) order.items ≡ wanted_order (want_of want.now)) }
{
    let mut order = Vec::with_capacity(alloc, want.len())?;
    add(want, Group::Dirs, &mut order)?;
    add(want, Group::Others, &mut order)?;
    add(want, Group::Hards, &mut order)?;
    Ok(order)
}

// Adds the places of the paths of a group.
fn add(want: &Want, group: Group, order: &mut Vec<usize>) -> Result<(), AllocError>
    ensures { OnOk result (order.new.items ≡ order.old.items ++ chosen 0 (map (is_of_at group (want_of want.now)) (want_of want.now).keys)) }
{
    for i in 0..want.len() {
        let Some((_, entry)) = want.at(i) else {
            unreachable!();
        };
        if is_in(group, entry) {
            order.push(i)?;
        }
    }
    Ok(())
}

// Whether a path at which this is wanted is in the group.
fn is_in(group: Group, entry: &Entry) -> bool
    ensures { result ≡ is_of group (Some (wanted_of entry.now)) }
{
    match group {
        Group::Dirs => matches!(entry, Entry::Dir { .. }),
        Group::Others => matches!(entry, Entry::File { .. } | Entry::Link { .. }),
        Group::Hards => matches!(entry, Entry::Hard { .. }),
    }
}
