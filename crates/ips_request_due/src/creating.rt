//! What an image is made with.

ghost use Rattle.std.specs.Prelude.{◌≡◌, ◌∷◌, [], IfOk, map};
ghost use Rattle.ips_text.specs.Path.{IsPath};
ghost use Rattle.ips_state.specs.State.{recorded};
ghost use Rattle.ips_state.specs.Lawful.{IsLawful};
ghost use Rattle.ips_due.specs.Due.{HasProperDue, IsDue, MeansSame, Own};
ghost use Rattle.ips_due.specs.Delivered as due;
ghost use Rattle.ips_due.specs.Delivered.{drivers_path, first_folders, owners_path};
ghost use Rattle.ips_due.specs.outstanding.Parts.{due_record};

use crate::kept::KeptDue;
use crate::state_due::places_mean_the_records;
use ips_due::outstanding::{Content, DueRecord};
use ips_due::{creations_hang_together, creations_have_proper_due, due_is_told_by_paths};
use ips_entries::places;
use ips_load::path_of;
use ips_state::State;
use ips_text::RelPath;
use std::alloc::{AllocError, Global};

/// What is due where an image is made in this state, in which nothing is installed: its records, the folder of packages made anew, and the folders of
/// licenses and of what was salvaged where no directory stands; what stands at the path of an index goes. It hangs together, and has proper parts.
pub fn creation_due<'a>(alloc: Global, new: &'a State) -> Result<KeptDue<'a>, AllocError>
    requires { IsLawful (recorded new.now) }
    ensures due { IfOk result (λ made. MeansSame made (due.creation_due (recorded new.now))) }
    ensures together { IfOk result IsDue }
    ensures proper { IfOk result HasProperDue }
{
    due_is_told_by_paths();
    creations_hang_together();
    creations_have_proper_due();
    of_state(alloc, new)
}

// The same, as it is told path by path.
fn of_state<'a>(alloc: Global, new: &'a State) -> Result<KeptDue<'a>, AllocError>
    requires { IsLawful (recorded new.now) }
    ensures { IfOk result (λ made. MeansSame made (due.creation_due (recorded new.now))) }
{
    places_mean_the_records();
    let places = places(alloc, new)?;
    let others = empty_records(alloc)?;
    let renewed = one_path(alloc, b"var/pkg/packages")?;
    let folders = folders(alloc)?;
    let gone = one_path(alloc, b"var/pkg/index")?;
    Ok(KeptDue {
        accounts: &[],
        state: new,
        places,
        others,
        renewed,
        folders,
        gone,
    })
}

// The records of owners and drivers where nothing is delivered.
fn empty_records(alloc: Global) -> Result<Vec<DueRecord>, AllocError>
    ensures { IfOk result (λ records. map due_record records.items ≡ (owners_path, Own []) ∷ (drivers_path, Own []) ∷ []) }
{
    let owners = empty_record(alloc, b"var/pkg/owners")?;
    let drivers = empty_record(alloc, b"var/pkg/drivers")?;
    let mut records = Vec::new(alloc);
    records.push(owners)?;
    records.push(drivers)?;
    Ok(records)
}

// A record that is empty.
fn empty_record(alloc: Global, path: &[u8]) -> Result<DueRecord, AllocError>
    requires { IsPath path.now }
    ensures { IfOk result (λ r. due_record r ≡ (path.now, Own [])) }
{
    Ok(DueRecord {
        path: path_of(alloc, path)?,
        content: Content::Own(Vec::new(alloc)),
    })
}

// The folders that are made where no directory stands.
fn folders(alloc: Global) -> Result<Vec<RelPath>, AllocError>
    ensures { IfOk result (λ paths. map (λ p. p.bytes) paths.items ≡ first_folders) }
{
    let mut paths = one_path(alloc, b"var/pkg/license")?;
    paths.push(path_of(alloc, b"var/pkg/lost+found")?)?;
    Ok(paths)
}

// The list of one path.
fn one_path(alloc: Global, path: &[u8]) -> Result<Vec<RelPath>, AllocError>
    requires { IsPath path.now }
    ensures { IfOk result (λ paths. map (λ p. p.bytes) paths.items ≡ path.now ∷ []) }
{
    let mut paths = Vec::new(alloc);
    paths.push(path_of(alloc, path)?)?;
    Ok(paths)
}
