//! All records of a state, collected.

ghost use Rattle.std.specs.Prelude.{◌≡◌, ◌⊎◌, [], IfOk, OnOk, map};
ghost use Rattle.std.specs.List.{AllByRecursion};
ghost use Rattle.ips_state.specs.State.{recorded};
ghost use Rattle.ips_state.specs.Lawful.{IsLawful};
ghost use Rattle.ips_state.specs.Records.{AreRecords, entry_of};
ghost use Rattle.ips_entries.specs.Part.{entry_at, HasPart};

use crate::part::Place;
use crate::placing::places;
use crate::texts::text_of;
use ips_state::{Record, State};
use std::alloc::{AllocError, Global};

/// All records of a state, by the bytes of their paths. Who can take one at a time asks for their places, and then for each.
pub fn records(alloc: Global, state: &State) -> Result<Vec<Record>, AllocError>
    requires { IsLawful (recorded state.now) }
    ensures { IfOk result (λ records. AreRecords (recorded state.now) (map entry_of records.items)) }
{
    let places = places(alloc, state)?;
    let mut records = Vec::new(alloc);
    push_records(alloc, state, &places, &mut records)?;
    Ok(records)
}

// Adds the records at these places to a list that is empty.
fn push_records(
    alloc: Global,
    state: &State,
    places: &[Place],
    records: &mut Vec<Record>,
) -> Result<(), AllocError>
    requires format { (state.now.format ≡ 1) ⊎ (state.now.format ≡ 2) }
    requires parts { AllByRecursion (λ place. HasPart (recorded state.now) place.part) places.now }
    requires empty { records.old.items ≡ [] }
    ensures { OnOk result (map entry_of records.new.items ≡ map (entry_at (recorded state.now)) places.now) }
{
    for place in places {
        let one = record_at(alloc, state, place)?;
        records.push(one)?;
    }
    Ok(())
}

/// The record at a place.
pub fn record_at(alloc: Global, state: &State, place: &Place) -> Result<Record, AllocError>
    requires format { (state.now.format ≡ 1) ⊎ (state.now.format ≡ 2) }
    requires part { HasPart (recorded state.now) place.now.part }
    ensures { IfOk result (λ one. entry_of one ≡ entry_at (recorded state.now) place.now) }
{
    let bytes = text_of(alloc, state, place.part)?;
    let path = place.path.copy(alloc)?;
    Ok(Record { path, bytes })
}
