//! The records of a state, and others behind them.

ghost use Rattle.std.specs.Prelude.{◌≡◌, ◌⊎◌, ◌<◌, Some, IfOk, length, map, slice_get};
ghost use Rattle.ips_state.specs.State.{recorded};
ghost use Rattle.ips_entries.specs.Part.{HasPart, record_text};
ghost use Rattle.ips_due.specs.Due.{Own};
ghost use Rattle.ips_due.specs.outstanding.Parts.{content_told};
ghost use Rattle.ips_request_due.specs.state_due.Parts.{HasPlaces, placed_records};

use ips_due::outstanding::{Content, DueRecord, Records};
use ips_entries::{Place, text_of};
use ips_state::State;
use ips_text::RelPath;
use std::alloc::{AllocError, Global};
use std::marker::Model;

/// The records of a state at its places, and others behind them, such as those of what packages deliver. Contracts see their paths and contents.
#[derive(Drop)]
pub struct StateRecords<'a> {
    state: &'a State,
    places: &'a [Place],
    others: &'a [DueRecord],
}

impl<'a> Model for StateRecords<'a> {
    ghost use Rattle.std.specs.Prelude.{ℕ, List};
    ghost use Rattle.ips_due.specs.Due.{Content};
    ghost use Rattle.ips_state.specs.State.{recorded};
    ghost use Rattle.ips_request_due.specs.state_due.Parts.{HasPlaces, placed_records};

    ghost Value = { List (List ℕ × Content) };

    ghost view = { λ s. placed_records (recorded s.state.now) s.places.now s.others.now };

    ghost invariant = { λ s. HasPlaces (recorded s.state.now) s.places.now };
}

impl<'a> StateRecords<'a> {
    /// The records at these places of the state, and the others.
    pub fn new(state: &'a State, places: &'a [Place], others: &'a [DueRecord]) -> StateRecords<'a>
        requires { HasPlaces (recorded state.now) places.now }
        ensures { result ≡ placed_records (recorded state.now) places.now others.now }
    {
        StateRecords {
            state,
            places,
            others,
        }
    }
}

impl<'a> Records for StateRecords<'a> {
    ghost records = { λ s. s };

    fn count(&self) -> usize {
        self.places.len() + self.others.len()
    }

    fn path(&self, number: usize) -> &RelPath {
        match self.places.get(number) {
            Some(place) => &place.path,
            None => &self.others[number - self.places.len()].path,
        }
    }

    fn content(&self, alloc: Global, number: usize) -> Result<Content, AllocError> {
        match self.places.get(number) {
            Some(place) => text_at(alloc, self.state, place),
            None => self.others[number - self.places.len()].content.copy(alloc),
        }
    }
}

// What the record at a place of the state holds.
fn text_at(alloc: Global, state: &State, place: &Place) -> Result<Content, AllocError>
    requires format { (state.now.format ≡ 1) ⊎ (state.now.format ≡ 2) }
    requires part { HasPart (recorded state.now) place.now.part }
    ensures { IfOk result (λ content. content_told content ≡ Own (record_text (recorded state.now) place.now.part)) }
{
    let bytes = text_of(alloc, state, place.part)?;
    Ok(Content::Own(bytes))
}
