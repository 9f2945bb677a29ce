//! What is due, kept.

ghost use Rattle.std.specs.Prelude.{◌≡◌};
ghost use Rattle.ips_due.specs.outstanding.Parts.{due_of};

use crate::state_due::StateRecords;
use ips_due::outstanding::{AccountFile, DueParts, DueRecord};
use ips_entries::Place;
use ips_state::State;
use ips_text::RelPath;
use std::marker::Model;

/// What is due: account files and a state that are lent, and the rest of it. Contracts see what is due.
#[derive(Drop)]
pub struct KeptDue<'a> {
    pub(crate) accounts: &'a [AccountFile],
    pub(crate) state: &'a State,
    pub(crate) places: Vec<Place>,
    pub(crate) others: Vec<DueRecord>,
    pub(crate) renewed: Vec<RelPath>,
    pub(crate) folders: Vec<RelPath>,
    pub(crate) gone: Vec<RelPath>,
}

impl<'a> Model for KeptDue<'a> {
    ghost use Rattle.std.specs.Prelude.{map};
    ghost use Rattle.ips_due.specs.Due.{Due};
    ghost use Rattle.ips_due.specs.outstanding.Parts.{due_file};
    ghost use Rattle.ips_state.specs.State.{recorded};
    ghost use Rattle.ips_request_due.specs.state_due.Parts.{HasPlaces, placed_records};

    ghost Value = { Due };

    ghost view = { λ k. record {
      accounts = map due_file k.accounts.now;
      records = placed_records (recorded k.state.now) k.places.items k.others.items;
      renewed = map (λ p. p.bytes) k.renewed.items;
      folders = map (λ p. p.bytes) k.folders.items;
      gone = map (λ p. p.bytes) k.gone.items;
    } };

    ghost invariant = { λ k. HasPlaces (recorded k.state.now) k.places.items };
}

impl<'a> KeptDue<'a> {
    /// The records that are due.
    pub fn records(&self) -> StateRecords<'_>
        ensures { result ≡ self.now.records }
    {
        StateRecords::new(self.state, &self.places, &self.others)
    }

    /// What is due, part by part, with these records of it.
    pub fn parts<'b>(&'b self, records: &'b StateRecords<'b>) -> DueParts<'b, StateRecords<'b>>
        requires { records.now ≡ self.now.records }
        ensures { due_of (λ r. r) result ≡ self.now }
    {
        DueParts {
            accounts: self.accounts,
            records,
            renewed: &self.renewed,
            folders: &self.folders,
            gone: &self.gone,
        }
    }
}
