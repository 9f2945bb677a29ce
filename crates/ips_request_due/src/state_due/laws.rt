//! Laws of the records of a state by its places, each the contract of a function that does nothing.

ghost use Rattle.std.specs.Prelude.{◌≡◌, ◌==◌, ◌++◌, ◌∷◌, [], ℕ, List, map};
ghost use Rattle.ips_state.specs.State.{Recorded};
ghost use Rattle.ips_state.specs.Records.{AreRecords, index_path, packages_path, records_of, taken_away};
ghost use Rattle.ips_entries.specs.Part.{entry_at};
ghost use Rattle.ips_entries.specs.declared.part.Place.{Place};
ghost use Rattle.ips_after.specs.Lists.{listed};
ghost use Rattle.ips_due.specs.Due.{DueFile, MeansSame, own_records, record_at};
ghost use Rattle.ips_due.specs.State.{renewed_by};
ghost use Rattle.ips_due.specs.Delivered.{Delivered, creation_due, delivered_gone, delivered_records, first_folders, request_due};
ghost use Rattle.ips_due.specs.declared.outstanding.due.DueRecord.{DueRecord};
ghost use Rattle.ips_due.specs.outstanding.Parts.{due_record};
ghost use Rattle.ips_request_due.specs.state_due.Parts.{placed_records};

/// The records of a state by its places, with others behind them, are at each path those that are due of the state. So with the records of what
/// packages deliver behind them, in any order, they are due as a request makes them due, or as an image is made with them.
pub fn places_mean_the_records()
    ensures records { (r : Recorded) (places : List Place) (others : List DueRecord) → AreRecords r (map (entry_at r) places)
        → (q : List ℕ) → record_at (placed_records r places others) q ≡ record_at (own_records (records_of r) ++ map due_record others) q }
    ensures request { (accounts : List DueFile) (old new : Recorded) (was is : Delivered) (places : List Place) (others : List DueRecord) (gone : List (List ℕ)) → AreRecords new (map (entry_at new) places)
        → ((q : List ℕ) → record_at (map due_record others) q ≡ record_at (delivered_records is) q) → ((q : List ℕ) → listed gone q ≡ listed (taken_away old new ++ delivered_gone was is) q)
        → MeansSame (record { accounts = accounts; records = placed_records new places others; renewed = renewed_by (old.format == 1) (new.format == 1); folders = []; gone = gone }) (request_due accounts old new was is) }
    ensures creation { (new : Recorded) (places : List Place) (others : List DueRecord) → AreRecords new (map (entry_at new) places)
        → ((q : List ℕ) → record_at (map due_record others) q ≡ record_at (delivered_records (record { owners = []; drivers = []; licenses = []; legacy = [] })) q)
        → MeansSame (record { accounts = []; records = placed_records new places others; renewed = packages_path ∷ []; folders = first_folders; gone = index_path ∷ [] }) (creation_due new) }
{}
