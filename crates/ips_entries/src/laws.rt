//! Laws of the records of a whole state.

ghost use Rattle.std.specs.Prelude.{◌≡◌, ◌==◌, List};
ghost use Rattle.ips_outside.specs.Image.{Image};
ghost use Rattle.ips_state.specs.State.{Recorded};
ghost use Rattle.ips_state.specs.Lawful.{IsLawful};
ghost use Rattle.ips_state.specs.Records.{AreRecords};
ghost use Rattle.ips_load.specs.Held.{Holds};
ghost use Rattle.ips_entries.specs.Standing.{JustStand, Written, recounted};

use ips_manifest::manifests_read_back;

/// The records of a lawful state, in either format, read back: an image at which just they stand holds that state. Lines of
/// manifests have the numbers of the texts that were written.
pub fn records_read_back()
    ensures { (t : Image) (r : Recorded) (entries : List Written) → IsLawful r → AreRecords r entries → JustStand (r.format == 1) t entries → Holds t (recounted r) }
{
    manifests_read_back();
}

/// An image holds one state at most, so that what is loaded of it is the one that it holds.
pub fn one_state_is_held()
    ensures { (t : Image) (r s : Recorded) → Holds t r → Holds t s → r ≡ s }
{}

/// A state has one list of records, and two lawful states that have the same are equal but for the numbers of their manifests'
/// lines.
pub fn records_are_one()
    ensures texts { (r : Recorded) (a b : List Written) → AreRecords r a → AreRecords r b → a ≡ b }
    ensures states { (r s : Recorded) (entries : List Written) → IsLawful r → IsLawful s → AreRecords r entries → AreRecords s entries → recounted r ≡ recounted s }
{
    manifests_read_back();
}
