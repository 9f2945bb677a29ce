//! Laws of records.

ghost use Rattle.ips_state.specs.State.{Recorded, IsOrdered};
ghost use Rattle.ips_state.specs.Lawful.{IsLawful};

/// The records of a lawful state are in order.
pub fn lawful_is_ordered()
    ensures { (r : Recorded) → IsLawful r → IsOrdered r }
{}
