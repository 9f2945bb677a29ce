//! The laws of loading, each the contract of a function that does nothing.

ghost use Rattle.std.specs.Prelude.{◌≡◌, List, Option, IfSome};
ghost use Rattle.ips_outside.specs.Image.{Image};
ghost use Rattle.ips_index.specs.Rows.{IndexedValue};
ghost use Rattle.ips_index.specs.Text.{AreIndexRows};
ghost use Rattle.ips_state.specs.Records.{image_path};
ghost use Rattle.ips_state.specs.State.{Recorded};
ghost use Rattle.ips_load.specs.Fault.{IsHeadFile, StandsAs};
ghost use Rattle.ips_load.specs.Held.{Holds, HoldsIndex};
ghost use Rattle.ips_load.specs.declared.fault.StateFault.{StateFault};
ghost use Rattle.ips_load.specs.declared.fault.StateFault.TheVariants.{FolderFault};
ghost use Rattle.ips_image.specs.Fault.{IsSearchFault};
ghost use Rattle.ips_image.specs.Whole.{IsStateFault};
ghost use Rattle.ips_laws.specs.recorded.Same.{IsOfRecord, IsSameFault};

/// Where an image holds a state no record is at fault, so that loading can only fail as a call does. So it is for a search, where the file `image` is
/// good and the index is, or there is none.
pub fn held_has_no_fault()
    ensures state { (t : Image) (r : Recorded) (fault : StateFault) → Holds t r → IsStateFault t fault → fault ≡ FolderFault }
    ensures search { (t : Image) (index : Option (List IndexedValue)) (fault : StateFault) → StandsAs IsHeadFile t image_path → IfSome index AreIndexRows → HoldsIndex t index → IsSearchFault t fault → fault ≡ FolderFault }
{}

/// An image has one first fault: that of the first record, in the order in which they are loaded, and of its first bad line.
pub fn first_fault_is_one()
    ensures state { (t : Image) (f g : StateFault) → IsStateFault t f → IsStateFault t g → IsOfRecord f → IsOfRecord g → IsSameFault f g }
    ensures search { (t : Image) (f g : StateFault) → IsSearchFault t f → IsSearchFault t g → IsOfRecord f → IsOfRecord g → IsSameFault f g }
{}
