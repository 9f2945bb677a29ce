//! When nothing is saved, the contract of a function that does nothing.

ghost use Rattle.std.specs.Prelude.{IsTrue};
ghost use Rattle.ips_outside.specs.Image.{Image, IsImage, is_dir};
ghost use Rattle.ips_steps.specs.Private.{records_name};
ghost use Rattle.ips_after.specs.Request.{Request};
ghost use Rattle.ips_image_steps.specs.Asked.{SavesNothing, WantsTheSame};

/// A request that wants what was wanted, as the making of an image does, destroys nothing where the folder of the records stands: so it saves nothing.
pub fn unchanged_wants_save_nothing()
    ensures { (r : Request) (t : Image) → IsImage t → IsTrue (is_dir (t.look records_name)) → WantsTheSame r → SavesNothing r t }
{}
