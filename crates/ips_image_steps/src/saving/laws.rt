//! What is copied to be saved, the contract of a function that does nothing.

ghost use Rattle.std.specs.Prelude.{◌≡◌, ℕ, Bool, IsTrue, List, None};
ghost use Rattle.ips_text.specs.Ancestry.{is_below};
ghost use Rattle.ips_outside.specs.Image.{Image, IsImage};
ghost use Rattle.ips_steps.specs.Private.{records_name};
ghost use Rattle.ips_after.specs.After.{IsEmptied};
ghost use Rattle.ips_after.specs.Planned.{IsNameable};
ghost use Rattle.ips_after.specs.Request.{IsRequest, Request};
ghost use Rattle.ips_emit.specs.Emitted.{Provenance};
ghost use Rattle.ips_image_steps.specs.saving.Saving.{IsFileSeen, IsSavedFrom};

/// What is copied to be saved is a file that is seen, where no one wants anything in the folder of the records and a journal can name what the request is
/// about.
pub fn saved_files_are_seen()
    ensures { (r : Request) (t : Image) (emptied : List ℕ → Bool) (from : Provenance) → IsRequest r → IsImage t → IsNameable r t → IsEmptied r t emptied
        → ((q : List ℕ) → IsTrue (is_below records_name q) → r.old.at q ≡ None) → ((q : List ℕ) → IsTrue (is_below records_name q) → r.new.at q ≡ None)
        → IsSavedFrom r t from → IsFileSeen t from }
{}
