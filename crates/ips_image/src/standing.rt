//! What stands at a path.

ghost use Rattle.std.specs.Prelude.{◌≡◌, is_some, IsTrue, IsErr, IfOk};
ghost use Rattle.ips_outside.specs.Outside.{Reads};

use ips_outside::{Failed, Look, Source};
use ips_text::RelPath;

/// Whether anything stands at the path.
pub fn is_there<F: Source>(folder: &mut F, path: &RelPath) -> Result<bool, Failed>
    ensures found { IsTrue (F.outside.tells folder.old) → IfOk result (λ is. is ≡ is_some ((F.outside.state folder.old).held.look path.now.bytes)) }
    ensures reads { Reads F.outside folder.old folder.new (IsErr result) }
{
    match folder.look(path) {
        Ok(Look::Absent) => Ok(false),
        Ok(_) => Ok(true),
        Err(failed) => Err(failed),
    }
}
