//! A look at a path.

ghost use Rattle.std.specs.Prelude.{◌≡◌, IsTrue, IfOk};
ghost use Rattle.ips_outside.specs.Outside.{Reads, look_of};
ghost use Rattle.ips_change.specs.content.Failing.{HasFailed};

use ips_outside::{Failed, Look, Source};
use ips_text::{Or, RelPath};

/// What stands at the path.
pub fn look_at<S: Source>(source: &mut S, path: &RelPath) -> Result<Look, Or<Failed>>
    ensures found { IsTrue (S.outside.tells source.old) → IfOk result (λ found. found ≡ look_of ((S.outside.state source.old).held.look path.now.bytes)) }
    ensures reads { Reads S.outside source.old source.new (HasFailed result) }
{
    match source.look(path) {
        Ok(found) => Ok(found),
        Err(Failed) => Err(Or::Bad(Failed)),
    }
}
