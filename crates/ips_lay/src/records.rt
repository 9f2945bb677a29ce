//! The directories of the records.

ghost use Rattle.std.specs.Prelude.{◌≡◌, ◌≤◌, IsTrue, IsFalse, IsErr, OnOk};
ghost use Rattle.ips_outside.specs.Children.{path_bytes};
ghost use Rattle.ips_outside.specs.State.{IsSettled, nowhere};
ghost use Rattle.ips_outside.specs.Outside.{Elapses, HasCause};
ghost use Rattle.ips_folder.specs.Calls.{ChangesOnly};
ghost use Rattle.ips_ways.specs.Ways.{CanHave, HasBegun, any_missing, has_begun, is_missing, with_dirs};
ghost use Rattle.ips_lay.specs.Records.{HasFailed, has_made, record_dirs};

use ips_contents::path_of;
use ips_folder::Folder;
use ips_outside::{Failed, Source};
use ips_text::{Or, RelPath};
use ips_ways::{Unmade, make_directories};
use std::alloc::Global;

/// Makes `var` and `var/pkg` where nothing stands, and makes safe what was made: until then a crash may leave anything there. It answers
/// whether one was made.
///
/// # Errors
///
/// A call on the folder failed.
pub fn make_records<F: Folder>(alloc: Global, folder: &mut F) -> Result<bool, Or<Unmade>>
    requires can { IsTrue (F.outside.tells folder.old) → CanHave (F.outside.state folder.old).held record_dirs }
    requires safe { IsTrue (F.outside.tells folder.old) → IsSettled (F.outside.state folder.old) }
    ensures done { IsTrue (F.outside.tells folder.old) → OnOk result ((F.outside.state folder.new).held ≡ with_dirs record_dirs (F.outside.state folder.old).held) }
    ensures safe { IsTrue (F.outside.tells folder.old) → OnOk result (IsSettled (F.outside.state folder.new)) }
    ensures kept { IsFalse (has_made result) → F.outside.state folder.new ≡ F.outside.state folder.old }
    ensures still { IsFalse (has_made result) → Elapses F.outside folder.old folder.new }
    ensures missing { IsTrue (F.outside.tells folder.old) → IsTrue (has_made result) → IsTrue (any_missing (F.outside.state folder.old).held record_dirs) }
    ensures any_moment { IsTrue (F.outside.tells folder.old) → ChangesOnly F.outside (is_missing (F.outside.state folder.old).held record_dirs) nowhere folder.old folder.new }
    ensures begun { HasBegun (F.outside.changes folder.old) (F.outside.changes folder.new) (has_made result) }
    ensures cause { HasCause (F.outside.faults folder.old) (F.outside.faults folder.new) (HasFailed result) }
    ensures same_kind { F.outside.tells folder.new ≡ F.outside.tells folder.old }
    ensures changes { F.outside.changes folder.old ≤ F.outside.changes folder.new }
{
    let var = path_of(alloc, b"var")?;
    let records = path_of(alloc, b"var/pkg")?;
    match make_safe(folder, &[var, records]) {
        Ok(made) => Ok(made),
        Err(why) => Err(Or::Bad(why)),
    }
}

/// Makes directories as `make_directories` does, and makes safe what was made.
///
/// # Errors
///
/// A call on the folder failed.
pub fn make_safe<F: Folder>(folder: &mut F, paths: &[RelPath]) -> Result<bool, Unmade>
    requires can { IsTrue (F.outside.tells folder.old) → CanHave (F.outside.state folder.old).held (path_bytes paths.now) }
    requires safe { IsTrue (F.outside.tells folder.old) → IsSettled (F.outside.state folder.old) }
    ensures done { IsTrue (F.outside.tells folder.old) → OnOk result ((F.outside.state folder.new).held ≡ with_dirs (path_bytes paths.now) (F.outside.state folder.old).held) }
    ensures safe { IsTrue (F.outside.tells folder.old) → OnOk result (IsSettled (F.outside.state folder.new)) }
    ensures kept { IsFalse (has_begun result) → F.outside.state folder.new ≡ F.outside.state folder.old }
    ensures still { IsFalse (has_begun result) → Elapses F.outside folder.old folder.new }
    ensures missing { IsTrue (F.outside.tells folder.old) → IsTrue (has_begun result) → IsTrue (any_missing (F.outside.state folder.old).held (path_bytes paths.now)) }
    ensures any_moment { IsTrue (F.outside.tells folder.old) → ChangesOnly F.outside (is_missing (F.outside.state folder.old).held (path_bytes paths.now)) nowhere folder.old folder.new }
    ensures begun { HasBegun (F.outside.changes folder.old) (F.outside.changes folder.new) (has_begun result) }
    ensures cause { HasCause (F.outside.faults folder.old) (F.outside.faults folder.new) (IsErr result) }
    ensures same_kind { F.outside.tells folder.new ≡ F.outside.tells folder.old }
    ensures changes { F.outside.changes folder.old ≤ F.outside.changes folder.new }
{
    match make_directories(folder, paths) {
        Ok(true) => {}
        Ok(false) => return Ok(false),
        Err(why) => return Err(why),
    }
    match folder.sync() {
        Ok(()) => Ok(true),
        Err(Failed) => Err(Unmade { begun: true }),
    }
}
