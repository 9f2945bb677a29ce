//! Making directories.

ghost use Rattle.std.specs.Prelude.{◌≡◌, ◌≤◌, ◌&&◌, IsTrue, IsFalse, IfOk, IsErr, OnOk, Some, false};
ghost use Rattle.ips_text.specs.Ancestry.{covers};
ghost use Rattle.ips_outside.specs.Children.{path_bytes};
ghost use Rattle.ips_outside.specs.Image.{Dir, has_parent};
ghost use Rattle.ips_outside.specs.Change.{with_entry_at};
ghost use Rattle.ips_outside.specs.State.{nowhere};
ghost use Rattle.ips_outside.specs.Outside.{Elapses, HasCause, Reads, Rose};
ghost use Rattle.ips_folder.specs.Calls.{ChangesOnly};
ghost use Rattle.ips_ways.specs.Ways as way;
ghost use Rattle.ips_ways.specs.Ways.{CanHave, HasBegun, any_missing, has_begun, is_dir_or_free, is_missing, with_dir, with_dirs};

use crate::room::gives_way;
use ips_folder::Folder;
use ips_outside::{Failed, Source};
use ips_text::RelPath;

/// A call on the folder failed, before all directories were made.
#[derive(Clone, Copy, Debug, PartialEq, Eq, Drop)]
pub struct Unmade {
    /// Whether a call was made that may change something: some of the directories may be made.
    pub begun: bool,
}

/// Makes a directory of mode 0755 at each path, one after the other, in place of what gives way to it, and answers whether one was made. At
/// each stands a directory or what gives way to one, and its parent is a directory, perhaps one that is made before it.
///
/// # Errors
///
/// A call on the folder failed.
pub fn make_directories<F: Folder>(folder: &mut F, paths: &[RelPath]) -> Result<bool, Unmade>
    requires { IsTrue (F.outside.tells folder.old) → CanHave (F.outside.state folder.old).held (path_bytes paths.now) }
    ensures done { IsTrue (F.outside.tells folder.old) → OnOk result ((F.outside.state folder.new).held ≡ with_dirs (path_bytes paths.now) (F.outside.state folder.old).held) }
    ensures kept { IsFalse (has_begun result) → F.outside.state folder.new ≡ F.outside.state folder.old }
    ensures still { IsFalse (has_begun result) → Elapses F.outside folder.old folder.new }
    ensures missing { IsTrue (F.outside.tells folder.old) → IsTrue (has_begun result) → IsTrue (any_missing (F.outside.state folder.old).held (path_bytes paths.now)) }
    ensures any_moment { IsTrue (F.outside.tells folder.old) → ChangesOnly F.outside (is_missing (F.outside.state folder.old).held (path_bytes paths.now)) nowhere folder.old folder.new }
    ensures begun { HasBegun (F.outside.changes folder.old) (F.outside.changes folder.new) (has_begun result) }
    ensures cause { HasCause (F.outside.faults folder.old) (F.outside.faults folder.new) (IsErr result) }
    ensures same_kind { F.outside.tells folder.new ≡ F.outside.tells folder.old }
    ensures changes { F.outside.changes folder.old ≤ F.outside.changes folder.new }
{
    let mut made = false;
    for path in paths {
        match make_missing(folder, path) {
            Ok(more) => made = made || more,
            Err(why) => {
                return Err(Unmade {
                    begun: made || why.begun,
                });
            }
        }
    }
    Ok(made)
}

// Makes a directory at the path, in place of what gives way to it.
fn make_missing<F: Folder>(folder: &mut F, path: &RelPath) -> Result<bool, Unmade>
    requires { IsTrue (F.outside.tells folder.old) → IsTrue (is_dir_or_free path.now.bytes ((F.outside.state folder.old).held.look path.now.bytes) && has_parent (F.outside.state folder.old).held path.now.bytes) }
    ensures done { IsTrue (F.outside.tells folder.old) → OnOk result ((F.outside.state folder.new).held ≡ with_dir path.now.bytes (F.outside.state folder.old).held) }
    ensures kept { IsFalse (has_begun result) → F.outside.state folder.new ≡ F.outside.state folder.old }
    ensures still { IsFalse (has_begun result) → Elapses F.outside folder.old folder.new }
    ensures missing { IsTrue (F.outside.tells folder.old) → IsTrue (has_begun result) → IsTrue (way.gives_way path.now.bytes ((F.outside.state folder.old).held.look path.now.bytes)) }
    ensures any_moment { IsTrue (F.outside.tells folder.old)
        → ChangesOnly F.outside (λ q. way.gives_way path.now.bytes ((F.outside.state folder.old).held.look path.now.bytes) && covers path.now.bytes q) nowhere folder.old folder.new }
    ensures begun { HasBegun (F.outside.changes folder.old) (F.outside.changes folder.new) (has_begun result) }
    ensures cause { HasCause (F.outside.faults folder.old) (F.outside.faults folder.new) (IsErr result) }
    ensures same_kind { F.outside.tells folder.new ≡ F.outside.tells folder.old }
    ensures changes { F.outside.changes folder.old ≤ F.outside.changes folder.new }
{
    match is_free(folder, path) {
        Ok(true) => {}
        Ok(false) => return Ok(false),
        Err(Failed) => return Err(Unmade { begun: false }),
    }
    match make_anew(folder, path) {
        Ok(()) => Ok(true),
        Err(Failed) => Err(Unmade { begun: true }),
    }
}

// Whether what stands at the path gives way to a directory.
fn is_free<F: Folder>(folder: &mut F, path: &RelPath) -> Result<bool, Failed>
    ensures found { IsTrue (F.outside.tells folder.old) → IfOk result (λ free. free ≡ way.gives_way path.now.bytes ((F.outside.state folder.old).held.look path.now.bytes)) }
    ensures reads { Reads F.outside folder.old folder.new (IsErr result) }
{
    let found = folder.look(path)?;
    Ok(gives_way(path, found))
}

// Makes a directory in place of what stands at the path.
fn make_anew<F: Folder>(folder: &mut F, path: &RelPath) -> Result<(), Failed>
    requires { IsTrue (F.outside.tells folder.old) → IsTrue (has_parent (F.outside.state folder.old).held path.now.bytes) }
    ensures done { IsTrue (F.outside.tells folder.old) → OnOk result ((F.outside.state folder.new).held ≡ with_entry_at path.now.bytes (Some (Dir 493 false)) (F.outside.state folder.old).held) }
    ensures any_moment { IsTrue (F.outside.tells folder.old) → ChangesOnly F.outside (covers path.now.bytes) nowhere folder.old folder.new }
    ensures made { Rose (F.outside.changes folder.old) (F.outside.changes folder.new) }
    ensures cause { HasCause (F.outside.faults folder.old) (F.outside.faults folder.new) (IsErr result) }
    ensures same_kind { F.outside.tells folder.new ≡ F.outside.tells folder.old }
    ensures changes { F.outside.changes folder.old ≤ F.outside.changes folder.new }
{
    match folder.remove(path) {
        Ok(()) => {}
        Err(Failed) => return Err(Failed),
    }
    match folder.make_dir(path, 0o755) {
        Ok(()) => Ok(()),
        Err(Failed) => Err(Failed),
    }
}
