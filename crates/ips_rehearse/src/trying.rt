//! Single trials. Each makes something at a path and takes it away again.

ghost use Rattle.std.specs.Prelude.{◌≡◌, ◌<◌, ◌≤◌, ◌||◌, IsTrue, IsErr, OnOk, List, ℕ, [], Some, None};
ghost use Rattle.ips_text.specs.Ancestry.{covers, is_below};
ghost use Rattle.ips_outside.specs.Image.{File, is_dir, is_file};
ghost use Rattle.ips_outside.specs.Change.{joined, with_entry_at};
ghost use Rattle.ips_outside.specs.State.{nowhere};
ghost use Rattle.ips_outside.specs.Outside.{risen};
ghost use Rattle.ips_folder.specs.Calls.{CanMake, ChangesOnly};
ghost use Rattle.ips_rehearse.specs.Tried.{try_name, dir_name, inner_dir_name, inner_file_name, IsDirOf, IsGone, IsEmptyDir, IsFailure, Calls, Passed, Stood, WasWorked};

use crate::places::{go, tried_dir};
use ips_folder::{Folder, ListFault};
use ips_outside::{Failed, Source};
use ips_text::{Or, RelPath};
use std::alloc::Global;

/// Tries a further name of a file.
pub(crate) fn try_hard<F: Folder>(
    folder: &mut F,
    path: &RelPath,
    to: &RelPath,
) -> Result<(), Failed>
    requires can { IsTrue (F.outside.tells folder.old) → CanMake (F.outside.state folder.old).held path.now.bytes }
    requires file { IsTrue (F.outside.tells folder.old) → IsTrue (is_file ((F.outside.state folder.old).held.look to.now.bytes)) }
    ensures gone { IsTrue (F.outside.tells folder.old) → OnOk result (IsGone path.now.bytes (F.outside.state folder.new).held) }
    ensures any_moment { IsTrue (F.outside.tells folder.old) → ChangesOnly F.outside (covers path.now.bytes) (covers path.now.bytes) folder.old folder.new }
    ensures tried { OnOk result (risen (risen (F.outside.changes folder.old)) ≤ F.outside.changes folder.new) }
    ensures seen { IsTrue (F.outside.tells folder.old) → OnOk result (Stood F.outside folder.old folder.new (λ t. t ≡ joined path.now.bytes to.now.bytes (F.outside.state folder.old).held)) }
    ensures calls { Calls F.outside folder.old folder.new (IsErr result) }
{
    folder.make_hard(path, to)?;
    folder.remove(path)
}

/// Tries a file of this mode.
pub(crate) fn try_file<F: Folder>(folder: &mut F, path: &RelPath, mode: u16) -> Result<(), Failed>
    requires can { IsTrue (F.outside.tells folder.old) → CanMake (F.outside.state folder.old).held path.now.bytes }
    requires mode { mode < 4096 }
    ensures gone { IsTrue (F.outside.tells folder.old) → OnOk result (IsGone path.now.bytes (F.outside.state folder.new).held) }
    ensures any_moment { IsTrue (F.outside.tells folder.old) → ChangesOnly F.outside (covers path.now.bytes) (covers path.now.bytes) folder.old folder.new }
    ensures tried { OnOk result (risen (risen (F.outside.changes folder.old)) ≤ F.outside.changes folder.new) }
    ensures seen { IsTrue (F.outside.tells folder.old) → OnOk result (Stood F.outside folder.old folder.new (λ t. t.look path.now.bytes ≡ Some (File mode []))) }
    ensures calls { Calls F.outside folder.old folder.new (IsErr result) }
{
    folder.make_file(path)?;
    folder.set_mode(path, mode)?;
    folder.remove(path)
}

/// Tries a directory of this mode, if one is asked for, and where it is worked in also to make, to list and to take away a directory and a
/// file in it. Whatever fails there, its mode is set to 0700 before it is taken away, so that it can be.
pub(crate) fn try_dir<F: Folder>(
    alloc: Global,
    folder: &mut F,
    path: &mut RelPath,
    inner: &mut RelPath,
    mode: u16,
    is_asked: bool,
    is_worked: bool,
) -> Result<(), Or<Failed>>
    requires path { 1023 ≤ path.old.room }
    requires inner { 1023 ≤ inner.old.room }
    requires mode { mode < 4096 }
    requires empty { IsTrue (F.outside.tells folder.old) → IsEmptyDir try_name (F.outside.state folder.old).held }
    ensures path { 1023 ≤ path.new.room }
    ensures inner { 1023 ≤ inner.new.room }
    ensures empty { IsTrue (F.outside.tells folder.old) → OnOk result (IsEmptyDir try_name (F.outside.state folder.new).held) }
    ensures any_moment { IsTrue (F.outside.tells folder.old) → ChangesOnly F.outside (is_below try_name) (is_below try_name) folder.old folder.new }
    ensures tried { OnOk result (IsTrue (is_asked || is_worked) → risen (risen (F.outside.changes folder.old)) ≤ F.outside.changes folder.new) }
    ensures seen { IsTrue (F.outside.tells folder.old) → OnOk result (Passed F.outside folder.old folder.new
        × (IsTrue (is_asked || is_worked) → Stood F.outside folder.old folder.new (IsDirOf mode)) × (IsTrue is_worked → WasWorked F.outside mode folder.old folder.new)) }
    ensures calls { Calls F.outside folder.old folder.new (IsFailure result) }
{
    if !is_asked && !is_worked {
        return Ok(());
    }
    go(path, tried_dir());
    let Ok(()) = folder.make_dir(path, mode) else {
        return Err(Or::Bad(Failed));
    };
    let answer = work(alloc, folder, path, inner, is_worked);
    let Ok(()) = folder.set_mode(path, 0o700) else {
        return Err(Or::Bad(Failed));
    };
    let Ok(()) = folder.remove(path) else {
        return Err(Or::Bad(Failed));
    };
    answer
}

// Where the directory is worked in, makes, lists and takes away a directory and a file in it.
fn work<F: Folder>(
    alloc: Global,
    folder: &mut F,
    dir: &RelPath,
    inner: &mut RelPath,
    is_worked: bool,
) -> Result<(), Or<Failed>>
    requires place { dir.now.bytes ≡ dir_name }
    requires room { 1023 ≤ inner.old.room }
    requires empty { IsTrue (F.outside.tells folder.old) → IsEmptyDir dir_name (F.outside.state folder.old).held }
    ensures room { 1023 ≤ inner.new.room }
    ensures any_moment { IsTrue (F.outside.tells folder.old) → ChangesOnly F.outside (is_below dir_name) nowhere folder.old folder.new }
    ensures tried { OnOk result (IsTrue is_worked → risen (risen (F.outside.changes folder.old)) ≤ F.outside.changes folder.new) }
    ensures seen { IsTrue (F.outside.tells folder.old) → (m : ℕ) → IsDirOf m (F.outside.state folder.old).held
        → OnOk result (Passed F.outside folder.old folder.new × (IsTrue is_worked → WasWorked F.outside m folder.old folder.new)) }
    ensures calls { Calls F.outside folder.old folder.new (IsFailure result) }
{
    if !is_worked {
        return Ok(());
    }
    go(inner, b"var/pkg/stage/try/dir/dir");
    let Ok(()) = folder.make_dir(inner, 0o700) else {
        return Err(Or::Bad(Failed));
    };
    go(inner, b"var/pkg/stage/try/dir/file");
    let Ok(()) = folder.make_file(inner) else {
        return Err(Or::Bad(Failed));
    };
    clear(alloc, folder, dir, inner)
}

// Lists the directory, and takes away what was made in it.
fn clear<F: Folder>(
    alloc: Global,
    folder: &mut F,
    dir: &RelPath,
    inner: &mut RelPath,
) -> Result<(), Or<Failed>>
    requires place { dir.now.bytes ≡ dir_name }
    requires room { 1023 ≤ inner.old.room }
    requires stands { IsTrue (F.outside.tells folder.old) → IsTrue (is_dir ((F.outside.state folder.old).held.look dir_name)) }
    ensures room { 1023 ≤ inner.new.room }
    ensures any_moment { IsTrue (F.outside.tells folder.old) → ChangesOnly F.outside (is_below dir_name) nowhere folder.old folder.new }
    ensures tried { OnOk result (risen (risen (F.outside.changes folder.old)) ≤ F.outside.changes folder.new) }
    ensures seen { IsTrue (F.outside.tells folder.old) → OnOk result (Passed F.outside folder.old folder.new
        × ((F.outside.state folder.new).held ≡ with_entry_at inner_dir_name None (with_entry_at inner_file_name None (F.outside.state folder.old).held))) }
    ensures calls { Calls F.outside folder.old folder.new (IsFailure result) }
{
    match folder.list(alloc, dir) {
        Ok(_) => {}
        Err(ListFault::Failed) => return Err(Or::Bad(Failed)),
        Err(ListFault::OutOfMemory) => return Err(Or::OutOfMemory),
    }
    go(inner, b"var/pkg/stage/try/dir/file");
    let Ok(()) = folder.remove(inner) else {
        return Err(Or::Bad(Failed));
    };
    go(inner, b"var/pkg/stage/try/dir/dir");
    let Ok(()) = folder.remove(inner) else {
        return Err(Or::Bad(Failed));
    };
    Ok(())
}
