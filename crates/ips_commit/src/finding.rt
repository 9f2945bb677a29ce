//! What is pending in an image.

ghost use Rattle.std.specs.Prelude.{◌≡◌, ◌||◌, IsTrue, IsErr, IfOk, is_some};
ghost use Rattle.ips_outside.specs.Outside.{Reads};
ghost use Rattle.ips_commit.specs.Answers.{IsBad};
ghost use Rattle.ips_commit.specs.Pending.{IsPending};

use crate::found::Pending;
use crate::names::OwnNames;
use crate::sweeping::marks;
use ips_folder::Folder;
use ips_outside::{Failed, Look, Source};
use ips_text::{Or, RelPath};
use std::alloc::Global;

/// What is pending in the image that the folder holds.
pub fn pending<F: Folder>(alloc: Global, folder: &mut F) -> Result<Pending, Or<Failed>>
    ensures found { IsTrue (F.outside.tells folder.old) → IfOk result (IsPending (F.outside.state folder.old).held) }
    ensures reads { Reads F.outside folder.old folder.new (IsBad result) }
{
    let Ok(names) = OwnNames::new(alloc) else {
        return Err(Or::OutOfMemory);
    };
    look_for(alloc, folder, &names)
}

// The same with the updater's own names lent.
fn look_for<F: Folder>(
    alloc: Global,
    folder: &mut F,
    names: &OwnNames,
) -> Result<Pending, Or<Failed>>
    ensures found { IsTrue (F.outside.tells folder.old) → IfOk result (IsPending (F.outside.state folder.old).held) }
    ensures reads { Reads F.outside folder.old folder.new (IsBad result) }
{
    let Ok(is_open) = stands(folder, &names.gate) else {
        return Err(Or::Bad(Failed));
    };
    if is_open {
        return Ok(Pending::Open);
    }
    let Ok(is_left) = stands_behind(folder, names) else {
        return Err(Or::Bad(Failed));
    };
    if is_left {
        return Ok(Pending::Leftover);
    }
    let marks = marks(alloc, folder, names)?;
    if marks.is_empty() {
        return Ok(Pending::Nothing);
    }
    Ok(Pending::Leftover)
}

/// Whether something stands at the path.
pub(crate) fn stands<F: Folder>(folder: &mut F, path: &RelPath) -> Result<bool, Failed>
    ensures found { IsTrue (F.outside.tells folder.old) → IfOk result (λ stands. stands ≡ is_some ((F.outside.state folder.old).held.look path.now.bytes)) }
    ensures reads { Reads F.outside folder.old folder.new (IsErr result) }
{
    match folder.look(path)? {
        Look::Absent => Ok(false),
        Look::Dir { .. } | Look::File { .. } | Look::Link | Look::Other => Ok(true),
    }
}

// Whether something stands at the stage or the journal.
fn stands_behind<F: Folder>(folder: &mut F, names: &OwnNames) -> Result<bool, Failed>
    ensures found { IsTrue (F.outside.tells folder.old) → IfOk result (λ stands. stands
        ≡ is_some ((F.outside.state folder.old).held.look names.now.stage.bytes) || is_some ((F.outside.state folder.old).held.look names.now.journal.bytes)) }
    ensures reads { Reads F.outside folder.old folder.new (IsErr result) }
{
    if stands(folder, &names.stage)? {
        return Ok(true);
    }
    let found = stands(folder, &names.journal)?;
    Ok(found)
}
