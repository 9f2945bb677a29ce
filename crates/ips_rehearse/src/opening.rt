//! What a trial that was stopped may have left with a mode that hinders, opened, so that it can be taken away.

ghost use Rattle.std.specs.Prelude.{◌≡◌, ◌≤◌, IsTrue, IfOk, IsErr, OnOk};
ghost use Rattle.ips_text.specs.Ancestry.{covers, same_path};
ghost use Rattle.ips_outside.specs.Image.{is_dir};
ghost use Rattle.ips_outside.specs.Outside.{HasCause};
ghost use Rattle.ips_steps.specs.Steps.{stage_name};
ghost use Rattle.ips_rehearse.specs.Tried.{try_name, dir_name, inner_dir_name};
ghost use Rattle.ips_rehearse.specs.Opening.{LeavesOpen, OnlyOpens};

use crate::places::{path_at, tried_dir};
use ips_folder::Folder;
use ips_outside::{Failed, Look, Source};
use ips_text::RelPath;
use std::alloc::{AllocError, Global};

/// The directories that trials are made in, each in the one before: the stage, the directory of trials, the one that gets the mode that is
/// tried, and the one that is made in it.
#[derive(Drop)]
pub struct TrialDirs {
    stage: RelPath,
    trials: RelPath,
    tried: RelPath,
    inner: RelPath,
    ghost stage_is: { stage.bytes ≡ stage_name },
    ghost trials_is: { trials.bytes ≡ try_name },
    ghost tried_is: { tried.bytes ≡ dir_name },
    ghost inner_is: { inner.bytes ≡ inner_dir_name },
}

impl TrialDirs {
    /// These directories.
    pub fn new(alloc: Global) -> Result<TrialDirs, AllocError> {
        Ok(TrialDirs {
            stage: path_at(alloc, b"var/pkg/stage")?,
            trials: path_at(alloc, b"var/pkg/stage/try")?,
            tried: path_at(alloc, tried_dir())?,
            inner: path_at(alloc, b"var/pkg/stage/try/dir/dir")?,
        })
    }
}

/// Opens what a trial that was stopped may have left closed: each of these directories that stands gets 0700. The third may have any mode
/// that was tried; the others are closed only where a umask takes rights from the owner, until they get their mode.
///
/// # Errors
///
/// A call on the folder failed.
pub fn open_left<F: Folder>(folder: &mut F, dirs: &TrialDirs) -> Result<(), Failed>
    ensures open { IsTrue (F.outside.tells folder.old) → OnOk result (LeavesOpen dir_name (F.outside.state folder.old).held (F.outside.state folder.new).held) }
    ensures opens { OnlyOpens F.outside (covers stage_name) folder.old folder.new }
    ensures cause { HasCause (F.outside.faults folder.old) (F.outside.faults folder.new) (IsErr result) }
    ensures same_kind { F.outside.tells folder.new ≡ F.outside.tells folder.old }
    ensures changes { F.outside.changes folder.old ≤ F.outside.changes folder.new }
{
    let is_staged = open_dir(folder, &dirs.stage)?;
    if !is_staged {
        return Ok(());
    }
    let has_trials = open_dir(folder, &dirs.trials)?;
    if !has_trials {
        return Ok(());
    }
    let is_tried = open_dir(folder, &dirs.tried)?;
    if !is_tried {
        return Ok(());
    }
    open_dir(folder, &dirs.inner)?;
    Ok(())
}

// Opens the directory at the path, and tells whether one stands there.
fn open_dir<F: Folder>(folder: &mut F, path: &RelPath) -> Result<bool, Failed>
    ensures found { IsTrue (F.outside.tells folder.old) → IfOk result (λ stood. stood ≡ is_dir ((F.outside.state folder.old).held.look path.now.bytes)) }
    ensures open { IsTrue (F.outside.tells folder.old) → OnOk result (LeavesOpen path.now.bytes (F.outside.state folder.old).held (F.outside.state folder.new).held) }
    ensures opens { OnlyOpens F.outside (same_path path.now.bytes) folder.old folder.new }
    ensures cause { HasCause (F.outside.faults folder.old) (F.outside.faults folder.new) (IsErr result) }
    ensures same_kind { F.outside.tells folder.new ≡ F.outside.tells folder.old }
    ensures changes { F.outside.changes folder.old ≤ F.outside.changes folder.new }
{
    let found = folder.look(path)?;
    let Look::Dir { .. } = found else {
        return Ok(false);
    };
    folder.set_mode(path, 0o700)?;
    Ok(true)
}
