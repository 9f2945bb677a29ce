//! Whether a repository can be made.

ghost use Rattle.std.specs.Prelude.{◌≡◌, IsTrue, IsFalse, IfOk, OnOk};
ghost use Rattle.ips_text.specs.Reading.{IfBad};
ghost use Rattle.ips_outside.specs.Children.{path_bytes};
ghost use Rattle.ips_outside.specs.Outside.{Reads};
ghost use Rattle.ips_repo.specs.Mark.{is_repository};
ghost use Rattle.ips_ways.specs.Ways.{IsFree};
ghost use Rattle.ips_lay.specs.Records.{HasFailed};
ghost use Rattle.ips_create.specs.Created.{IsFolderFault, is_begun};
ghost use Rattle.ips_create.specs.Judging.{SaysOfChecking};

use crate::fault::CreateFault;
use ips_outside::{Failed, Source};
use ips_repo::{RepoFault, check_mark};
use ips_text::{Or, RelPath};
use ips_ways::first_in_the_way;
use std::alloc::Global;

/// Whether no repository is in the folder, and nothing in the way of the directories.
pub(crate) fn check<S: Source>(
    alloc: Global,
    source: &mut S,
    dirs: &[RelPath],
) -> Result<(), Or<CreateFault>>
    ensures unmarked { IsTrue (S.outside.tells source.old) → OnOk result (IsFalse (is_repository (S.outside.state source.old).held)) }
    ensures free { IsTrue (S.outside.tells source.old) → OnOk result (IsFree (S.outside.state source.old).held (path_bytes dirs.now)) }
    ensures says { IsTrue (S.outside.tells source.old) → IfBad result (SaysOfChecking (S.outside.state source.old).held (path_bytes dirs.now)) }
    ensures unbegun { IfBad result (λ why. IsFalse (is_begun why)) }
    ensures reads { Reads S.outside source.old source.new (IsFolderFault result) }
{
    match is_marked(alloc, source) {
        Ok(false) => check_ways(alloc, source, dirs),
        Ok(true) => Err(Or::Bad(CreateFault::Exists)),
        Err(Or::Bad(Failed)) => Err(Or::Bad(CreateFault::FolderFault { unfinished: false })),
        Err(Or::OutOfMemory) => Err(Or::OutOfMemory),
    }
}

// Whether the folder is a repository.
fn is_marked<S: Source>(alloc: Global, source: &mut S) -> Result<bool, Or<Failed>>
    ensures found { IsTrue (S.outside.tells source.old) → IfOk result (λ marked. marked ≡ is_repository (S.outside.state source.old).held) }
    ensures reads { Reads S.outside source.old source.new (HasFailed result) }
{
    match check_mark(alloc, source) {
        Ok(()) => Ok(true),
        Err(Or::Bad(RepoFault::SourceFault)) => Err(Or::Bad(Failed)),
        Err(Or::Bad(_)) => Ok(false),
        Err(Or::OutOfMemory) => Err(Or::OutOfMemory),
    }
}

// Whether nothing is in the way of the directories.
fn check_ways<S: Source>(
    alloc: Global,
    source: &mut S,
    dirs: &[RelPath],
) -> Result<(), Or<CreateFault>>
    ensures free { IsTrue (S.outside.tells source.old) → OnOk result (IsFree (S.outside.state source.old).held (path_bytes dirs.now)) }
    ensures says { IsTrue (S.outside.tells source.old) → IsFalse (is_repository (S.outside.state source.old).held)
        → IfBad result (SaysOfChecking (S.outside.state source.old).held (path_bytes dirs.now)) }
    ensures unbegun { IfBad result (λ why. IsFalse (is_begun why)) }
    ensures reads { Reads S.outside source.old source.new (IsFolderFault result) }
{
    match first_in_the_way(source, dirs) {
        Ok(None) => Ok(()),
        Ok(Some(at)) => {
            let path = dirs[at].copy(alloc)?;
            Err(Or::Bad(CreateFault::Blocked { path }))
        }
        Err(Failed) => Err(Or::Bad(CreateFault::FolderFault { unfinished: false })),
    }
}
