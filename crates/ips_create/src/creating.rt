//! Making a repository.

ghost use Rattle.std.specs.Prelude.{◌≡◌, ◌⊎◌, ◌≤◌, true, None, Err, IsTrue, IsFalse, OnOk};
ghost use Rattle.ips_text.specs.Reading.{IfBad};
ghost use Rattle.ips_text.specs.declared.refusal.Or.TheVariants.{Bad};
ghost use Rattle.ips_outside.specs.State.{IsSettled};
ghost use Rattle.ips_outside.specs.Outside.{HasCause};
ghost use Rattle.ips_steps.specs.Private.{gate_name};
ghost use Rattle.ips_fmri.specs.Name.{IsPublisher};
ghost use Rattle.ips_repo.specs.Mark.{is_repository};
ghost use Rattle.ips_ways.specs.Ways.{HasBegun};
ghost use Rattle.ips_lay.specs.Records.{MakesInPart};
ghost use Rattle.ips_create.specs.Created.{IsCreated, SaysOfCreate, IsFolderFault, has_begun};
ghost use Rattle.ips_create.specs.Making.{Creates, StaysMarkedLast};
ghost use Rattle.ips_create.specs.declared.fault.CreateFault.TheVariants.{FolderFault};

use crate::fault::CreateFault;
use crate::judging::check;
use crate::making::make;
use crate::parts::parts_of;
use ips_folder::Folder;
use ips_outside::Source;
use ips_text::Or;
use std::alloc::Global;

/// Makes a repository of one publisher in the folder, without packages. All memory is taken before the first call that may change
/// something.
///
/// # Errors
///
/// A repository is there; something else than a directory is in the way; or a call on the folder failed.
pub fn create<F: Folder>(
    alloc: Global,
    publisher: &str,
    target: &mut F,
) -> Result<(), Or<CreateFault>>
    requires publisher { IsPublisher publisher.now }
    requires safe { IsTrue (F.outside.tells target.old) → IsSettled (F.outside.state target.old) }
    requires shut { IsTrue (F.outside.tells target.old) → (F.outside.state target.old).held.look gate_name ≡ None }
    ensures created { IsTrue (F.outside.tells target.old) → OnOk result (IsCreated publisher.now (F.outside.state target.old).held (F.outside.state target.new)) }
    ensures says { IsTrue (F.outside.tells target.old) → IfBad result (SaysOfCreate publisher.now (F.outside.state target.old).held) }
    ensures creates { IsTrue (F.outside.tells target.old) → Creates F.outside publisher.now target.old target.new
        ⊎ (MakesInPart F.outside target.old target.new × (result ≡ Err (Bad (FolderFault true)))) }
    ensures marked { IsTrue (F.outside.tells target.old) → IsFalse (is_repository (F.outside.state target.old).held) → StaysMarkedLast F.outside publisher.now target.old target.new }
    ensures kept { IsFalse (has_begun result) → F.outside.state target.new ≡ F.outside.state target.old }
    ensures begun { HasBegun (F.outside.changes target.old) (F.outside.changes target.new) (has_begun result) }
    ensures cause { HasCause (F.outside.faults target.old) (F.outside.faults target.new) (IsFolderFault result) }
    ensures same_kind { F.outside.tells target.new ≡ F.outside.tells target.old }
    ensures changes { F.outside.changes target.old ≤ F.outside.changes target.new }
{
    let parts = parts_of(alloc, publisher)?;
    match check(alloc, target, &parts.dirs) {
        Ok(()) => {}
        Err(fault) => return Err(fault),
    }
    match make(
        target,
        &parts.dirs[..2],
        &parts.dirs[2..],
        &parts.catalog,
        &parts.text,
        &parts.mark,
    ) {
        Ok(()) => Ok(()),
        Err(why) => Err(Or::Bad(why)),
    }
}
