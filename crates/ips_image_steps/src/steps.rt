//! The steps of a request over an image.

ghost use Rattle.std.specs.Prelude.{◌≡◌, IsTrue, Err, IfOk};
ghost use Rattle.ips_text.specs.Reading.{IfBad};
ghost use Rattle.std.specs.List.{AllByRecursion};
ghost use Rattle.ips_text.specs.declared.refusal.Or.TheVariants.{Bad};
ghost use Rattle.ips_outside.specs.Outside.{Reads};
ghost use Rattle.ips_after.specs.Request.{Request};
ghost use Rattle.ips_aside.specs.lost_and_found.Moments.{NamesMoment};
ghost use Rattle.ips_change.specs.survey.Rows.{HasLooked};
ghost use Rattle.ips_image_steps.specs.Asked.{HasOwnFolder, HasRequest, IsAsked};
ghost use Rattle.ips_image_steps.specs.Answers.{CanBeListed, HasSteps, IfUnmovable, IsHindered};
ghost use Rattle.ips_image_steps.specs.declared.fault.StepsFault.TheVariants as fault;

use crate::fault::StepsFault;
use crate::listed::can_be_listed;
use crate::settled::add_steps;
use ips_change::survey::Table;
use ips_emit::Emitted;
use ips_folder::Folder;
use ips_laying::Laying;
use ips_outside::Failed;
use ips_text::Or;
use std::alloc::Global;

/// The steps of the request of this table over what the folder holds, at the moment of this text: first those of what is saved, then those of the plan,
/// with what is staged for them. A journal can list them, and nothing is copied from the updater's own names. The folder is only looked at.
///
/// # Errors
///
/// `Unmovable` with the first path at which the request can't be carried out, and `FolderFault` where a call on the folder failed.
pub fn image_steps<F: Folder, L: Laying>(
    alloc: Global,
    folder: &mut F,
    table: &Table<'_>,
    laying: &L,
    moment: &str,
) -> Result<Emitted, Or<StepsFault>>
    requires moment { NamesMoment moment.now }
    requires request { HasRequest table.now.rows.items table.now.said.items }
    requires looked { IsTrue (F.outside.tells folder.old) → AllByRecursion (HasLooked (F.outside.state folder.old).held) table.now.rows.items }
    ensures lists { IfOk result CanBeListed }
    ensures planned { IsTrue (F.outside.tells folder.old) → IfOk result (λ emitted. (r : Request) → IsAsked (L.laid laying.now) table.now.rows.items table.now.said.items r → HasOwnFolder r (F.outside.state folder.old).held
        → HasSteps moment.now r (F.outside.state folder.old).held emitted) }
    ensures hindered { IsTrue (F.outside.tells folder.old) → IfUnmovable result (λ p. (r : Request) → IsAsked (L.laid laying.now) table.now.rows.items table.now.said.items r → HasOwnFolder r (F.outside.state folder.old).held
        → IsHindered moment.now r (F.outside.state folder.old).held p) }
    ensures reads { Reads F.outside folder.old folder.new (result ≡ Err (Bad fault.FolderFault)) }
{
    let mut emitted = Emitted::new(alloc);
    match add_steps(alloc, folder, table, laying, moment, &mut emitted) {
        Ok(None) => listed(emitted),
        Ok(Some(path)) => Err(Or::Bad(StepsFault::Unmovable(path))),
        Err(Or::Bad(Failed)) => Err(Or::Bad(StepsFault::FolderFault)),
        Err(Or::OutOfMemory) => Err(Or::OutOfMemory),
    }
}

// The steps, where a journal can list them. Where the folder tells what it holds, and a journal can name what the request is about, there are no others
// but lists of 2^64 steps (`plans_change_the_visible_image`, `saved_files_are_seen`).
fn listed(emitted: Emitted) -> Result<Emitted, Or<StepsFault>>
    ensures lists { IfOk result CanBeListed }
    ensures same { IfOk result (λ given. given ≡ emitted) }
    ensures memory { IfBad result (λ fault. ⊥) }
{
    if can_be_listed(&emitted) {
        Ok(emitted)
    } else {
        Err(Or::OutOfMemory)
    }
}
