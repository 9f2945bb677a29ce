//! The plan of a request at a moment.

ghost use Rattle.std.specs.Prelude.{◌<◌};
ghost use Rattle.ips_moment.specs.Moment.{IsMomentText};
ghost use Rattle.ips_plan.specs.requested.Meant.{CanBeRequested, IsRequested};

use crate::request_plan::{Plan as RequestPlan, PlanFault, plan_request};
use ips_account_files::due_files_fit;
use ips_folder::Folder;
use ips_moment::moment_text;
use ips_outside::Source;
use ips_state::State;
use ips_text::Or;
use std::alloc::Global;

/// The plan of the request from the old state of an image to the new one at this moment, or why there is none. A journal can list its steps, they can be staged,
/// and what is seen once they are laid is the image after the request.
///
/// # Errors
///
/// Those of `plan_request`.
pub fn plan<S: Source, F: Folder>(
    alloc: Global,
    old: &State,
    new: &State,
    moment: u64,
    accept: bool,
    source: &mut S,
    folder: &mut F,
) -> Result<RequestPlan, Or<PlanFault>>
    requires moment { moment < 253370764800 }
    requires request { CanBeRequested F.outside folder.old old.now new.now }
    ensures { IsRequested F.outside S.outside moment old.now new.now accept folder.old folder.new source.old source.new result }
{
    match moment_text(alloc, moment) {
        Ok(text) => plan_at(
            alloc,
            old,
            new,
            moment,
            text.as_str(),
            accept,
            source,
            folder,
        ),
        Err(_) => Err(Or::OutOfMemory),
    }
}

// The same at the moment of this text.
fn plan_at<S: Source, F: Folder>(
    alloc: Global,
    old: &State,
    new: &State,
    moment: u64,
    text: &str,
    accept: bool,
    source: &mut S,
    folder: &mut F,
) -> Result<RequestPlan, Or<PlanFault>>
    requires text { IsMomentText moment text.now }
    requires request { CanBeRequested F.outside folder.old old.now new.now }
    ensures { IsRequested F.outside S.outside moment old.now new.now accept folder.old folder.new source.old source.new result }
{
    due_files_fit();
    plan_request(alloc, old, new, text, accept, source, folder)
}
