//! The steps of a request, with the account files behind it.

ghost use Rattle.std.specs.Prelude.{◌≡◌, Ok, Err, None, IfOk, IsTrue, map};
ghost use Rattle.std.specs.List.{AllByRecursion};
ghost use Rattle.ips_text.specs.Reading.{IfBad};
ghost use Rattle.ips_text.specs.declared.refusal.Or.TheVariants.{Bad};
ghost use Rattle.ips_outside.specs.Outside.{Reads};
ghost use Rattle.ips_books.specs.Seen.{accounts as books_seen};
ghost use Rattle.ips_aside.specs.lost_and_found.Moments.{NamesMoment};
ghost use Rattle.ips_change.specs.survey.Rows.{AreRows, HasLooked, row_pair};
ghost use Rattle.ips_due.specs.Due.{HasProperDue, IsDue};
ghost use Rattle.ips_due.specs.outstanding.Parts.{due_file};
ghost use Rattle.ips_request_due.specs.RequestDue.{AreAccountFiles};
ghost use Rattle.ips_steps.specs.View.{step_of};
ghost use Rattle.ips_state.specs.State.{recorded};
ghost use Rattle.ips_state.specs.Lawful.{IsLawful};
ghost use Rattle.ips_plan_limits.specs.Limits as limits;
ghost use Rattle.ips_plan.specs.image_plan.Between.{AreMeant};
ghost use Rattle.ips_plan.specs.image_plan.Behind.{IsBeyond, ComesOf, ComesOfDue, IsPlanned, IsPlannedOf};
ghost use Rattle.ips_plan.specs.declared.image_plan.behind.BehindFault.TheVariants as fault;

use crate::image_plan::between::Between;
use crate::image_plan::licensing::licenses_between;
use crate::image_plan::steps::steps_between;
use ips_account_files::AccountFiles;
use ips_change::survey::Row;
use ips_delivered::delivered::UnknownOwner;
use ips_emit::Emitted;
use ips_folder::Folder;
use ips_image_steps::StepsFault;
use ips_plan_limits::{Excess, first_excess};
use ips_request_due::{KeptDue, request_due};
use ips_text::{Or, RelPath, Text};
use std::alloc::{AllocError, Global};

/// The steps of a request, and the licenses that are to be shown.
#[derive(Drop)]
pub struct Planned {
    /// The steps, with what is staged for them.
    pub emitted: Emitted,
    /// The licenses.
    pub licenses: Vec<Text>,
}

/// Why there are none.
#[derive(Drop)]
pub enum BehindFault {
    /// An owner or a group of the new packages is unknown.
    UnknownOwner(UnknownOwner),
    /// These newly delivered licenses must be accepted.
    LicenseNeeded(Vec<Text>),
    /// This is the first path, by its bytes, at which the request can't be carried out.
    Unmovable(RelPath),
    /// There are too many steps, or a file that is written has too many bytes.
    TooLarge(Excess),
    /// A call on the folder failed.
    FolderFault,
}

/// The steps of the request between these states, over the rows of what was and is wanted, with these account files behind it, at the moment of this text. The
/// folder is only looked at.
///
/// # Errors
///
/// In this order: `UnknownOwner` with the least path of the new packages whose owner or group is unknown, `LicenseNeeded` with the newly delivered licenses that
/// must be accepted where they aren't, `Unmovable` with the first path at which the request can't be carried out, and `TooLarge`; `FolderFault` where a call on
/// the folder failed.
pub fn plan_behind<'a, F: Folder>(
    alloc: Global,
    between: Between<'a>,
    rows: &[Row<'a>],
    files: &AccountFiles,
    moment: &str,
    accept: bool,
    folder: &mut F,
) -> Result<Planned, Or<BehindFault>>
    requires moment { NamesMoment moment.now }
    requires meant { AreMeant between }
    requires old { IsLawful (recorded between.old.now) }
    requires new { IsLawful (recorded between.new.now) }
    requires rows { AreRows between.was.now between.is.now (map row_pair rows.now) }
    requires accounts { AreAccountFiles (map due_file files.now.due.items) }
    requires looked { IsTrue (F.outside.tells folder.old) → AllByRecursion (HasLooked (F.outside.state folder.old).held) rows.now }
    ensures planned { IfOk result (IsPlanned (F.outside.tells folder.old) (F.outside.state folder.old).held moment.now between.entry (map due_file files.now.due.items) (books_seen files.now.books) accept) }
    ensures refused { IfBad result (ComesOf (F.outside.tells folder.old) (F.outside.state folder.old).held moment.now between.entry (map due_file files.now.due.items) (books_seen files.now.books) accept) }
    ensures reads { Reads F.outside folder.old folder.new (result ≡ Err (Bad fault.FolderFault)) }
{
    match request_due(alloc, &files.due, &files.books, between.old, between.new) {
        Ok(due) => plan_of(alloc, between, rows, &due, moment, accept, folder),
        Err(Or::Bad(unknown)) => Err(Or::Bad(BehindFault::UnknownOwner(unknown))),
        Err(Or::OutOfMemory) => Err(Or::OutOfMemory),
    }
}

// The same, where it is known what is due.
fn plan_of<'a, F: Folder>(
    alloc: Global,
    between: Between<'a>,
    rows: &[Row<'a>],
    due: &KeptDue<'_>,
    moment: &str,
    accept: bool,
    folder: &mut F,
) -> Result<Planned, Or<BehindFault>>
    requires moment { NamesMoment moment.now }
    requires meant { AreMeant between }
    requires old { IsLawful (recorded between.old.now) }
    requires new { IsLawful (recorded between.new.now) }
    requires rows { AreRows between.was.now between.is.now (map row_pair rows.now) }
    requires together { IsDue due.now }
    requires proper { HasProperDue due.now }
    requires looked { IsTrue (F.outside.tells folder.old) → AllByRecursion (HasLooked (F.outside.state folder.old).held) rows.now }
    ensures planned { IfOk result (IsPlannedOf (F.outside.tells folder.old) (F.outside.state folder.old).held moment.now between.entry due.now accept) }
    ensures refused { IfBad result (ComesOfDue (F.outside.tells folder.old) (F.outside.state folder.old).held moment.now between.entry due.now accept) }
    ensures reads { Reads F.outside folder.old folder.new (result ≡ Err (Bad fault.FolderFault)) }
{
    match licenses_between(alloc, between.old, between.new, accept) {
        Ok(licenses) => match steps_between(alloc, between, rows, due, moment, folder) {
            Ok(emitted) => within(emitted, licenses),
            Err(Or::Bad(StepsFault::Unmovable(path))) => {
                Err(Or::Bad(BehindFault::Unmovable(path)))
            }
            Err(Or::Bad(StepsFault::FolderFault)) => Err(Or::Bad(BehindFault::FolderFault)),
            Err(Or::OutOfMemory) => Err(Or::OutOfMemory),
        },
        Err(Or::Bad(asked)) => Err(Or::Bad(BehindFault::LicenseNeeded(asked))),
        Err(Or::OutOfMemory) => Err(Or::OutOfMemory),
    }
}

// Both, where neither the steps nor the files that they write are too many or too large.
fn within(emitted: Emitted, licenses: Vec<Text>) -> Result<Planned, Or<BehindFault>>
    ensures within { IfOk result (λ p. (p.emitted ≡ emitted) × (p.licenses.items ≡ licenses.items) × (limits.first_excess (map step_of emitted.steps.items) emitted.staged.items ≡ None)) }
    ensures beyond { IfBad result (IsBeyond emitted) }
{
    let alloc = *emitted.steps.allocator();
    match first_excess(alloc, &emitted.steps, &emitted.staged) {
        Ok(Some(excess)) => Err(Or::Bad(BehindFault::TooLarge(excess))),
        Ok(None) => Ok(Planned { emitted, licenses }),
        Err(AllocError) => Err(Or::OutOfMemory),
    }
}
