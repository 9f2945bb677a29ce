//! The steps of a request between two states.

ghost use Rattle.std.specs.Prelude.{◌≡◌, ℕ, List, Ok, Err, IfOk, IsTrue, OnOk, map};
ghost use Rattle.std.specs.List.{AllByRecursion};
ghost use Rattle.std.specs.List.Sorted.{IsStrictlySortedBy};
ghost use Rattle.std.specs.Ordering.{nat_cmp};
ghost use Rattle.std.specs.Cmp.Lexicographic.{slice_cmp};
ghost use Rattle.ips_text.specs.Path.{IsPath};
ghost use Rattle.ips_text.specs.declared.refusal.Or.TheVariants.{Bad};
ghost use Rattle.ips_outside.specs.Outside.{Reads};
ghost use Rattle.ips_aside.specs.lost_and_found.Moments.{NamesMoment};
ghost use Rattle.ips_change.specs.survey.Rows.{AreRows, HasLooked, row_pair};
ghost use Rattle.ips_due.specs.Due.{HasProperDue, IsDue};
ghost use Rattle.ips_due.specs.outstanding.Outstanding.{AreOutstanding};
ghost use Rattle.ips_due.specs.outstanding.Parts.{due_of};
ghost use Rattle.ips_due.specs.outstanding.Verdicts.{named_paths};
ghost use Rattle.ips_image_steps.specs.Answers.{CanBeListed, IfUnmovable};
ghost use Rattle.ips_image_steps.specs.declared.fault.StepsFault.TheVariants as fault;
ghost use Rattle.ips_plan.specs.image_plan.Between.{AreMeant};
ghost use Rattle.ips_plan.specs.image_plan.Steps.{AreStepsBetween, HasOver, IsHinderedBetween};

use crate::image_plan::between::Between;
use ips_change::survey::{Row, Spoken, merge, surveyed_rows_are_of_the_request};
use ips_due::outstanding::{DueParts, Outstanding, Records, outstanding};
use ips_due_laying::{DueLaying, due_is_laid};
use ips_emit::Emitted;
use ips_folder::Folder;
use ips_image_steps::{StepsFault, image_steps};
use ips_outside::Failed;
use ips_request_due::KeptDue;
use ips_text::{Or, RelPath};
use std::alloc::Global;

/// The steps of the request between these states, over the rows of what was and is wanted, in which is said what isn't as it is due, at the moment of this
/// text. A journal can list them, and nothing is copied from the updater's own names. The folder is only looked at.
///
/// # Errors
///
/// `Unmovable` with the first path at which the request can't be carried out, and `FolderFault` where a call on the folder failed.
pub fn steps_between<'a, F: Folder>(
    alloc: Global,
    between: Between<'a>,
    rows: &[Row<'a>],
    due: &KeptDue<'_>,
    moment: &str,
    folder: &mut F,
) -> Result<Emitted, Or<StepsFault>>
    requires moment { NamesMoment moment.now }
    requires meant { AreMeant between }
    requires rows { AreRows between.was.now between.is.now (map row_pair rows.now) }
    requires together { IsDue due.now }
    requires proper { HasProperDue due.now }
    requires looked { IsTrue (F.outside.tells folder.old) → AllByRecursion (HasLooked (F.outside.state folder.old).held) rows.now }
    ensures lists { IfOk result CanBeListed }
    ensures planned { IsTrue (F.outside.tells folder.old) → IfOk result (AreStepsBetween moment.now between.entry due.now (F.outside.state folder.old).held) }
    ensures hindered { IsTrue (F.outside.tells folder.old) → IfUnmovable result (IsHinderedBetween moment.now between.entry due.now (F.outside.state folder.old).held) }
    ensures over { IsTrue (F.outside.tells folder.old) → OnOk result (HasOver due.now (F.outside.state folder.old).held) }
    ensures over_hindered { IsTrue (F.outside.tells folder.old) → IfUnmovable result (λ _. HasOver due.now (F.outside.state folder.old).held) }
    ensures reads { Reads F.outside folder.old folder.new (result ≡ Err (Bad fault.FolderFault)) }
{
    let records = due.records();
    let parts = due.parts(&records);
    let answer = match outstanding(alloc, folder, &parts) {
        Ok(outstanding) => steps_over(alloc, between, rows, &parts, &outstanding, moment, folder),
        Err(Or::Bad(Failed)) => Err(Or::Bad(StepsFault::FolderFault)),
        Err(Or::OutOfMemory) => Err(Or::OutOfMemory),
    };
    let DueParts {
        accounts: _,
        records: _,
        renewed: _,
        folders: _,
        gone: _,
    } = parts;
    answer
}

// The same, where it is known what isn't as it is due.
fn steps_over<'a, F: Folder, R: Records>(
    alloc: Global,
    between: Between<'a>,
    rows: &[Row<'a>],
    due: &DueParts<'_, R>,
    outstanding: &Outstanding,
    moment: &str,
    folder: &mut F,
) -> Result<Emitted, Or<StepsFault>>
    requires moment { NamesMoment moment.now }
    requires meant { AreMeant between }
    requires rows { AreRows between.was.now between.is.now (map row_pair rows.now) }
    requires together { IsDue (due_of R.records due.now) }
    requires proper { HasProperDue (due_of R.records due.now) }
    requires order { IsStrictlySortedBy (slice_cmp nat_cmp) (named_paths outstanding.now.named.items) }
    requires found { IsTrue (F.outside.tells folder.old) → (bytes : List ℕ → List ℕ) → AreOutstanding bytes (due_of R.records due.now) (F.outside.state folder.old).held outstanding.now.named.items }
    requires over { IsTrue (F.outside.tells folder.old) → HasOver (due_of R.records due.now) (F.outside.state folder.old).held }
    requires looked { IsTrue (F.outside.tells folder.old) → AllByRecursion (HasLooked (F.outside.state folder.old).held) rows.now }
    ensures lists { IfOk result CanBeListed }
    ensures planned { IsTrue (F.outside.tells folder.old) → IfOk result (AreStepsBetween moment.now between.entry (due_of R.records due.now) (F.outside.state folder.old).held) }
    ensures hindered { IsTrue (F.outside.tells folder.old) → IfUnmovable result (IsHinderedBetween moment.now between.entry (due_of R.records due.now) (F.outside.state folder.old).held) }
    ensures over { IsTrue (F.outside.tells folder.old) → OnOk result (HasOver (due_of R.records due.now) (F.outside.state folder.old).held) }
    ensures over_hindered { IsTrue (F.outside.tells folder.old) → IfUnmovable result (λ _. HasOver (due_of R.records due.now) (F.outside.state folder.old).held) }
    ensures reads { Reads F.outside folder.old folder.new (result ≡ Err (Bad fault.FolderFault)) }
{
    let Ok(spoken) = outstanding.spoken(alloc) else {
        return Err(Or::OutOfMemory);
    };
    are_paths(&spoken);
    let Ok(table) = merge(alloc, rows, &spoken) else {
        return Err(Or::OutOfMemory);
    };
    surveyed_rows_are_of_the_request();
    due_is_laid();
    let laying = DueLaying::new(outstanding, due);
    image_steps(alloc, folder, &table, &laying, moment)
}

// What is named are paths, as its type says.
fn are_paths(spoken: &[Spoken<'_>])
    ensures { AllByRecursion (λ s. IsPath s.path.now.bytes) spoken.now }
{
    for item in spoken {
        is_path(item.path);
    }
}

// The bytes of a path are one, as its type says.
fn is_path(path: &RelPath)
    ensures { IsPath path.now.bytes }
{
    let _bytes = path.bytes();
}
