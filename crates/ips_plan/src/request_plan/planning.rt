//! The plan of a request.

ghost use Rattle.std.specs.Prelude.{◌≡◌, ◌⊎◌, ℕ, List, Err, IfOk, map};
ghost use Rattle.ips_text.specs.Reading.{IfBad};
ghost use Rattle.ips_text.specs.declared.refusal.Or.TheVariants.{Bad};
ghost use Rattle.ips_outside.specs.Outside.{Reads};
ghost use Rattle.ips_due.specs.outstanding.Parts.{due_file};
ghost use Rattle.ips_request_due.specs.RequestDue.{AreAccountFiles};
ghost use Rattle.ips_state.specs.State.{recorded};
ghost use Rattle.ips_state.specs.Lawful.{IsLawful};
ghost use Rattle.ips_account_files.specs.declared.ledger.fault.LedgerFault.TheVariants as ledger;
ghost use Rattle.ips_plan.specs.image_plan.Accounts.{IsLedger};
ghost use Rattle.ips_plan.specs.image_plan.Acting.{AreRuns};
ghost use Rattle.ips_plan.specs.image_plan.Between.{AreMeant, given};
ghost use Rattle.ips_plan.specs.image_plan.Meaning.{StateMeans};
ghost use Rattle.ips_plan.specs.request_plan.Causes.{IsUngiven};
ghost use Rattle.ips_plan.specs.request_plan.Plans.{AreCounts, AreFiles, AreSurveyed, CanBePlanned, HasNoSteps, IsPlanWith, PlansBetween, PlansRequest};
ghost use Rattle.ips_plan.specs.declared.request_plan.fault.PlanFault.TheVariants as fault;

use crate::image_plan::{Between, Planned, ledger_behind, meaning, plan_behind, words_between};
use crate::request_plan::fault::{PlanFault, ungiven, unlaid, unmeant};
use ips_account_files::ledger::LedgerFault;
use ips_account_files::{AccountFiles, due_files_are_proper};
use ips_actuate::Words;
use ips_change::survey::{Row, survey};
use ips_counts::Counts;
use ips_folder::Folder;
use ips_meaning::Want;
use ips_outside::{Failed, Source};
use ips_plan_limits::counts;
use ips_state::State;
use ips_text::Or;
use std::alloc::Global;

/// The plan of a request.
#[derive(Drop)]
pub struct Plan {
    /// The steps with what is staged for them, and the licenses that are to be shown.
    pub planned: Planned,
    /// What the image's actuator is run with before the change.
    pub before: Vec<Words>,
    /// What it is run with after the change.
    pub after: Vec<Words>,
    /// How many packages are installed, updated and removed.
    pub counts: Counts,
}

/// The plan of the request from the old state of an image to the new one, at the moment of this text. Folder and source are only looked at.
///
/// # Errors
///
/// What the packages of a state mean comes first, old before new; then what hinders the account files, `UnknownOwner`, `LicenseNeeded`, `Unmovable` and
/// `TooLarge`. `FolderFault` and `SourceFault` come where a call failed.
pub fn plan_request<S: Source, F: Folder>(
    alloc: Global,
    old: &State,
    new: &State,
    moment: &str,
    accept: bool,
    source: &mut S,
    folder: &mut F,
) -> Result<Plan, Or<PlanFault>>
    requires { CanBePlanned moment.now old.now new.now }
    ensures { PlansRequest F.outside S.outside moment.now old.now new.now accept folder.old folder.new source.old source.new result }
{
    match meaning(alloc, old) {
        Ok(was) => plan_from(alloc, old, &was, new, moment, accept, source, folder),
        Err(Or::Bad(why)) => Err(Or::Bad(unmeant(why))),
        Err(Or::OutOfMemory) => Err(Or::OutOfMemory),
    }
}

// The same, where it is known what the old packages mean.
fn plan_from<S: Source, F: Folder>(
    alloc: Global,
    old: &State,
    was: &Want,
    new: &State,
    moment: &str,
    accept: bool,
    source: &mut S,
    folder: &mut F,
) -> Result<Plan, Or<PlanFault>>
    requires request { CanBePlanned moment.now old.now new.now }
    requires meant { StateMeans old.now was.now }
    ensures { PlansRequest F.outside S.outside moment.now old.now new.now accept folder.old folder.new source.old source.new result }
{
    match meaning(alloc, new) {
        Ok(is) => {
            let between = Between {
                old,
                new,
                was,
                is: &is,
            };
            plan_between(alloc, between, moment, accept, source, folder)
        }
        Err(Or::Bad(why)) => Err(Or::Bad(unmeant(why))),
        Err(Or::OutOfMemory) => Err(Or::OutOfMemory),
    }
}

// The same, where it is known what the packages of both mean.
fn plan_between<S: Source, F: Folder>(
    alloc: Global,
    between: Between<'_>,
    moment: &str,
    accept: bool,
    source: &mut S,
    folder: &mut F,
) -> Result<Plan, Or<PlanFault>>
    requires request { CanBePlanned moment.now between.old.now between.new.now }
    requires meant { AreMeant between }
    ensures { PlansBetween F.outside S.outside moment.now between.entry accept folder.old folder.new source.old source.new result }
{
    match survey(alloc, folder, between.was, between.is) {
        Ok(rows) => plan_over(alloc, between, &rows, moment, accept, source, folder),
        Err(Or::Bad(Failed)) => Err(Or::Bad(PlanFault::FolderFault)),
        Err(Or::OutOfMemory) => Err(Or::OutOfMemory),
    }
}

// The same over the rows of what was and is wanted.
fn plan_over<'a, S: Source, F: Folder>(
    alloc: Global,
    between: Between<'a>,
    rows: &[Row<'a>],
    moment: &str,
    accept: bool,
    source: &mut S,
    folder: &mut F,
) -> Result<Plan, Or<PlanFault>>
    requires request { CanBePlanned moment.now between.old.now between.new.now }
    requires meant { AreMeant between }
    requires surveyed { AreSurveyed F.outside folder.old between rows.now }
    ensures { PlansBetween F.outside S.outside moment.now between.entry accept folder.old folder.new source.old source.new result }
{
    match ledger_of(alloc, between, rows, source, folder) {
        Ok(files) => plan_with(alloc, between, rows, &files, moment, accept, folder),
        Err(Or::Bad(why)) => no_files(alloc, why),
        Err(Or::OutOfMemory) => Err(Or::OutOfMemory),
    }
}

// The account files behind the request.
fn ledger_of<'a, S: Source, F: Folder>(
    alloc: Global,
    between: Between<'a>,
    rows: &[Row<'a>],
    source: &mut S,
    folder: &mut F,
) -> Result<AccountFiles, Or<LedgerFault>>
    requires meant { AreMeant between }
    requires surveyed { AreSurveyed F.outside folder.old between rows.now }
    ensures files { IfOk result (AreFiles (given F.outside S.outside folder.old source.old between.entry) between.entry) }
    ensures proper { IfOk result (λ files. AreAccountFiles (map due_file files.due.items)) }
    ensures refused { IfBad result (λ why. (why ≡ ledger.FolderFault) ⊎ ((bytes : List ℕ → List ℕ) → IsLedger (given F.outside S.outside folder.old source.old between.entry) between.entry.old.now between.entry.new.now between.entry.was.now between.entry.is.now bytes (Err why))) }
    ensures reads { Reads F.outside folder.old folder.new (result ≡ Err (Bad ledger.FolderFault)) }
    ensures reads_source { Reads S.outside source.old source.new (result ≡ Err (Bad ledger.SourceFault)) }
{
    due_files_are_proper();
    ledger_behind(alloc, between, rows, source, folder)
}

// What is told where account files aren't given.
fn no_files(alloc: Global, why: LedgerFault) -> Result<Plan, Or<PlanFault>>
    ensures never { IfOk result (λ _. ⊥) }
    ensures told { IfBad result (λ f. IsUngiven why f) }
    ensures folder { why ≡ ledger.FolderFault → result ≡ Err (Bad fault.FolderFault) }
    ensures source { why ≡ ledger.SourceFault → result ≡ Err (Bad fault.SourceFault) }
    ensures no_folder { result ≡ Err (Bad fault.FolderFault) → why ≡ ledger.FolderFault }
    ensures no_source { result ≡ Err (Bad fault.SourceFault) → why ≡ ledger.SourceFault }
{
    match ungiven(alloc, why) {
        Ok(fault) => Err(Or::Bad(fault)),
        Err(_) => Err(Or::OutOfMemory),
    }
}

// The plan, with the account files behind the request.
fn plan_with<'a, F: Folder>(
    alloc: Global,
    between: Between<'a>,
    rows: &[Row<'a>],
    files: &AccountFiles,
    moment: &str,
    accept: bool,
    folder: &mut F,
) -> Result<Plan, Or<PlanFault>>
    requires request { CanBePlanned moment.now between.old.now between.new.now }
    requires meant { AreMeant between }
    requires surveyed { AreSurveyed F.outside folder.old between rows.now }
    requires accounts { AreAccountFiles (map due_file files.now.due.items) }
    ensures planned { IfOk result (IsPlanWith (F.outside.tells folder.old) (F.outside.state folder.old).held moment.now between.entry files.now accept) }
    ensures refused { IfBad result (HasNoSteps (F.outside.tells folder.old) (F.outside.state folder.old).held moment.now between.entry files.now accept) }
    ensures reads { Reads F.outside folder.old folder.new (result ≡ Err (Bad fault.FolderFault)) }
{
    match plan_behind(alloc, between, rows, files, moment, accept, folder) {
        Ok(planned) => finished(alloc, between.old, between.new, planned),
        Err(Or::Bad(why)) => Err(Or::Bad(unlaid(why))),
        Err(Or::OutOfMemory) => Err(Or::OutOfMemory),
    }
}

// The plan of these steps, with words and counts.
fn finished(
    alloc: Global,
    old: &State,
    new: &State,
    planned: Planned,
) -> Result<Plan, Or<PlanFault>>
    requires old { IsLawful (recorded old.now) }
    requires new { IsLawful (recorded new.now) }
    ensures never { IfBad result (λ _. ⊥) }
    ensures planned { IfOk result (λ p. p.planned ≡ planned) }
    ensures words { IfOk result (λ p. AreRuns old.now new.now p.before.items p.after.items) }
    ensures counted { IfOk result (λ p. AreCounts old.now new.now p.counts) }
{
    match words_between(alloc, old, new) {
        Ok((before, after)) => Ok(Plan {
            planned,
            before,
            after,
            counts: counts(&old.installed, &new.installed),
        }),
        Err(_) => Err(Or::OutOfMemory),
    }
}
