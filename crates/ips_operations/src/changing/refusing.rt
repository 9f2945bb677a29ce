//! Why a command leads to no new state, or a request has no plan, as it is told.

ghost use Rattle.std.specs.Prelude.{◌≡◌, Some, Err, IfOk, IsTrue, is_some};
ghost use Rattle.ips_text.specs.declared.refusal.Or.TheVariants.{Bad};
ghost use Rattle.ips_next.specs.declared.fault.NextFault.TheVariants as next;
ghost use Rattle.ips_plan.specs.declared.request_plan.fault.PlanFault.TheVariants as plan;
ghost use Rattle.ips_run.specs.declared.operation.DecideFault.TheVariants as decide;
ghost use Rattle.ips_tell.specs.told.Told.{IsToldAs, Refusing, manner_of};
ghost use Rattle.ips_tell.specs.refusals.Told.{as_refused};
ghost use Rattle.ips_operations.specs.changing.Refusals.{payload_told, unled_told, unplanned_told};

use ips_digest::PayloadName;
use ips_next::NextFault;
use ips_plan::request_plan::PlanFault;
use ips_repo::RepoFault;
use ips_report::Outcome;
use ips_run::{DecideFault, Decision};
use ips_text::Or;

// The command leads to no new state.
pub(crate) fn unled(fault: Or<NextFault>) -> Result<Decision<Outcome>, Or<DecideFault>>
    ensures told { result ≡ unled_told fault }
    ensures says { IfOk result IsToldAs }
    ensures failed { result ≡ Err (Bad decide.SourceFault) → fault ≡ Bad next.SourceFault }
{
    match fault {
        Or::Bad(NextFault::OldFormat) => refused(Outcome::OldFormat),
        Or::Bad(NextFault::NoRepository) => refused(Outcome::NoRepository),
        Or::Bad(NextFault::BadCatalog { fault }) => refused(Outcome::BadCatalog { fault }),
        Or::Bad(NextFault::NoMatch { pattern }) => refused(Outcome::NoMatch { pattern }),
        Or::Bad(NextFault::Ambiguous { pattern, stems }) => refused(Outcome::Ambiguous {
            pattern,
            stems,
        }),
        Or::Bad(NextFault::ManifestMissing { fmri }) => refused(Outcome::ManifestMissing { fmri }),
        Or::Bad(NextFault::BadManifest { fmri, fault }) => refused(Outcome::BadManifest {
            fmri,
            fault,
        }),
        Or::Bad(NextFault::BadDepend { fmri, line }) => refused(Outcome::BadDepend { fmri, line }),
        Or::Bad(NextFault::TooLarge { which, count }) => refused(Outcome::TooLarge {
            which,
            count,
        }),
        Or::Bad(NextFault::NoSolution { stems, refutation }) => refused(Outcome::NoSolution {
            stems,
            refutation,
        }),
        Or::Bad(NextFault::SearchSpent { limit }) => refused(Outcome::SearchSpent { limit }),
        Or::Bad(NextFault::NothingToDo) => Ok(Decision::Nothing),
        Or::Bad(NextFault::SourceFault) => Err(Or::Bad(DecideFault::SourceFault)),
        Or::OutOfMemory => Err(Or::OutOfMemory),
    }
}

// The request has no plan.
pub(crate) fn unplanned(fault: Or<PlanFault>) -> Result<Decision<Outcome>, Or<DecideFault>>
    requires { IsTrue (is_some (unplanned_told fault)) }
    ensures told { unplanned_told fault ≡ Some result }
    ensures says { IfOk result IsToldAs }
    ensures failed_folder { result ≡ Err (Bad decide.FolderFault) → fault ≡ Bad plan.FolderFault }
    ensures failed_source { result ≡ Err (Bad decide.SourceFault) → fault ≡ Bad plan.SourceFault }
{
    match fault {
        Or::Bad(PlanFault::Reserved { path }) => refused(Outcome::Reserved { path }),
        Or::Bad(PlanFault::Clash(clash)) => refused(Outcome::Clash(clash)),
        Or::Bad(PlanFault::BadAccountLine { book, line }) => refused(Outcome::BadAccountLine {
            book,
            line,
        }),
        Or::Bad(PlanFault::IdTaken { id }) => refused(Outcome::IdTaken { id }),
        Or::Bad(PlanFault::UnknownOwner { path, name }) => refused(Outcome::UnknownOwner {
            path,
            name,
        }),
        Or::Bad(PlanFault::LicenseNeeded { list }) => refused(Outcome::LicenseNeeded { list }),
        Or::Bad(PlanFault::Unmovable { path }) => refused(Outcome::Unmovable { path }),
        Or::Bad(PlanFault::Payload { name, fault }) => refused(bad_payload(name, fault)),
        Or::Bad(PlanFault::TooLarge { which, count }) => refused(Outcome::TooLarge {
            which,
            count,
        }),
        Or::Bad(PlanFault::SourceFault) => Err(Or::Bad(DecideFault::SourceFault)),
        Or::Bad(PlanFault::FolderFault) => Err(Or::Bad(DecideFault::FolderFault)),
        Or::OutOfMemory => Err(Or::OutOfMemory),
    }
}

// The payload of this name has a fault.
pub(crate) fn bad_payload(name: PayloadName, fault: RepoFault) -> Outcome
    requires { IsTrue (is_some (payload_told name fault)) }
    ensures told { payload_told name fault ≡ Some result }
    ensures says { manner_of result ≡ Refusing }
{
    match fault {
        RepoFault::PayloadMissing => Outcome::PayloadMissing { name },
        RepoFault::PayloadDamaged { found } => Outcome::PayloadDamaged { name, found },
        RepoFault::Compressed { found } => Outcome::Compressed { name, found },
        RepoFault::TooLarge { which, count } => Outcome::TooLarge { which, count },
        _ => unreachable!(),
    }
}

// The outcome is refused.
fn refused(told: Outcome) -> Result<Decision<Outcome>, Or<DecideFault>>
    ensures { result ≡ as_refused told }
{
    Ok(Decision::Refused(told))
}
