//! Faults as they are told.

ghost use Rattle.std.specs.Prelude.{◌≡◌, IfOk};
ghost use Rattle.ips_tell.specs.told.Told.{IsToldAs};
ghost use Rattle.ips_tell.specs.refusals.Told.{as_refused, unmeant_told, unread_told};

use ips_load::StateFault;
use ips_meaning::WantFault;
use ips_report::Outcome;
use ips_run::{DecideFault, Decision};
use ips_text::Or;

/// The records can't be read.
pub fn unread(fault: Or<StateFault>) -> Result<Decision<Outcome>, Or<DecideFault>>
    ensures told { result ≡ unread_told fault }
    ensures says { IfOk result IsToldAs }
{
    match fault {
        Or::Bad(StateFault::NoImage) => refused(Outcome::NoImage),
        Or::Bad(StateFault::BadImage { file, line }) => refused(Outcome::BadImage { file, line }),
        Or::Bad(StateFault::TooLarge { which, count }) => refused(Outcome::TooLarge {
            which,
            count,
        }),
        Or::Bad(StateFault::FolderFault) => Err(Or::Bad(DecideFault::FolderFault)),
        Or::OutOfMemory => Err(Or::OutOfMemory),
    }
}

/// The packages mean no image.
pub fn unmeant(fault: WantFault) -> Decision<Outcome>
    ensures told { result ≡ unmeant_told fault }
    ensures says { IsToldAs result }
{
    match fault {
        WantFault::Reserved { path } => Decision::Refused(Outcome::Reserved { path }),
        WantFault::Clash(clash) => Decision::Refused(Outcome::Clash(clash)),
    }
}

// The outcome is refused.
fn refused(told: Outcome) -> Result<Decision<Outcome>, Or<DecideFault>>
    ensures { result ≡ as_refused told }
{
    Ok(Decision::Refused(told))
}
