//! The outcome of a run.

ghost use Rattle.std.specs.Prelude.{◌≡◌};
ghost use Rattle.ips_contents.specs.Contents.{IsPayloadFault};
ghost use Rattle.ips_run.specs.Ending.{HasPayloadFault};
ghost use Rattle.ips_tell.specs.told.Told.{payload_told, told_as};

use ips_digest::PayloadName;
use ips_repo::RepoFault;
use ips_report::Outcome;
use ips_run::Ending;

/// The outcome as which the ending of a run is told. A payload has to have a fault that a payload can have.
pub fn outcome_of(ending: Ending<Outcome>) -> Outcome
    requires { HasPayloadFault ending }
    ensures { result ≡ told_as ending }
{
    match ending {
        Ending::Done(told) | Ending::Shown(told) | Ending::Refused(told) => told,
        Ending::NothingToDo => Outcome::NothingToDo,
        Ending::Unfinished => Outcome::Unfinished,
        Ending::BadJournal { line } => Outcome::BadJournal { line },
        Ending::Recovered { forward } => Outcome::Recovered { forward },
        Ending::NotDirectory { path } => Outcome::BadImage {
            file: path,
            line: 0,
        },
        Ending::BadPayload { name, fault } => of_payload(name, fault),
        Ending::ActuatorFailed {
            after,
            words,
            status,
        } => Outcome::ActuatorFailed {
            after,
            words,
            status,
        },
        Ending::SpawnFault { after } => Outcome::SpawnFault { after },
        Ending::SourceFault => Outcome::SourceFault,
        Ending::FolderFault { unfinished } => Outcome::FolderFault { unfinished },
        Ending::OutOfMemory => Outcome::OutOfMemory,
    }
}

// The outcome of a payload that has a fault.
fn of_payload(name: PayloadName, fault: RepoFault) -> Outcome
    requires { IsPayloadFault name fault }
    ensures { result ≡ payload_told name fault }
{
    match fault {
        RepoFault::PayloadMissing => Outcome::PayloadMissing { name },
        RepoFault::PayloadDamaged { found } => Outcome::PayloadDamaged { name, found },
        RepoFault::Compressed { found } => Outcome::Compressed { name, found },
        RepoFault::TooLarge { which, count } => Outcome::TooLarge { which, count },
        RepoFault::NoRepository
        | RepoFault::BadCatalog(_)
        | RepoFault::ManifestMissing
        | RepoFault::BadManifest(_)
        | RepoFault::SourceFault => unreachable!(),
    }
}
