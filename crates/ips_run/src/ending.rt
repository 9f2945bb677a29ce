//! How a run ends.

use ips_actuate::Words;
use ips_digest::PayloadName;
use ips_repo::RepoFault;
use ips_text::RelPath;

/// How a run ends, with what the operation tells of it.
#[derive(Drop)]
pub enum Ending<T> {
    /// The image is changed as the operation means.
    Done(T),
    /// What the operation shows.
    Shown(T),
    /// Why the operation refuses.
    Refused(T),
    /// There is nothing to change.
    NothingToDo,
    /// A change was stopped, and something stands at the gate.
    Unfinished,
    /// The journal behind an open gate can't be read or laid from this line on, counted from 1.
    BadJournal {
        line: u64,
    },
    /// A change that was stopped is brought to its end; or, where `forward` is false, what it left is taken away.
    Recovered {
        forward: bool,
    },
    /// Something else than a directory stands at this path, at which a directory of the image's records is to be made.
    NotDirectory {
        path: RelPath,
    },
    /// A payload is missing, too large or damaged.
    BadPayload {
        name: PayloadName,
        fault: RepoFault,
    },
    /// An actuator ended with another status than 0; `after` tells that the image is new.
    ActuatorFailed {
        after: bool,
        words: Words,
        status: u8,
    },
    /// An actuator couldn't be run; `after` tells that the image is new.
    SpawnFault {
        after: bool,
    },
    /// A call on the repository failed.
    SourceFault,
    /// A call on the image failed; `unfinished` tells that the change is to be brought to its end.
    FolderFault {
        unfinished: bool,
    },
    /// Memory was refused: before the gate was to open, or in a recovery before its first change.
    OutOfMemory,
}
