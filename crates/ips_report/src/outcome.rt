//! What a run did, or why it refused.

ghost use Rattle.std.specs.Prelude.{◌≡◌};
ghost use Rattle.ips_report.specs.Report.{status_number};

use crate::unsolved::Tried;
use ips_accounts::Book;
use ips_actuate::Words;
use ips_catalog::CatalogFault;
use ips_conflict::Clash;
use ips_counts::{Counts, Sorts};
use ips_digest::PayloadName;
use ips_manifest::ManifestFault;
use ips_meaning::Finding;
use ips_refute::Refutation;
use ips_text::{RelPath, Text, Which};
use ips_words::Why;

/// What a run did or why it refused.
#[derive(Drop)]
pub enum Outcome {
    /// The words are no command: the place of the first word at fault, counted from 0, and what is wrong there.
    Usage {
        place: u64,
        why: Why,
    },
    /// A change of the image was stopped; `fix` finishes it.
    Unfinished,
    /// The journal of a change that was stopped can't be carried out from this line on.
    BadJournal {
        line: u64,
    },
    /// A change that was stopped is finished; or, where `forward` is false, what it left is cleared away.
    Recovered {
        forward: bool,
    },
    /// There is no image.
    NoImage,
    /// There is an image already.
    ImageExists,
    /// A file of the image's records isn't in its grammar, from this line on.
    BadImage {
        file: RelPath,
        line: u64,
    },
    /// The image's records are of format 1.
    OldFormat,
    /// The image has no index.
    NoIndex,
    /// The repository isn't marked as one of format 4.
    NoRepository,
    /// The publisher's catalog isn't one.
    BadCatalog {
        fault: CatalogFault,
    },
    /// The pattern, the first such, matches no package.
    NoMatch {
        pattern: Text,
    },
    /// The pattern, the first such, matches several packages, where it may name one only: their stems, by bytes.
    Ambiguous {
        pattern: Text,
        stems: Vec<Text>,
    },
    /// The repository has no manifest of a package that is needed.
    ManifestMissing {
        fmri: Text,
    },
    /// The manifest of a package that is needed isn't one.
    BadManifest {
        fmri: Text,
        fault: ManifestFault,
    },
    /// A `depend` line of a manifest that is needed is no dependency.
    BadDepend {
        fmri: Text,
        line: u64,
    },
    /// No selection is admissible: the stems in reach, in order, and why no choice of their candidates fits together.
    NoSolution {
        stems: Vec<Tried>,
        refutation: Refutation,
    },
    /// The search reached as many beginnings as its limit allows.
    SearchSpent {
        limit: u64,
    },
    /// The image is as it is asked for.
    NothingToDo,
    /// An action gives a path where the image keeps its own records: the least such path.
    Reserved {
        path: RelPath,
    },
    /// Two actions can't stand in one image: their first clash.
    Clash(Clash),
    /// A line of an account file isn't one; 0 where no such file can stand there.
    BadAccountLine {
        book: Book,
        line: u64,
    },
    /// A number that a user or group is to have is another name's.
    IdTaken {
        id: u32,
    },
    /// The owner or group of a path isn't known.
    UnknownOwner {
        path: RelPath,
        name: Text,
    },
    /// Licenses have to be accepted: each a stem, a blank and the license's name.
    LicenseNeeded {
        list: Vec<Text>,
    },
    /// What stands at the path can't be put aside.
    Unmovable {
        path: RelPath,
    },
    /// The repository hasn't the file whose digest is this name.
    PayloadMissing {
        name: PayloadName,
    },
    /// The payload's bytes have another digest.
    PayloadDamaged {
        name: PayloadName,
        found: PayloadName,
    },
    /// The payload's bytes have another digest, and begin as a gzip file does.
    Compressed {
        name: PayloadName,
        found: PayloadName,
    },
    /// A count is greater than its limit.
    TooLarge {
        which: Which,
        count: u64,
    },
    /// An actuator ended with another status than 0; `after` tells that the image is new.
    ActuatorFailed {
        after: bool,
        words: Words,
        status: u8,
    },
    /// An actuator couldn't be run; `after` tells that the image is new.
    SpawnFault {
        after: bool,
    },
    /// A call on the repository failed.
    SourceFault,
    /// A call on the image failed; `unfinished` tells that `fix` has to finish the change.
    FolderFault {
        unfinished: bool,
    },
    /// The image differs from its packages, as found by `verify`.
    Damaged {
        findings: Vec<Finding>,
    },
    /// The image is as it was asked for: what was changed, the steps by their sorts, and the licenses to display, each a stem, a
    /// blank and the license's name.
    Done {
        counts: Counts,
        steps: Sorts,
        licenses: Vec<Text>,
    },
    /// What was asked to be shown, with its newlines.
    Shown {
        text: Text,
    },
    /// Memory was refused: before the gate opened, or in a recovery before its first change.
    OutOfMemory,
}

/// How a run ended.
#[derive(Drop)]
pub struct Status {
    /// What happened, whether or not it was told.
    pub outcome: Outcome,
    /// Whether the report was written whole.
    pub told: bool,
}

impl Status {
    /// The number that the program ends with: that of the outcome, or 1 where the report wasn't written.
    pub fn number(&self) -> u8
        ensures { result ≡ status_number self.now.outcome self.now.told }
    {
        if !self.told {
            return 1;
        }
        match self.outcome {
            Outcome::Done { .. } | Outcome::Shown { .. } | Outcome::Recovered { .. } => 0,
            Outcome::Usage { .. } => 2,
            Outcome::NothingToDo => 4,
            Outcome::LicenseNeeded { .. } => 6,
            Outcome::OutOfMemory => 99,
            _ => 1,
        }
    }
}
