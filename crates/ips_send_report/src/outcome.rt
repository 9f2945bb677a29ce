//! How a run ends.

ghost use Rattle.std.specs.Prelude.{◌≡◌};
ghost use Rattle.ips_send_report.specs.Report.{exit_number};

use ips_catalog::CatalogFault;
use ips_manifest::ManifestFault;
use ips_syntax::Why;
use ips_text::{RelPath, Text, Which};

/// What happened.
#[derive(Drop)]
pub enum SendOutcome {
    /// The words aren't of the forms; `place` is the first that no such words continue.
    Usage { place: u64, why: Why },
    /// The journal behind an open gate can't be read or laid, from this line on.
    BadJournal { line: u64 },
    /// A repository is there already; or the version is listed already.
    Exists,
    /// Something else than a directory stands at the path, where one is needed.
    Blocked { path: RelPath },
    /// The folder isn't a repository.
    NoRepository,
    /// The catalog of the publisher isn't one.
    BadCatalog { fault: CatalogFault },
    /// No file stands at the path of the manifest.
    ManifestMissing,
    /// The manifest isn't one.
    BadManifest { fault: ManifestFault },
    /// The text names no file that is the content of a line.
    ContentMissing { path: Text },
    /// A count passes its limit.
    TooLarge { which: Which, count: u64 },
    /// A call on the folder of what is published failed.
    SourceFault,
    /// A call on the repository failed; `unfinished` tells whether it may be changed already.
    FolderFault { unfinished: bool },
    /// The repository is made.
    Created,
    /// This version is published.
    Published { fmri: Text },
    /// Memory was refused.
    OutOfMemory,
}

/// What happened, and whether all that was to be told was taken.
#[derive(Drop)]
pub struct SendStatus {
    /// What happened.
    pub outcome: SendOutcome,
    /// Whether the sink took all.
    pub told: bool,
}

impl SendStatus {
    /// The number that a program ends with: 0 where it is done and told, 2 for words that aren't of the forms, 99 where memory was
    /// refused, and else 1.
    pub fn number(&self) -> u8
        ensures { result ≡ exit_number self.now }
    {
        match self.outcome {
            SendOutcome::Created if self.told => 0,
            SendOutcome::Published { .. } if self.told => 0,
            SendOutcome::Usage { .. } => 2,
            SendOutcome::OutOfMemory => 99,
            _ => 1,
        }
    }
}
