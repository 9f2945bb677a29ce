//! How a run ends.

ghost use Rattle.std.specs.Prelude.{◌≡◌};
ghost use Rattle.ips_mogrify.specs.Status.{exit_number};

use ips_manifest::ManifestFault;
use ips_syntax::Why;
use ips_text::{RelPath, Which};

/// What happened.
#[derive(Debug, Drop)]
pub enum MogrifyOutcome {
    /// The words aren't of the form; `place` is the first that no such words continue.
    Usage { place: u64, why: Why },
    /// No file stands at the path.
    FileMissing { path: RelPath },
    /// A file has so many bytes, which are too many.
    TooLarge { which: Which, count: u64 },
    /// The line is no rule.
    BadRule { line: u64 },
    /// A pattern of the rule on this line is none.
    BadPattern { line: u64 },
    /// The manifest is none.
    BadManifest { fault: ManifestFault },
    /// The rules make the action on this line into none.
    BadResult { line: u64 },
    /// A call on the source failed.
    SourceFault,
    /// The manifest was written, as far as the sink took it.
    Written,
    /// Memory was refused.
    OutOfMemory,
}

/// What happened, and whether all that was to be written was taken.
#[derive(Debug, Drop)]
pub struct MogrifyStatus {
    /// What happened.
    pub outcome: MogrifyOutcome,
    /// Whether the sink took all.
    pub told: bool,
}

impl MogrifyStatus {
    /// The number that a program ends with.
    pub fn number(&self) -> u8
        ensures { result ≡ exit_number self.now }
    {
        match self.outcome {
            MogrifyOutcome::Written if self.told => 0,
            MogrifyOutcome::Usage { .. } => 2,
            MogrifyOutcome::OutOfMemory => 99,
            _ => 1,
        }
    }
}
