//! Why steps can't be read or laid.

ghost use Rattle.std.specs.Prelude.{◌≡◌};
ghost use Rattle.ips_journal.specs.declared.fault.StepFault.TheVariants as fault;

use ips_outside::Failed;

/// Why the steps of a journal can't be read on, or laid.
#[derive(Drop)]
pub enum StepFault {
    /// A line isn't of the grammar of journals, or its step can't be laid.
    BadJournal {
        /// The number of the line, from 1.
        line: u64,
    },
    /// A call on the folder failed.
    FolderFault,
}

impl From<Failed> for StepFault {
    ghost from_gives = { λ _ e. e ≡ fault.FolderFault };

    fn from(_failed: Failed) -> StepFault {
        StepFault::FolderFault
    }
}
