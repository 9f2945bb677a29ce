//! Why a list of steps isn't staged.

use ips_digest::PayloadName;
use ips_repo::RepoFault;

/// Why a list of steps isn't staged. The image that is seen is as before.
#[derive(Drop)]
pub enum StageFault {
    /// A payload isn't intact.
    Payload {
        /// The payload's name.
        name: PayloadName,
        /// What is wrong: it is missing, too large, damaged or compressed.
        fault: RepoFault,
    },
    /// A call on the repository failed.
    SourceFault,
    /// A call on the folder failed.
    FolderFault,
}
