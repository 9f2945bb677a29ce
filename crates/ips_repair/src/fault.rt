//! Why an image isn't repaired.

use ips_plan_limits::Excess;
use ips_text::RelPath;

/// Why a repair has no steps.
#[derive(Drop)]
pub enum RepairFault {
    /// This is the first path, by its bytes, at which the repair can't be carried out.
    Unmovable(RelPath),
    /// There are too many steps, or a file that is written has too many bytes.
    TooLarge(Excess),
    /// A call on the folder failed.
    FolderFault,
}
