//! Why an image isn't made.

use ips_plan_limits::Excess;
use ips_text::RelPath;

/// Why there are no steps that make an image.
#[derive(Drop)]
pub enum CreateFault {
    /// At this path the image can't be made; a folder that tells what it holds has no such path.
    Unmovable(RelPath),
    /// There are too many steps, or a file that is written has too many bytes.
    TooLarge(Excess),
    /// A call on the folder failed.
    FolderFault,
}
