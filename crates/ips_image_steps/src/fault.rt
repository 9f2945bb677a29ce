//! Why there are no steps.

use ips_text::RelPath;

/// Why there are no steps.
#[derive(Drop)]
pub enum StepsFault {
    /// This is the first path, by its bytes, at which the request can't be carried out: there a thing is to be salvaged that no step can make again
    /// or whose name would be too long, a directory with names that are no paths would go unsaved, or a file is put beside it whose name would be
    /// too long.
    Unmovable(RelPath),
    /// A call on the folder failed.
    FolderFault,
}
