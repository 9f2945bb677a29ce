//! Why not all of it is written.

use ips_text::Text;

/// Why directories and contents aren't all written and safe. Some may be written.
#[derive(Drop)]
pub enum BesideFault {
    /// A content isn't the file any more that it was when its name was taken.
    Lost {
        /// The text that names it.
        text: Text,
    },
    /// A call on the folder of what is published failed.
    SourceFault,
    /// A call on the repository failed.
    FolderFault,
}
