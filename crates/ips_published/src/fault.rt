//! Why nothing is published.

use ips_judged::Refusal;
use ips_text::Text;

/// Why a package isn't published.
#[derive(Drop)]
pub enum PublishFault {
    /// It is refused, before anything is written.
    Refused {
        /// The cause.
        refusal: Refusal,
    },
    /// A content isn't the file any more that it was when its digest was taken. Some contents may be written, and nothing is put.
    Lost {
        /// The text that names it.
        text: Text,
    },
    /// A call on the folder of what is published failed. Some contents may be written, and nothing is put.
    SourceFault,
    /// A call on the repository failed.
    FolderFault {
        /// Whether the gate may stand open, and a recovery has to go on; else nothing is put.
        unfinished: bool,
    }, /// The journal that was made for the manifest and the catalog can't be read any more: the gate may stand open. A folder that keeps what
    /// was written never leads to it.
    BadJournal {
        /// The number of the line, from 1.
        line: u64,
    },
}
