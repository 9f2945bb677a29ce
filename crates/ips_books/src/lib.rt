//! The account files `etc/passwd`, `etc/shadow` and `etc/group` as lines: what they say of users and groups, and the numbers of
//! owners.
//!
//! Files are read exactly, or the first line that isn't one of its file is told; no byte is lost between a text and its lines.
//!
//! In reading order: the files (`books`), what may be wrong (`fault`), a line (`line`), files as lines (`files`), numbers of
//! names that need no line (`known`), look-ups in lines (`finding`), and lines that are written (`writing`).
#![tactic(auto)]

mod books;
mod fault;
mod files;
mod finding;
mod known;
mod line;
mod writing;

pub use books::{Book, Books};
pub use fault::{AccountFault, Unknown};
pub use files::{Files, lines_of, print_books, read_books};
pub use finding::{is_of_other, place_of};
pub use known::{known_group, known_user};
pub use line::{Line, field, is_kept, is_of, number_in, number_of};
pub use writing::{add, join, members_of, replace, with_members};
