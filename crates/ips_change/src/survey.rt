//! All paths that a request is about, as rows by their bytes: what was and what is wanted at each, what stands there, and what account files and
//! records say of it.
//!
//! `survey` merges what was and what is wanted, and looks once at each path of which a rule asks what stands there; `merge` adds the paths that account
//! files and records name. Marks stand beside rows, one for each. In reading order: a path with both entries (`pair`), with what stands there too
//! (`row`), and all of them (`surveying`); the row of a path (`placing`), whether a mark stands at or above a path (`reaching`) or below it (`below`), and
//! the marks of directories that go with all below them (`top`); what is said of a path (`said`), the next of rows and of paths that are spoken of (`next`),
//! the table of all paths with what is said of each (`table`, `merging`), what kind stands at a row's path (`kind`), and that what a survey found are rows of a
//! request (`laws`).
mod below;
mod kind;
mod laws;
mod merging;
mod next;
mod pair;
mod placing;
mod reaching;
mod row;
mod said;
mod surveying;
mod table;
mod top;

pub use below::{mark, marked_below};
pub use kind::{is_dir_at, is_file_at};
pub use laws::surveyed_rows_are_of_the_request;
pub use merging::merge;
pub use placing::place;
pub use reaching::{is_marked, is_reached};
pub use row::Row;
pub use said::{Said, Spoken};
pub use surveying::survey;
pub use table::Table;
pub use top::{is_top, tops};
