//! The account files behind a request: what is left of each where account files and records say nothing, and what an edit of users and groups makes of
//! that.
mod base;
mod blocked;
mod blocking;
mod changing;
mod editing;
mod fault;
mod given;
mod laws;
mod leaving;
mod left;
mod name;
mod outdated;
mod payload;
mod reading;

pub use base::{BaseFile, base_at};
pub use blocked::Blocked;
pub use blocking::{is_blocked, is_folder_blocked};
pub use changing::replaced;
pub use editing::edit_where;
pub use fault::LedgerFault;
pub use laws::bases_are_what_is_left;
pub use leaving::left_at;
pub use left::Left;
pub use outdated::{Modes, due};
pub use reading::read_left;
