//! Laws of records: where an image holds a state and a request or a repair is carried out, the image after it holds just the new state, if no record of that is too
//! large and it keeps an index; so the next run can load no other. So does an image that is made with a state.
//!
//! In reading order: creations (`creations`), requests (`requests`) and repairs (`repairs`).
mod creations;
mod repairs;
mod requests;

pub use creations::records_of_creations_read_back;
pub use repairs::records_of_repairs_read_back;
pub use requests::records_of_requests_read_back;
