//! The records of a state: where each stands, and what it holds, one at a time.
//!
//! All places of a state are told at once, by the bytes of their paths, and the text of each is made when it is asked for, so
//! that no more than one is held. In reading order: parts of a state (`part`), their places (`placing`), their texts (`texts`), all
//! of them (`collecting`), and that they read back (`laws`).
#![tactic(auto)]

mod collecting;
mod laws;
mod part;
mod placing;
mod texts;

pub use collecting::{record_at, records};
pub use laws::{one_state_is_held, records_are_one, records_read_back};
pub use part::{Part, Place};
pub use placing::places;
pub use texts::text_of;
