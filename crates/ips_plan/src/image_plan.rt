//! The plan of a request: the steps that bring an image from what its packages meant to what they mean.
//!
//! In reading order: what packages mean (`meant`), the states between which a request goes (`between`), their users and groups (`accounts`) and the account
//! files behind the request (`ledger`), the licenses that are new (`licensing`), the steps (`steps`), all of these together (`behind`), and the words for the
//! image's actuator (`acting`).
mod accounts;
mod acting;
mod behind;
mod between;
mod ledger;
mod licensing;
mod meant;
mod steps;

pub use acting::words_between;
pub use behind::{BehindFault, Planned, plan_behind};
pub use between::Between;
pub use ledger::ledger_behind;
pub use licensing::licenses_between;
pub use meant::meaning;
pub use steps::steps_between;
