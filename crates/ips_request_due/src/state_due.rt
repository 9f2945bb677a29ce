//! The records of a state, and others behind them, as records that are due: each is made when it is asked for. In whatever order they stand, they mean
//! the same.
mod laws;
mod records;

pub use laws::places_mean_the_records;
pub use records::StateRecords;
