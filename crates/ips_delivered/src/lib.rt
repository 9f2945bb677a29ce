//! The records of what packages deliver besides what is wanted at paths, and what of them goes with a request.
//!
//! In reading order, each with its own contracts: owners, drivers, licenses and legacy packages (`delivered`), what goes (`withdrawn`), and the licenses that
//! are newly delivered (`new_licenses`).
#![tactic(auto)]

pub mod delivered;
pub mod new_licenses;
pub mod withdrawn;
