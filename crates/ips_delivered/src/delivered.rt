//! What packages deliver besides what is wanted: owners, drivers, licenses and legacy packages, as records that are due.
//!
//! In reading order: the admitted actions (`admitting`), the values of attributes (`attribute`), which owner is unknown (`unknown`), the owner of each path
//! (`owners`), licenses and legacy packages (`named`), their records (`recording`), all that is delivered (`delivering`), and laws (`laws`).
mod admitting;
mod attribute;
mod delivering;
mod laws;
mod named;
mod owners;
mod recording;
mod unknown;

pub use admitting::admitted;
pub use attribute::value;
pub use delivering::delivered;
pub use laws::{names_are_one, owners_are_apart};
pub use named::{Legacy, License, Named, delivered_names, is_license, license_of, licenses};
pub use unknown::UnknownOwner;
