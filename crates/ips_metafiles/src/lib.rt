//! The texts of the records that tell of owners, drivers, legacy packages and licenses, exactly.
#![tactic(auto)]

mod driver;
mod legacy;
mod license;
mod owner;

pub use driver::drivers;
pub use legacy::pkginfo;
pub use license::license_path;
pub use owner::{OwnerRow, owners};
