//! Packages in numbers.

/// How many packages a request installs, updates and removes.
#[derive(Clone, Copy, Drop)]
pub struct Counts {
    pub installs: u64,
    pub updates: u64,
    pub removes: u64,
}
