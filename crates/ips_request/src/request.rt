//! Requests.

use ips_fmri::Pattern;

/// What is to be done with the packages of an image (pkg(1)).
#[derive(Drop)]
pub enum Request {
    /// What the patterns name is to be there, at a version that they admit; what is rejected is to be absent.
    Install {
        /// The patterns.
        patterns: Vec<Pattern>,
        /// The patterns of what is rejected.
        reject: Vec<Pattern>,
    },
    /// What the patterns name, or every installed package where there are none, is to be as new as can be.
    Update {
        /// The patterns.
        patterns: Vec<Pattern>,
        /// The patterns of what is rejected.
        reject: Vec<Pattern>,
    },
    /// What the patterns name is to be absent.
    Uninstall {
        /// The patterns.
        patterns: Vec<Pattern>,
    },
    /// The selection is to stay, under other settings, freezes or mediators.
    Keep,
}
