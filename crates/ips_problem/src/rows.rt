//! What is known of the stems in reach, and their tests.

use ips_depend::Test;
use ips_fmri::Version;
use ips_request::Read;

/// What is known of a stem in reach.
#[derive(Drop)]
pub struct Row {
    /// The version at which it is installed before the request.
    pub before: Option<Version>,
    /// No group dependency asks for it.
    pub spared: bool,
    /// The versions whose manifests were read.
    pub reads: Vec<Read>,
    /// The candidates in order, by the numbers of the versions; absence is None.
    pub candidates: Vec<Option<usize>>,
}

/// A dependency of a candidate, as a test.
#[derive(Drop)]
pub struct Numbered {
    /// The number of the stem.
    pub stem: u32,
    /// The number of the candidate.
    pub candidate: u32,
    /// The dependency.
    pub test: Test,
}

/// The stems that a test mentions, by their numbers.
#[derive(Drop)]
pub struct Numbers {
    /// By the place of an FMRI among those that the dependency mentions, the number of its stem, where it is in reach.
    pub mentioned: Vec<Option<u32>>,
    /// The greatest of these and of the test's own stem.
    pub last: u32,
}
