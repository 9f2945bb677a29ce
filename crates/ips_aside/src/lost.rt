//! Files whose names can't be used beside their paths.

ghost use Rattle.std.specs.Prelude.{◌≡◌};
ghost use Rattle.ips_after.specs.Salvage as salvage;
ghost use Rattle.ips_aside.specs.Lost as spec;

use crate::sides::Put;
use ips_text::RelPath;
use std::cmp::Ordering;

/// The name in the salvage folder of a file that can't be used beside its path.
#[derive(Drop)]
pub struct LostName<'a> {
    /// The path beside which the file is put.
    pub path: &'a RelPath,
    /// The file.
    pub put: Put<'a>,
    /// Its name. It may be too long for a path.
    pub name: Vec<u8>,
}

// A file that goes into the salvage folder.
#[derive(Clone, Copy, Drop)]
pub(crate) struct Lost<'a> {
    pub path: &'a RelPath,
    pub put: Put<'a>,
}

// Which of two names is found first: that of the deeper path, then that of the lesser one.
pub(crate) fn compare(one: &Lost<'_>, other: &Lost<'_>) -> Ordering
    ensures { result ≡ spec.finding_order one.now.path.now.bytes other.now.path.now.bytes }
{
    let by_depth = depth(other.path.bytes()).cmp(&depth(one.path.bytes()));
    by_depth.then(one.path.cmp(other.path))
}

// How many `/` a path has.
fn depth(path: &[u8]) -> usize
    ensures { result ≡ salvage.depth path.now }
{
    path.iter().filter(|byte| **byte == b'/').count()
}
