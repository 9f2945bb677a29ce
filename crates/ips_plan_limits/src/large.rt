//! Which file has more bytes than it may have.

ghost use Rattle.std.specs.Prelude.{◌≡◌, map, slice_get};
ghost use Rattle.std.specs.Option.{option_map};
ghost use Rattle.ips_steps.specs.View.{step_of};
ghost use Rattle.ips_after.specs.Findings.{is_account_path};
ghost use Rattle.ips_plan_limits.specs.Limits as spec;
ghost use Rattle.ips_plan_limits.specs.Limits.{large_told, lesser_large};

use ips_change::content::is_same;
use ips_journal::Staged;
use ips_steps::Step;
use ips_text::{RelPath, Which, covers};
use std::cmp::Ordering;

/// A file that has more bytes than it may have: its path, and how many.
#[derive(Clone, Copy, Drop)]
pub struct Large<'a> {
    pub path: &'a RelPath,
    pub count: u64,
}

/// The file of the least path, by bytes, that is put with bytes of its own and has more than it may have.
pub fn first_large<'a>(steps: &'a [Step], staged: &[Staged]) -> Option<Large<'a>>
    ensures { option_map large_told result ≡ spec.first_large staged.now (map step_of steps.now) }
{
    let mut least = None;
    for step in steps {
        least = lesser(least, large_of(step, staged));
    }
    least
}

// Of two files the one of the lesser path, else the first.
fn lesser<'a>(found: Option<Large<'a>>, other: Option<Large<'a>>) -> Option<Large<'a>>
    ensures { option_map large_told result ≡ lesser_large (option_map large_told found.entry) (option_map large_told other.entry) }
{
    match (found, other) {
        (Some(a), Some(b)) => Some(lesser_of(a, b)),
        (Some(a), None) => Some(a),
        (None, b) => b,
    }
}

// The same of two that stand.
fn lesser_of<'a>(a: Large<'a>, b: Large<'a>) -> Large<'a>
    ensures { large_told result ≡ spec.lesser_of (large_told a.entry) (large_told b.entry) }
{
    match a.path.cmp(b.path) {
        Ordering::Greater => b,
        _ => a,
    }
}

// The file that the step puts with bytes of its own, if it has more than it may have.
fn large_of<'a>(step: &'a Step, staged: &[Staged]) -> Option<Large<'a>>
    ensures { option_map large_told result ≡ spec.large_of staged.now (step_of step.now) }
{
    match step {
        Step::Put { path, stage, .. } => large_at(path, own_count(staged, *stage)),
        _ => None,
    }
}

// The file of the path, if it has so many bytes of its own, and that is more than it may have.
fn large_at<'a>(path: &'a RelPath, count: Option<u64>) -> Option<Large<'a>>
    ensures { option_map large_told result ≡ spec.large_at path.now.bytes count }
{
    match (count, limit_at(path)) {
        (Some(count), Some(limit)) if count > limit => Some(Large { path, count }),
        _ => None,
    }
}

// How many bytes of its own the content of this number has.
fn own_count(staged: &[Staged], number: u64) -> Option<u64>
    ensures { result ≡ spec.own_count (slice_get staged.now number) }
{
    match staged.get(number as usize) {
        Some(Staged::Bytes(bytes)) => Some(bytes.len() as u64),
        _ => None,
    }
}

// How many bytes a file may have at the path, where there is a limit.
fn limit_at(path: &RelPath) -> Option<u64>
    ensures { result ≡ spec.limit_at path.now.bytes }
{
    if is_account(path.bytes()) {
        Some(16_777_216)
    } else if is_loaded(path.bytes()) {
        Some(67_108_864)
    } else {
        None
    }
}

// Whether the path is at or below `var/pkg`, but for the owners and the drivers.
#[tactic(auto, unfolding(ips_steps::specs::Private::records_name))]
fn is_loaded(path: &[u8]) -> bool
    ensures { result ≡ spec.is_loaded_path path.now }
{
    covers(b"var/pkg", path)
        && !(is_same(b"var/pkg/owners", path) || is_same(b"var/pkg/drivers", path))
}

/// What there is too much of where a file at the path is too large.
pub fn which_at(path: &RelPath) -> Which
    ensures { result ≡ spec.which_at path.now.bytes }
{
    if is_account(path.bytes()) {
        Which::AccountBytes
    } else {
        Which::ImageFileBytes
    }
}

// Whether the path is that of an account file.
fn is_account(path: &[u8]) -> bool
    ensures { result ≡ is_account_path path.now }
{
    is_same(b"etc/passwd", path) || is_same(b"etc/shadow", path) || is_same(b"etc/group", path)
}
