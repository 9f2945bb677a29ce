//! What of a plan is beyond its limit.

ghost use Rattle.std.specs.Prelude.{◌≡◌, IfOk, map};
ghost use Rattle.ips_steps.specs.View.{step_of};
ghost use Rattle.ips_plan_limits.specs.Limits as spec;

use crate::large::{first_large, which_at};
use crate::names::most_names;
use ips_journal::Staged;
use ips_steps::Step;
use ips_text::Which;
use std::alloc::{AllocError, Global};

/// What is beyond its limit, and how many there are: steps, or bytes of a file.
#[derive(Clone, Copy, Drop)]
pub struct Excess {
    /// What there is too much of.
    pub which: Which,
    /// How many.
    pub count: u64,
}

/// What of a plan is beyond its limit: its steps, of which there may be 4,000,000; else the names that one file gets by hard links, with its own, of
/// which there may be 32,000, as some file systems take; or else the first file, by the bytes of its path, that is put with bytes of its own and has more
/// than it may have. An account file may have 16 MiB, a record that an image is loaded from 64 MiB; owners, drivers and what stands elsewhere have no limit.
pub fn first_excess(
    alloc: Global,
    steps: &[Step],
    staged: &[Staged],
) -> Result<Option<Excess>, AllocError>
    ensures { IfOk result (λ excess. excess ≡ spec.first_excess (map step_of steps.now) staged.now) }
{
    let count = steps.len() as u64;
    if count > 4_000_000 {
        return Ok(Some(Excess {
            which: Which::Steps,
            count,
        }));
    }
    let count = most_names(alloc, steps)?;
    if count > 32_000 {
        return Ok(Some(Excess {
            which: Which::Names,
            count,
        }));
    }
    Ok(large_excess(steps, staged))
}

// The first file that is too large.
fn large_excess(steps: &[Step], staged: &[Staged]) -> Option<Excess>
    ensures { result ≡ spec.large_excess (map step_of steps.now) staged.now }
{
    match first_large(steps, staged) {
        Some(file) => Some(Excess {
            which: which_at(file.path),
            count: file.count,
        }),
        None => None,
    }
}
