//! Equal reasons in a row.

ghost use Rattle.std.specs.Prelude.{◌≡◌, ◌++◌, IfOk, OnOk, replicate};
ghost use Rattle.ips_refute.specs.Text as text;
ghost use Rattle.ips_refute.specs.Text.{most, reasons_of};

use crate::nogoods::Reason;
use std::alloc::{AllocError, Global};

/// A reason, so many times in a row.
#[derive(Clone, Copy)]
pub struct Run {
    /// The reason.
    pub reason: Reason,
    /// How often it stands in a row.
    pub count: u32,
}

/// The most equal reasons that are written as one.
pub const MOST: u32 = 200_002;

/// Whether the reasons are one.
pub fn is_same(reason: Reason, other: Reason) -> bool
    ensures { result ≡ text.is_same reason other }
{
    match (reason, other) {
        (Reason::Test(test), Reason::Test(other)) => test == other,
        (Reason::Earlier(nogood), Reason::Earlier(other)) => nogood == other,
        _ => false,
    }
}

/// The reasons of the runs, one after the other.
pub fn expanded(alloc: Global, runs: &[Run]) -> Result<Vec<Reason>, AllocError>
    ensures { IfOk result (λ reasons. reasons.items ≡ reasons_of runs.now) }
{
    let mut reasons = Vec::new(alloc);
    for run in runs {
        push_run(&mut reasons, *run)?;
    }
    Ok(reasons)
}

// Puts the reason of a run behind others, as often as it stands in a row.
fn push_run(reasons: &mut Vec<Reason>, run: Run) -> Result<(), AllocError>
    ensures { OnOk result (reasons.new.items ≡ reasons.old.items ++ replicate run.count run.reason) }
{
    for _count in 0..run.count {
        reasons.push(run.reason)?;
    }
    Ok(())
}
