//! How many names one file gets.

ghost use Rattle.std.specs.Prelude.{◌≡◌, ℕ, ◌+◌, ◌^◌, [], ◌∷◌, ◌++◌, ◌<◌, ◌≤◌, List, cond, max, IfOk, OnOk, length, map};
ghost use Rattle.std.specs.Ordering.{nat_cmp};
ghost use Rattle.std.specs.List.Sorted.{IsSorted};
ghost use Rattle.std.specs.Option.{option_map};
ghost use Rattle.std.specs.Cmp.Lexicographic.{slice_cmp};
ghost use Rattle.ips_steps.specs.View.{step_of};
ghost use Rattle.ips_plan_limits.specs.Names as spec;

use ips_change::content::is_same;
use ips_steps::Step;
use std::alloc::{AllocError, Global};

/// The most names that one file gets by the steps: its own, and the hard links to it.
pub fn most_names(alloc: Global, steps: &[Step]) -> Result<u64, AllocError>
    ensures { IfOk result (λ count. count ≡ spec.most_names (map step_of steps.now)) }
{
    let mut targets = Vec::new(alloc);
    gather(steps, &mut targets)?;
    targets.sort()?;
    Ok(most_times(&targets) + 1)
}

// Adds the targets of the hard links among the steps.
fn gather<'a>(steps: &'a [Step], targets: &mut Vec<&'a [u8]>) -> Result<(), AllocError>
    ensures { OnOk result (map (λ t. t.now) targets.new.items ≡ map (λ t. t.now) targets.old.items ++ spec.targets_of (map step_of steps.now)) }
{
    for step in steps {
        add(step, targets)?;
    }
    Ok(())
}

// Adds the target of the step, where it is a hard link.
fn add<'a>(step: &'a Step, targets: &mut Vec<&'a [u8]>) -> Result<(), AllocError>
    ensures { OnOk result (map (λ t. t.now) targets.new.items ≡ map (λ t. t.now) targets.old.items ++ spec.targets_of (step_of step.now ∷ [])) }
{
    if let Step::Hard { to, .. } = step {
        targets.push(to.bytes())?;
    }
    Ok(())
}

// How often the one stands that stands most often, among sorted paths. They are counted from the last one on.
fn most_times(paths: &[&[u8]]) -> u64
    requires { IsSorted (λ a b. slice_cmp nat_cmp a.now b.now) paths.now }
    ensures most { result ≡ spec.most_times (map (λ p. p.now) paths.now) }
    ensures few { result ≤ length paths.now }
{
    let mut most = 0;
    let mut run = 0;
    let mut next = None;
    let mut at = paths.len();
    while at > 0 {
        at -= 1;
        let path = paths[at];
        run = run_from(path, next, run);
        most = greater(most, run);
        next = Some(path);
    }
    most
}

// How often the path stands from here on, where the next one stands so often from there on.
fn run_from(path: &[u8], next: Option<&[u8]>, run: u64) -> u64
    requires { run + 1 < 2 ^ 64 }
    ensures { result ≡ 1 + cond (spec.is_next path.now (option_map (λ n. n.now) next.entry)) run 0 }
{
    match next {
        Some(next) if is_same(path, next) => run + 1,
        _ => 1,
    }
}

// The greater of the two.
fn greater(a: u64, b: u64) -> u64
    ensures { result ≡ max a b }
{
    if a < b { b } else { a }
}
