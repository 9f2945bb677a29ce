//! The command `gen`.

ghost use Rattle.std.specs.Prelude.{◌≤◌, IsTrue};
ghost use Rattle.ips_steps.specs.declared.step.Sort.{Sort};
ghost use Rattle.ips_kinds.specs.Tallies.{seen_by, taken};
ghost use Rattle.ips_trial.specs.Generated.{IsTried};
ghost use Rattle.ips_asked.specs.Formed.{IsFormedCommand};

use ips_kinds::Kind;
use ips_operations::changing::Changing;
use ips_operations::creating::Creating;
use ips_report::Outcome;
use ips_showing::Showing;
use ips_trial::{command_of, tried};
use ips_words::Command;
use std::alloc::Global;

/// The moment of its commands: the beginning of the year 2024.
const MOMENT: u64 = 1_704_067_200;

/// Makes a repository of so many packages and of `all`, which requires them; then makes an image, installs `all` and verifies it, in memory. Answers the summary, or that
/// memory is wanted. Each sort of step has to have a kind that takes it.
pub(crate) fn generated(alloc: Global, number: u64, kinds: &mut Vec<Box<dyn Kind>>) -> Outcome
    requires some { 1 ≤ number }
    requires few { number ≤ 2000 }
    requires takers { (s : Sort) → IsTrue (taken (seen_by sorts finished kinds.old.items) s) }
    ensures { IsTried number (seen_by sorts finished kinds.old.items) (seen_by sorts finished kinds.new.items) result }
{
    let Some(making) = command_of(alloc, "-R image -s repository image-create -p gen") else {
        return Outcome::OutOfMemory;
    };
    generated_by(alloc, number, &making, kinds)
}

// The same, where this command makes the image. (What is owned by one function alone is dropped on few ways.)
fn generated_by(
    alloc: Global,
    number: u64,
    making: &Command,
    kinds: &mut Vec<Box<dyn Kind>>,
) -> Outcome
    requires making { IsFormedCommand making.now }
    requires some { 1 ≤ number }
    requires few { number ≤ 2000 }
    requires takers { (s : Sort) → IsTrue (taken (seen_by sorts finished kinds.old.items) s) }
    ensures { IsTried number (seen_by sorts finished kinds.old.items) (seen_by sorts finished kinds.new.items) result }
{
    let Some(installing) = command_of(alloc, "-R image -s repository install all") else {
        return Outcome::OutOfMemory;
    };
    tried_by(alloc, number, making, &installing, kinds)
}

// The same, where this one installs the package that requires all others.
fn tried_by(
    alloc: Global,
    number: u64,
    making: &Command,
    installing: &Command,
    kinds: &mut Vec<Box<dyn Kind>>,
) -> Outcome
    requires making { IsFormedCommand making.now }
    requires installing { IsFormedCommand installing.now }
    requires some { 1 ≤ number }
    requires few { number ≤ 2000 }
    requires takers { (s : Sort) → IsTrue (taken (seen_by sorts finished kinds.old.items) s) }
    ensures { IsTried number (seen_by sorts finished kinds.old.items) (seen_by sorts finished kinds.new.items) result }
{
    let Some(creating) = Creating::of(making, MOMENT) else {
        return Outcome::OutOfMemory;
    };
    tried_over(alloc, number, &creating, installing, kinds)
}

// The same, where this operation makes the image.
fn tried_over(
    alloc: Global,
    number: u64,
    creating: &Creating<'_>,
    installing: &Command,
    kinds: &mut Vec<Box<dyn Kind>>,
) -> Outcome
    requires installing { IsFormedCommand installing.now }
    requires some { 1 ≤ number }
    requires few { number ≤ 2000 }
    requires takers { (s : Sort) → IsTrue (taken (seen_by sorts finished kinds.old.items) s) }
    ensures { IsTried number (seen_by sorts finished kinds.old.items) (seen_by sorts finished kinds.new.items) result }
{
    let Some(changing) = Changing::of(installing, MOMENT) else {
        return Outcome::OutOfMemory;
    };
    tried(alloc, number, creating, &changing, &Showing::Verify, kinds)
}
