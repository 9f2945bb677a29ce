//! The whole, and its summary.

ghost use Rattle.std.specs.Prelude.{◌≡◌, ◌≤◌, ◌++◌, Bool, IfOk, IfSome, IsTrue, OnOk, string_bytes};
ghost use Rattle.std.specs.Fmt.{decimal};
ghost use Rattle.ips_outside.specs.Image.{Image};
ghost use Rattle.ips_steps.specs.declared.step.Sort.{Sort};
ghost use Rattle.ips_kinds.specs.Tallies.{seen_by, taken};
ghost use Rattle.ips_report.specs.declared.outcome.Outcome.{Outcome as OutcomeMeant};
ghost use Rattle.ips_report.specs.declared.outcome.Outcome.TheVariants.{Shown};
ghost use Rattle.ips_run.specs.declared.operation.Decision.{Decision};
ghost use Rattle.ips_tell.specs.told.Laying.{TellsItsSteps};
ghost use Rattle.ips_trial.specs.Generated.{IsTried, summary_text};

use crate::trying::{carry_out, findings};
use crate::world::World;
use ips_kinds::Kind;
use ips_report::Outcome;
use ips_run::Operation;
use ips_text::Text;
use std::alloc::{AllocError, Global};

/// Makes a repository of so many packages and of `all`, which requires them; then carries out what makes an image, what installs `all` and what verifies the
/// image, in memory. Answers the summary, or that memory is wanted. The first two have to tell their steps, and each sort of step has to have a kind that takes it.
pub fn tried<M: Operation<Outcome>, I: Operation<Outcome>, V: Operation<Outcome>>(
    alloc: Global,
    number: u64,
    making: &M,
    installing: &I,
    verifying: &V,
    kinds: &mut Vec<Box<dyn Kind>>,
) -> Outcome
    requires some { 1 ≤ number }
    requires few { number ≤ 2000 }
    requires takers { (s : Sort) → IsTrue (taken (seen_by sorts finished kinds.old.items) s) }
    requires makes { (tells : Bool) (repository t : Image) (d : Decision OutcomeMeant) → M.decides making.now tells repository t d → TellsItsSteps d }
    requires installs { (tells : Bool) (repository t : Image) (d : Decision OutcomeMeant) → I.decides installing.now tells repository t d → TellsItsSteps d }
    ensures { IsTried number (seen_by sorts finished kinds.old.items) (seen_by sorts finished kinds.new.items) result }
{
    let Ok(mut world) = World::new(alloc, number) else {
        return Outcome::OutOfMemory;
    };
    tried_in(
        alloc, number, making, installing, verifying, &mut world, kinds,
    )
}

// The same in this world, which holds the repository and an empty folder.
fn tried_in<M: Operation<Outcome>, I: Operation<Outcome>, V: Operation<Outcome>>(
    alloc: Global,
    number: u64,
    making: &M,
    installing: &I,
    verifying: &V,
    world: &mut World,
    kinds: &mut Vec<Box<dyn Kind>>,
) -> Outcome
    requires few { number ≤ 2000 }
    requires takers { (s : Sort) → IsTrue (taken (seen_by sorts finished kinds.old.items) s) }
    requires makes { (tells : Bool) (repository t : Image) (d : Decision OutcomeMeant) → M.decides making.now tells repository t d → TellsItsSteps d }
    requires installs { (tells : Bool) (repository t : Image) (d : Decision OutcomeMeant) → I.decides installing.now tells repository t d → TellsItsSteps d }
    ensures { IsTried number (seen_by sorts finished kinds.old.items) (seen_by sorts finished kinds.new.items) result }
{
    match summary_of(alloc, number, making, installing, verifying, world, kinds) {
        Some(text) => Outcome::Shown { text },
        None => Outcome::OutOfMemory,
    }
}

// The summary of what the operations came to in this world; None where they didn't come to what the packages
// mean.
fn summary_of<M: Operation<Outcome>, I: Operation<Outcome>, V: Operation<Outcome>>(
    alloc: Global,
    number: u64,
    making: &M,
    installing: &I,
    verifying: &V,
    world: &mut World,
    kinds: &mut Vec<Box<dyn Kind>>,
) -> Option<Text>
    requires few { number ≤ 2000 }
    requires takers { (s : Sort) → IsTrue (taken (seen_by sorts finished kinds.old.items) s) }
    requires makes { (tells : Bool) (repository t : Image) (d : Decision OutcomeMeant) → M.decides making.now tells repository t d → TellsItsSteps d }
    requires installs { (tells : Bool) (repository t : Image) (d : Decision OutcomeMeant) → I.decides installing.now tells repository t d → TellsItsSteps d }
    ensures { IfSome result (λ text. IsTried number (seen_by sorts finished kinds.old.items) (seen_by sorts finished kinds.new.items) (Shown text)) }
{
    let made = carry_out(alloc, making, world, kinds)?;
    let all = carry_out(alloc, installing, world, kinds)?;
    let findings = findings(alloc, verifying, world, kinds)?;
    if made.steps != 10
        || all.packages != number + 1
        || all.steps != 3 * number + 4
        || findings != 0
    {
        return None;
    }
    match summary(alloc, number, all.packages, all.steps, findings) {
        Ok(text) => Some(text),
        Err(AllocError) => None,
    }
}

// The line of the summary.
fn summary(
    alloc: Global,
    number: u64,
    packages: u64,
    steps: u64,
    findings: u64,
) -> Result<Text, AllocError>
    ensures { IfOk result (λ text. text ≡ summary_text number packages steps findings) }
{
    let mut line = String::new(alloc);
    push(&mut line, "gen ", number)?;
    push(&mut line, ": packages ", packages)?;
    push(&mut line, ", steps ", steps)?;
    push(&mut line, ", findings ", findings)?;
    line.push_str("\n")?;
    Ok(Text::from_string(line))
}

// Writes a text, and a number behind it.
fn push(out: &mut String, text: &str, number: u64) -> Result<(), AllocError>
    ensures { OnOk result (string_bytes out.new ≡ string_bytes out.old ++ text.now ++ decimal number) }
{
    out.push_str(text)?;
    write!(out, "{number}")?;
    Ok(())
}
