//! The words that the actuator is run with before and after a change.

ghost use Rattle.std.specs.Prelude.{◌≡◌, ◌++◌, ◌∷◌, [], IfOk, OnOk, MatchOption, codes};
ghost use Rattle.std.specs.List.Sorted.{IsStrictlySortedBy};
ghost use Rattle.std.specs.Ordering.{nat_cmp};
ghost use Rattle.std.specs.Cmp.Lexicographic.{slice_cmp};
ghost use Rattle.ips_actuate.specs.Actuators.{AreWords, runs};

use crate::run::Words;
use crate::services::{Services, services_of};
use ips_action::Action;
use ips_text::Text;
use std::alloc::{AllocError, Global};
use std::collections::BTreeSet;

/// The words that the actuator is run with before and after a change from the old actions to the new ones: none without a
/// program.
pub fn words(
    alloc: Global,
    old: &[Action],
    new: &[Action],
    program: Option<&Text>,
) -> Result<(Vec<Words>, Vec<Words>), AllocError>
    ensures { IfOk result (λ lists. MatchOption program.entry ((lists.0.items ≡ []) × (lists.1.items ≡ [])) (λ p. AreWords p.now old.now new.now lists.0.items lists.1.items)) }
{
    match program {
        Some(program) => words_of(alloc, old, new, program),
        None => Ok((Vec::new(alloc), Vec::new(alloc))),
    }
}

fn words_of(
    alloc: Global,
    old: &[Action],
    new: &[Action],
    program: &Text,
) -> Result<(Vec<Words>, Vec<Words>), AllocError>
    ensures { IfOk result (λ lists. AreWords program.now old.now new.now lists.0.items lists.1.items) }
{
    let services = services_of(alloc, old, new)?;
    lists(alloc, program, &services)
}

// The lists before and after.
fn lists(
    alloc: Global,
    program: &Text,
    services: &Services,
) -> Result<(Vec<Words>, Vec<Words>), AllocError>
    ensures before { IfOk result (λ lists. lists.0.items ≡ runs program.now (codes "disable") services.now.disabled.keys ++ runs program.now (codes "suspend") services.now.suspended.keys) }
    ensures after { IfOk result (λ lists. lists.1.items ≡ runs program.now (codes "enable") services.now.suspended.keys ++ (runs program.now (codes "refresh") services.now.refreshed.keys ++ runs program.now (codes "restart") services.now.restarted.keys)) }
    ensures disabled { IfOk result (λ _. IsStrictlySortedBy (slice_cmp nat_cmp) services.now.disabled.keys) }
    ensures suspended { IfOk result (λ _. IsStrictlySortedBy (slice_cmp nat_cmp) services.now.suspended.keys) }
    ensures refreshed { IfOk result (λ _. IsStrictlySortedBy (slice_cmp nat_cmp) services.now.refreshed.keys) }
    ensures restarted { IfOk result (λ _. IsStrictlySortedBy (slice_cmp nat_cmp) services.now.restarted.keys) }
{
    let mut before = Vec::new(alloc);
    push_runs(alloc, &mut before, program, "disable", &services.disabled)?;
    push_runs(alloc, &mut before, program, "suspend", &services.suspended)?;
    let after = after(alloc, program, services)?;
    Ok((before, after))
}

fn after(alloc: Global, program: &Text, services: &Services) -> Result<Vec<Words>, AllocError>
    ensures after { IfOk result (λ list. list.items ≡ runs program.now (codes "enable") services.now.suspended.keys ++ (runs program.now (codes "refresh") services.now.refreshed.keys ++ runs program.now (codes "restart") services.now.restarted.keys)) }
    ensures refreshed { IfOk result (λ _. IsStrictlySortedBy (slice_cmp nat_cmp) services.now.refreshed.keys) }
    ensures restarted { IfOk result (λ _. IsStrictlySortedBy (slice_cmp nat_cmp) services.now.restarted.keys) }
{
    let mut list = Vec::new(alloc);
    push_runs(alloc, &mut list, program, "enable", &services.suspended)?;
    push_runs(alloc, &mut list, program, "refresh", &services.refreshed)?;
    push_runs(alloc, &mut list, program, "restart", &services.restarted)?;
    Ok(list)
}

// Adds a run with the verb for each service, by bytes.
fn push_runs(
    alloc: Global,
    list: &mut Vec<Words>,
    program: &Text,
    verb: &str,
    services: &BTreeSet<Text>,
) -> Result<(), AllocError>
    ensures runs { OnOk result (list.new.items ≡ list.old.items ++ runs program.now verb.now services.now.keys) }
    ensures order { IsStrictlySortedBy (slice_cmp nat_cmp) services.now.keys }
{
    for service in services {
        list.push(Words::run(alloc, program, verb, service)?)?;
    }
    Ok(())
}
