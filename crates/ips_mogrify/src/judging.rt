//! A text of rules and a manifest.

ghost use Rattle.std.specs.Prelude.{◌↔◌, IsTrue, IfOk, OnOk};
ghost use Rattle.std.specs.List.{AllByRecursion};
ghost use Rattle.ips_text.specs.Reading.{IfBad};
ghost use Rattle.ips_manifest.specs.Manifest.{IsManifestOf, StandsOnLine};
ghost use Rattle.ips_rule.specs.File.{AreRulesOf};
ghost use Rattle.ips_pattern.specs.Pattern.{IsPattern};
ghost use Rattle.ips_transform.specs.Transformed.{HasPatterns, IsUsable, IsPossible};
ghost use Rattle.ips_transform.specs.Output.{rules_of, AreSoundParts, Become};
ghost use Rattle.ips_mogrify.specs.Whole.{Makes, IsFirstBadPattern};
ghost use Rattle.ips_mogrify.specs.Refused.{IsRefused, IsBadText, IsBadManifest, AreBadParts};

use ips_manifest::{Manifest, ManifestFault, manifests_read_back};
use ips_pattern::Pattern;
use ips_rules::{Operation, Rule, RuleLine, Selector, read_rules};
use ips_text::{Or, Text};
use ips_transform::{Parts, lines_of, transformed};
use std::alloc::{AllocError, Global};

/// Why a manifest isn't transformed.
#[derive(Debug, Drop)]
pub enum Refusal {
    /// The line is no rule.
    BadRule { line: u64 },
    /// A pattern of the rule on this line is none.
    BadPattern { line: u64 },
    /// The manifest is none.
    BadManifest { fault: ManifestFault },
    /// The rules make the action on this line into none.
    BadResult { line: u64 },
}

/// The canonical manifest that the rules of a text make of a manifest.
pub fn judged(alloc: Global, rules: &[u8], manifest: &[u8]) -> Result<Text, Or<Refusal>>
    ensures found { IfOk result (Makes rules.now manifest.now) }
    ensures bad { IfBad result (IsRefused rules.now manifest.now) }
{
    let rules = known_rules(alloc, rules)?;
    let manifest = known_manifest(alloc, manifest)?;
    let left = transformed(alloc, &rules, &manifest)?;
    let results = known_results(alloc, left)?;
    manifests_read_back();
    let text = results.print(alloc)?;
    Ok(text)
}

// The rules of a text, each pattern of which is one.
fn known_rules(alloc: Global, text: &[u8]) -> Result<Vec<RuleLine>, Or<Refusal>>
    ensures rules { IfOk result (λ rules. AreRulesOf text.now rules.items) }
    ensures patterns { IfOk result (λ rules. AllByRecursion HasPatterns (rules_of rules.items)) }
    ensures bad { IfBad result (IsBadText text.now) }
{
    let rules = match read_rules(alloc, text) {
        Ok(rules) => rules,
        Err(Or::Bad(line)) => return Err(Or::Bad(Refusal::BadRule { line })),
        Err(Or::OutOfMemory) => return Err(Or::OutOfMemory),
    };
    match check_patterns(alloc, &rules) {
        Ok(()) => Ok(rules),
        Err(Or::Bad(line)) => Err(Or::Bad(Refusal::BadPattern { line })),
        Err(Or::OutOfMemory) => Err(Or::OutOfMemory),
    }
}

// The manifest of a text.
fn known_manifest(alloc: Global, bytes: &[u8]) -> Result<Manifest, Or<Refusal>>
    ensures found { IfOk result (λ manifest. IsManifestOf bytes.now manifest.lines.items) }
    ensures stand { IfOk result (λ manifest. AllByRecursion StandsOnLine manifest.lines.items) }
    ensures bad { IfBad result (IsBadManifest bytes.now) }
{
    match Manifest::read(alloc, bytes) {
        Ok(manifest) => Ok(manifest),
        Err(Or::Bad(fault)) => Err(Or::Bad(Refusal::BadManifest { fault })),
        Err(Or::OutOfMemory) => Err(Or::OutOfMemory),
    }
}

// The manifest that the parts make up.
fn known_results(alloc: Global, left: Vec<Parts>) -> Result<Manifest, Or<Refusal>>
    requires { AllByRecursion AreSoundParts left.items }
    ensures found { IfOk result (λ manifest. Become left.items manifest.lines.items) }
    ensures bad { IfBad result (AreBadParts left.items) }
{
    match lines_of(alloc, left) {
        Ok(lines) => Ok(Manifest { lines }),
        Err(Or::Bad(line)) => Err(Or::Bad(Refusal::BadResult { line })),
        Err(Or::OutOfMemory) => Err(Or::OutOfMemory),
    }
}

// Whether each pattern of the rules is one. A fault is the line of the first rule with one that isn't.
fn check_patterns(alloc: Global, rules: &[RuleLine]) -> Result<(), Or<u64>>
    ensures patterns { OnOk result (AllByRecursion HasPatterns (rules_of rules.now)) }
    ensures bad { IfBad result (IsFirstBadPattern rules.now) }
{
    for line in rules {
        if !has_patterns(alloc, &line.rule)? {
            return Err(Or::Bad(line.number));
        }
    }
    Ok(())
}

// Whether each pattern of a rule is one.
fn has_patterns(alloc: Global, rule: &Rule) -> Result<bool, AllocError>
    ensures { IfOk result (λ all. IsTrue all ↔ HasPatterns rule.now) }
{
    if !are_usable(alloc, &rule.selectors)? {
        return Ok(false);
    }
    is_possible(alloc, &rule.operation)
}

// Whether the pattern of each criterion is one.
fn are_usable(alloc: Global, selectors: &[Selector]) -> Result<bool, AllocError>
    ensures { IfOk result (λ all. IsTrue all ↔ AllByRecursion IsUsable selectors.now) }
{
    for selector in selectors {
        if !is_usable(alloc, selector)? {
            return Ok(false);
        }
    }
    Ok(true)
}

// Whether the pattern of a criterion is one.
fn is_usable(alloc: Global, selector: &Selector) -> Result<bool, AllocError>
    ensures { IfOk result (λ yes. IsTrue yes ↔ IsUsable selector.now) }
{
    match selector {
        Selector::Kind(_) => Ok(true),
        Selector::Criterion { pattern, .. } => is_pattern(alloc, pattern),
    }
}

// Whether the pattern of an operation is one.
fn is_possible(alloc: Global, operation: &Operation) -> Result<bool, AllocError>
    ensures { IfOk result (λ yes. IsTrue yes ↔ IsPossible operation.now) }
{
    match operation {
        Operation::Drop
        | Operation::Add { .. }
        | Operation::Default { .. }
        | Operation::Set { .. } => Ok(true),
        Operation::Delete { pattern, .. } | Operation::Edit { pattern, .. } => {
            is_pattern(alloc, pattern)
        }
    }
}

// Whether the text is a pattern.
fn is_pattern(alloc: Global, text: &Text) -> Result<bool, AllocError>
    ensures { IfOk result (λ yes. IsTrue yes ↔ IsPattern text.now) }
{
    match Pattern::new(alloc, text.as_str()) {
        Ok(_) => Ok(true),
        Err(Or::Bad(_)) => Ok(false),
        Err(Or::OutOfMemory) => Err(AllocError),
    }
}
