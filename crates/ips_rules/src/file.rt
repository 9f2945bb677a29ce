//! Files of rules.

ghost use Rattle.std.specs.Prelude.{◌≡◌, ◌++◌, ◌+◌, ◌<◌, ◌^◌, false, length, IfOk, OnOk};
ghost use Rattle.ips_manifest.specs.declared.fault.ManifestFault.{ManifestFault};
ghost use Rattle.ips_manifest.specs.Next.{IsNext, IsUnreadable};
ghost use Rattle.ips_manifest.specs.Seen.{held_text};
ghost use Rattle.ips_text.specs.Reading.{IfBad};
ghost use Rattle.ips_manifest.specs.Logical as spec;
ghost use Rattle.ips_rule.specs.File.{AreRulesOf, IsFirstBad, Said, lines_for};
ghost use Rattle.ips_rule.specs.Rules as grammar;

use crate::reading::read_rule;
use ips_manifest::{Held, ManifestFault, Remaining, is_skipped, next_logical};
use ips_rule::{Rule, RuleLine};
use ips_text::Or;
use std::alloc::{AllocError, Global};

/// The rules of a file, which has to be all of the bytes: UTF-8 text, one rule a line. A line that ends with a backslash goes on
/// with the next. Lines that are empty, blank, or begin with `#` behind blanks are skipped. A fault is the number of the first
/// line that is no rule: of its first physical line that isn't UTF-8, where there is one, and else of its first physical line.
pub fn read_rules(alloc: Global, bytes: &[u8]) -> Result<Vec<RuleLine>, Or<u64>>
    ensures found { IfOk result (λ rules. AreRulesOf bytes.now rules.items) }
    ensures bad { IfBad result (λ number. IsFirstBad (spec.lines_of bytes.now) number) }
{
    let mut rules = Vec::new(alloc);
    let mut rest = Remaining { number: 1, bytes };
    while !rest.bytes.is_empty() {
        let (text, behind) = next_text(alloc, rest)?;
        let rule = rule_at(alloc, rest.number, text.as_str())?;
        add(&mut rules, rest.number, rule)?;
        rest = behind;
    }
    Ok(rules)
}

// The next logical line, and what stands behind it. A fault is the number of its first physical line that isn't UTF-8.
fn next_text<'a>(alloc: Global, rest: Remaining<'a>) -> Result<(Held<'a>, Remaining<'a>), Or<u64>>
    requires some { 0 < length rest.bytes.now }
    requires room { rest.number + length rest.bytes.now < 2 ^ 64 }
    ensures found { IfOk result (λ x. IsNext rest.entry.number rest.entry.bytes.now (held_text x.0) x.1.number x.1.bytes.now) }
    ensures bad { IfBad result (λ line. (fault : ManifestFault) × IsUnreadable rest.entry.number rest.entry.bytes.now fault × (line ≡ fault.line)) }
{
    match next_logical(alloc, rest) {
        Ok(found) => Ok(found),
        Err(Or::Bad(ManifestFault { line, .. })) => Err(Or::Bad(line)),
        Err(Or::OutOfMemory) => Err(Or::OutOfMemory),
    }
}

// The rule that a logical line of this number says, and none where the line is skipped.
fn rule_at(alloc: Global, number: u64, text: &str) -> Result<Option<Rule>, Or<u64>>
    ensures found { IfOk result (λ rule. Said text.now rule) }
    ensures bad { IfBad result (λ line. (line ≡ number) × (spec.is_skipped text.now ≡ false) × ((rule : grammar.Rule) → grammar.Says rule text.now → ⊥)) }
{
    if is_skipped(text) {
        return Ok(None);
    }
    match read_rule(alloc, text)? {
        Some(rule) => Ok(Some(rule)),
        None => Err(Or::Bad(number)),
    }
}

// Adds a rule, where there is one, as a line of this number.
fn add(rules: &mut Vec<RuleLine>, number: u64, rule: Option<Rule>) -> Result<(), AllocError>
    ensures { OnOk result (rules.new.items ≡ rules.old.items ++ lines_for number rule) }
{
    if let Some(rule) = rule {
        rules.push(RuleLine { number, rule })?;
    }
    Ok(())
}
