//! One rule.

ghost use Rattle.std.specs.Prelude.{◌≡◌, List, ℕ, IfOk, IfSome, IfNone, MatchOption, ◌++◌};
ghost use Rattle.ips_rule.specs.declared.operation.Operation as declared;
ghost use Rattle.ips_rule.specs.Rules as spec;
ghost use Rattle.ips_rule.specs.Rules.{IsRule, IsOperation, operation_words, AreDone, IsInside, Says, rule_front, rule_end};

use crate::operating::read_operation;
use crate::selecting::selectors;
use crate::words::words;
use ips_rule::{Operation, Rule};
use std::alloc::{AllocError, Global};

/// The rule that the text of a logical line says, or None where it says none.
pub fn read_rule(alloc: Global, line: &str) -> Result<Option<Rule>, AllocError>
    ensures found { IfOk result (λ found. IfSome found (λ rule. Says rule line.now)) }
    ensures none { IfOk result (λ found. IfNone found ((rule : spec.Rule) → Says rule line.now → ⊥)) }
{
    match inside(line) {
        Some(inside) => read_inside(alloc, inside),
        None => Ok(None),
    }
}

// What stands between `<transform` and `>`.
fn inside(line: &str) -> Option<&str>
    ensures { MatchOption result ((inside : List ℕ) → line.now ≡ rule_front ++ inside ++ rule_end → ⊥) (λ inside. line.now ≡ rule_front ++ inside.now ++ rule_end) }
{
    before_end(behind_front(line)?)
}

// What stands behind `<transform`.
fn behind_front(line: &str) -> Option<&str>
    ensures { MatchOption result ((rest : List ℕ) → line.now ≡ rule_front ++ rest → ⊥) (λ rest. line.now ≡ rule_front ++ rest.now) }
{
    line.strip_prefix("<transform")
}

// What stands before the `>` at the end.
fn before_end(text: &str) -> Option<&str>
    ensures { MatchOption result ((front : List ℕ) → text.now ≡ front ++ rule_end → ⊥) (λ front. text.now ≡ front.now ++ rule_end) }
{
    text.strip_suffix('>')
}

// The rule whose words these are, or None where they are those of none.
fn read_inside(alloc: Global, text: &str) -> Result<Option<Rule>, AllocError>
    ensures found { IfOk result (λ found. IfSome found (λ rule. IsRule rule × IsInside rule text.now)) }
    ensures none { IfOk result (λ found. IfNone found ((rule : spec.Rule) → IsRule rule → IsInside rule text.now → ⊥)) }
{
    let Some((selectors, rest)) = selectors(alloc, text)? else {
        return Ok(None);
    };
    match operation(alloc, rest)? {
        Some(operation) => Ok(Some(Rule {
            selectors,
            operation,
        })),
        None => Ok(None),
    }
}

// What the words behind `->` do, or None where they are no operation.
fn operation(alloc: Global, text: &str) -> Result<Option<Operation>, AllocError>
    ensures found { IfOk result (λ found. IfSome found (λ o. IsOperation o × AreDone (operation_words o) text.now)) }
    ensures none { IfOk result (λ found. IfNone found ((o : declared.Operation) → IsOperation o → AreDone (operation_words o) text.now → ⊥)) }
{
    match words(alloc, text)? {
        Some(words) => read_operation(alloc, &words),
        None => Ok(None),
    }
}
