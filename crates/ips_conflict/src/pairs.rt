//! The first two actions of a key that break a rule.

ghost use Rattle.std.specs.Prelude.{◌≡◌, ◌<◌, IfOk, Some, option_map};
ghost use Rattle.ips_conflict.specs.Verdict.{rule_rank};
ghost use Rattle.ips_conflict.specs.Index.{IsIndex, IsGroup};
ghost use Rattle.ips_conflict.specs.Search.{IsFirstBy, NoneBelow, domain_of};

use crate::clashing::Rule;
use crate::earliest::{Test, earliest};
use crate::index::Index;
use crate::placed::{Placed, Sort};
use std::alloc::{AllocError, Global};

/// The first two actions of a key that break the rule, where no two of them break a rule before it.
///
/// Likeness is an equivalence, so the earliest action tells whether all are alike; and of three files one has two that take its
/// place or give it to it, so that the second tells of the rest.
pub fn first_pair(
    alloc: Global,
    placed: &[Placed<'_>],
    index: &Index,
    text: &str,
    members: &[usize],
    sort: Sort,
    rule: Rule,
) -> Result<Option<(usize, usize)>, AllocError>
    requires index { IsIndex placed.now index.now }
    requires group { IsGroup placed.now text.now members.now }
    requires pair_rule { rule_rank rule < 4 }
    requires before { NoneBelow placed.now (record { sort = sort; text = text.now }) (rule_rank rule) }
    ensures { IfOk result (λ found. IsFirstBy placed.now (record { sort = sort; text = text.now }) rule (option_map (λ pair. (pair.0, Some pair.1)) found)) }
{
    let Some(first) = earliest(alloc, placed, index, members, sort, domain(rule))? else {
        return Ok(None);
    };
    if let Some(second) = earliest(
        alloc,
        placed,
        index,
        members,
        sort,
        Test::Against(first, rule),
    )? {
        return Ok(Some((first, second)));
    }
    let Some(next) = earliest(alloc, placed, index, members, sort, Test::After(first))? else {
        return Ok(None);
    };
    match earliest(
        alloc,
        placed,
        index,
        members,
        sort,
        Test::Against(next, rule),
    )? {
        Some(second) => Ok(Some((next, second))),
        None => Ok(None),
    }
}

// Among which actions a rule is looked for.
fn domain(rule: Rule) -> Test<'static>
    ensures { result ≡ domain_of rule }
{
    match rule {
        Rule::Mediator => Test::Linked,
        _ => Test::Any,
    }
}
