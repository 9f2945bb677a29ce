//! Puzzles as texts, as `2 3 0; 0.0 1.0; 1.1 2.2`: how many candidates each stem has, and then the sets of pairs of a stem and
//! a candidate that may not stand together, each with its greatest stem last.

use ips_refute::{Pair, Rule, Table};
use std::alloc::Global;
use std::process::Abort;

/// The numbers of candidates, and the sets of pairs that may not stand together.
#[derive(Drop)]
pub struct Case {
    pub counts: Vec<u32>,
    pub sets: Vec<Vec<(u32, u32)>>,
}

/// The case that a text spells.
pub fn case_of(rt: &impl Abort, alloc: Global, text: &str) -> Case {
    let (front, behind) = text.split_once(';').unwrap_or((text, ""));
    let mut counts = Vec::new(alloc);
    for count in front.split_whitespace() {
        counts
            .push(count.parse::<u32>().ok().expect(rt, "a number or a path"))
            .expect(rt, "memory");
    }
    let mut sets = Vec::new(alloc);
    if !behind.is_empty() {
        for set in behind.split(';') {
            sets.push(pairs(rt, alloc, set)).expect(rt, "memory");
        }
    }
    Case { counts, sets }
}

/// The pairs that a text spells.
pub fn pairs(rt: &impl Abort, alloc: Global, text: &str) -> Vec<(u32, u32)> {
    let mut pairs = Vec::new(alloc);
    for pair in text.split_whitespace() {
        let (stem, candidate) = pair.split_once('.').expect(rt, "a pair without a point");
        pairs
            .push((
                stem.parse::<u32>().ok().expect(rt, "a number or a path"),
                candidate
                    .parse::<u32>()
                    .ok()
                    .expect(rt, "a number or a path"),
            ))
            .expect(rt, "memory");
    }
    pairs
}

/// The same pairs as the checker takes them.
pub fn set_of(rt: &impl Abort, alloc: Global, pairs: &[(u32, u32)]) -> Vec<Pair> {
    let mut set = Vec::new(alloc);
    for (stem, candidate) in pairs {
        set.push(Pair {
            stem: *stem,
            candidate: *candidate,
        })
        .expect(rt, "memory");
    }
    set
}

fn rule(rt: &impl Abort, alloc: Global, pairs: &[(u32, u32)]) -> Option<Rule> {
    let mut others = set_of(rt, alloc, pairs);
    match others.pop() {
        Some(last) => Some(Rule { others, last }),
        None => None,
    }
}

/// The puzzle of a case.
pub fn table_of(rt: &impl Abort, alloc: Global, case: &Case) -> Table {
    let counts = Vec::from_slice(alloc, &case.counts).expect(rt, "memory");
    let mut rules = Vec::new(alloc);
    for set in &case.sets {
        rules
            .push(rule(rt, alloc, set).expect(rt, "an empty set"))
            .expect(rt, "memory");
    }
    Table::new(counts, rules).expect(rt, "the table is not well formed")
}
