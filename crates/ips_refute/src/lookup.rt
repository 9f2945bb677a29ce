//! What a puzzle that is written out answers.

ghost use Rattle.std.specs.Prelude.{◌≡◌, ◌↔◌, ◌<◌, ◌^◌, ◌∷◌, All, Contains, IfNone, IfSome, IsTrue, vec_len};
ghost use Rattle.ips_refute.specs.Meaning.{OnePerStem};
ghost use Rattle.ips_refute.specs.Table.{EndBelow, all_chosen, breaks_rule, chosen, counts_of, rules_of, table_meaning};
ghost use Rattle.ips_refute.specs.Laws.{table_lawful};

use crate::nogoods::Pair;
use crate::puzzle::{Hint, Puzzle};
use crate::table::{Rule, Table};

impl Table {
    /// A table of these numbers of candidates and these rules. None exactly where a rule's last stem isn't below the number of
    /// stems, or there are 2^32 stems or rules, or more.
    pub fn new(counts: Vec<u32>, rules: Vec<Rule>) -> Option<Table>
        ensures some { IfSome result (λ t. (counts_of t ≡ counts.items) × (rules_of t ≡ rules.items)) }
        ensures none { IfNone result (vec_len counts < 2 ^ 32 → vec_len rules < 2 ^ 32 → EndBelow (vec_len counts) rules.items → ⊥) }
    {
        let stems = counts.len();
        if stems > u32::MAX as usize || rules.len() > u32::MAX as usize {
            return None;
        }
        if !end_below(&rules, stems) {
            return None;
        }
        Some(Table { counts, rules })
    }
}

// Whether each rule ends at a stem below this number.
fn end_below(rules: &[Rule], stems: usize) -> bool
    ensures { IsTrue result ↔ EndBelow stems rules.now }
{
    rules.iter().all(|r| (r.last.stem as usize) < stems)
}

impl Puzzle for Table {
    ghost meaning = { table_meaning };

    ghost lawful = { table_lawful };

    fn stems(&self) -> u32 {
        self.counts.len() as u32
    }

    fn candidates(&self, stem: u32) -> u32 {
        self.counts[stem as usize]
    }

    fn tests(&self) -> u32 {
        self.rules.len() as u32
    }

    fn last(&self, test: u32) -> u32 {
        self.rules[test as usize].last.stem
    }

    fn broken(&self, test: u32, set: &[Pair], more: Pair) -> bool {
        breaks(&self.rules[test as usize], set, more)
    }

    fn hint(&self, test: u32, place: u32) -> Option<Hint> {
        let rule = self.rules.get(test as usize)?;
        let pair = match place.checked_sub(1) {
            None => rule.last,
            Some(other) => *rule.others.get(other as usize)?,
        };
        Some(Hint {
            stem: pair.stem,
            candidate: Some(pair.candidate),
        })
    }
}

// Whether the set with the pair `more` has all pairs of the rule.
fn breaks(rule: &Rule, set: &[Pair], more: Pair) -> bool
    requires { OnePerStem (more ∷ set.now) }
    ensures { result ≡ breaks_rule rule.now (more ∷ set.now) }
{
    is_chosen(set, more, rule.last) && are_chosen(set, more, rule.last.stem, &rule.others)
}

// Whether the set has all of these pairs, none of them of a stem beyond the last.
fn are_chosen(set: &[Pair], more: Pair, last: u32, others: &[Pair]) -> bool
    requires { OnePerStem (more ∷ set.now) }
    ensures { result ≡ all_chosen (more ∷ set.now) last others.now }
{
    let mut rest = others;
    while let [pair, after @ ..] = rest {
        if pair.stem > last || !is_chosen(set, more, *pair) {
            return false;
        }
        rest = after;
    }
    true
}

// No other pair of the set is of the stem of `more`, so a pair of that stem isn't looked for.
fn is_chosen(set: &[Pair], more: Pair, pair: Pair) -> bool
    requires { OnePerStem (more ∷ set.now) }
    ensures { result ≡ chosen (more ∷ set.now) pair }
{
    let stem = pair.stem;
    let own = more.stem;
    if stem == own {
        pair.candidate == more.candidate
    } else {
        has(set, pair)
    }
}

// In a choice, or a part of one, the pair of a stem stands at a place that its stem tells.
fn has(set: &[Pair], pair: Pair) -> bool
    requires { OnePerStem set.now }
    ensures { IsTrue result ↔ Contains set.now pair }
{
    let place = place_in_choice(set, pair);
    if place < set.len() && set[place].stem == pair.stem {
        set[place].candidate == pair.candidate
    } else {
        set.iter().any(|q| *q == pair)
    }
}

fn place_in_choice(set: &[Pair], pair: Pair) -> usize {
    match set {
        [first, ..] if first.stem <= pair.stem => (pair.stem - first.stem) as usize,
        _ => 0,
    }
}
