use crate::puzzle::{Case, case_of, table_of};
use crate::table::{Ask, columns, holds};
use ips_refute::{Nogood, Pair, Reason, Table, check};
use ips_search::{Advice, Adviser, Ahead, Failure, Found, backtrack, solve, solve_advised};
use std::alloc::{AllocError, Global};
use std::process::Abort;

// What is found, as a text: the candidates, the refutation where `check` accepts it, or that the limit was spent.
fn shown(rt: &impl Abort, alloc: Global, puzzle: &Table, found: Found) -> String {
    let mut out = String::new(alloc);
    match found {
        Found::Chosen(choice) => {
            out.push_str("chosen").expect(rt, "memory");
            for candidate in &choice {
                write!(out, " {candidate}").expect(rt, "memory");
            }
        }
        Found::Refuted(refutation) => {
            if !check(puzzle, &refutation) {
                out.push_str("not accepted: ").expect(rt, "memory");
            }
            out.push_str(refutation.print(alloc).expect(rt, "memory").as_str())
                .expect(rt, "memory");
        }
        Found::Spent => out.push_str("spent").expect(rt, "memory"),
    }
    out
}

// What the two searches find in a puzzle within a limit: the one that learns, and the plain one.
#[derive(Drop)]
struct Searches {}

impl Ask for Searches {
    fn answer(&mut self, rt: &impl Abort, alloc: Global, question: &str) -> String {
        let (puzzle, limit) = columns(question);
        let puzzle = table_of(rt, alloc, &case_of(rt, alloc, puzzle));
        let limit = limit.parse::<u64>().ok().expect(rt, "a number or a path");
        let learning = shown(
            rt,
            alloc,
            &puzzle,
            solve(alloc, &puzzle, limit).ok().expect(rt, "an answer"),
        );
        let plain = shown(
            rt,
            alloc,
            &puzzle,
            backtrack(alloc, &puzzle, limit)
                .ok()
                .expect(rt, "an answer"),
        );
        format!(in alloc; "{learning} / {plain}").expect(rt, "memory")
    }
}

#[test]
fn both_searches_find_the_best_choice_or_a_refutation(rt: HostRuntime) {
    let table = "
        # Two stems of one candidate each that exclude one another.
        1 1; 0.0 1.0; 0.0 1.0 | 1 -> refutation 2¶0.0 | 1 | t1¶- | 0 | n0¶ / refutation 2¶0.0 | 1 | t0¶- | 0 | n0¶
        1 1; 0.0 1.0; 0.0 1.0 | 0 -> spent / spent
        # A package that requires one of two others; candidate 0 of these is absence.
        1 2 2; 0.0 1.0 2.0 | 2 -> spent / spent
        1 2 2; 0.0 1.0 2.0 | 3 -> chosen 0 0 1 / chosen 0 0 1
        # `x` at 2 excludes `z`; between them `y` has nine versions.
        2 9 1; 0.0 2.0 | 4 -> spent / spent
        2 9 1; 0.0 2.0 | 5 -> chosen 1 0 0 / spent
        2 9 1; 0.0 2.0 | 12 -> chosen 1 0 0 / spent
        2 9 1; 0.0 2.0 | 13 -> chosen 1 0 0 / chosen 1 0 0
        # No stem at all.
        | 0 -> chosen / chosen
        # A stem without candidates behind two others.
        2 2 0 | 1 -> spent / spent
        2 2 0 | 2 -> refutation 2¶- | 2 | -¶ / spent
    ";
    holds(&rt, rt.alloc(), &mut Searches {}, 11, table)
}

// Who says of one candidate of the first stem that it leaves the third stem none, by test 0.
#[derive(Drop)]
struct One {
    candidate: u32,
}

impl Adviser for One {
    fn advise(
        &mut self,
        alloc: Global,
        choice: &[u32],
        more: Pair,
        known: usize,
    ) -> Result<Advice, AllocError> {
        let mut lines = Vec::new(alloc);
        if !choice.is_empty() || more.candidate != self.candidate || known > u32::MAX as usize {
            return Ok(Advice {
                lines,
                failure: None,
            });
        }
        let mut set = Vec::new(alloc);
        set.push(more)?;
        let mut reasons = Vec::new(alloc);
        reasons.push(Reason::Test(0))?;
        lines.push(Nogood {
            set,
            stem: 2,
            reasons,
        })?;
        let failure = Failure {
            reason: Reason::Earlier(known as u32),
            core: Vec::new(alloc),
        };
        Ok(Advice {
            lines,
            failure: Some(failure),
        })
    }
}

// What is found with advice on each of two candidates: one that is so, and one that isn't.
#[derive(Drop)]
struct Advised {}

impl Ask for Advised {
    fn answer(&mut self, rt: &impl Abort, alloc: Global, question: &str) -> String {
        let (puzzle, limit) = columns(question);
        let puzzle = table_of(rt, alloc, &case_of(rt, alloc, puzzle));
        let limit = limit.parse::<u64>().ok().expect(rt, "a number or a path");
        let mut first = One { candidate: 0 };
        let told = solve_advised(alloc, &puzzle, &mut first, limit)
            .ok()
            .expect(rt, "an answer");
        let told = shown(rt, alloc, &puzzle, told);
        let mut second = One { candidate: 1 };
        let misled = solve_advised(alloc, &puzzle, &mut second, limit)
            .ok()
            .expect(rt, "an answer");
        let misled = shown(rt, alloc, &puzzle, misled);
        format!(in alloc; "{told} / {misled}").expect(rt, "memory")
    }
}

#[test]
fn good_advice_saves_beginnings_and_bad_advice_changes_nothing(rt: HostRuntime) {
    let table = "
        # `x` at 2 excludes `z`; between them `y` has nine versions. Unadvised it takes a limit of 5.
        2 9 1; 0.0 2.0 | 2 -> spent / spent
        2 9 1; 0.0 2.0 | 3 -> chosen 1 0 0 / spent
        2 9 1; 0.0 2.0 | 4 -> chosen 1 0 0 / spent
        2 9 1; 0.0 2.0 | 5 -> chosen 1 0 0 / chosen 1 0 0
    ";
    holds(&rt, rt.alloc(), &mut Advised {}, 4, table)
}

// Numbers that look like chance (xorshift).
#[derive(Drop)]
struct Numbers {
    state: u64,
}

impl Numbers {
    fn below(&mut self, bound: u32) -> u32 {
        let mut x = self.state;
        x ^= x.wrapping_shl(13);
        x ^= x >> 7;
        x ^= x.wrapping_shl(17);
        self.state = x;
        if bound == 0 {
            0
        } else {
            ((x >> 33) % u64::from(bound)) as u32
        }
    }
}

// Up to five stems, most of them with one to three candidates and a few with none, and up to ten sets of up to three pairs.
fn made(rt: &impl Abort, alloc: Global, numbers: &mut Numbers) -> Case {
    let stems = numbers.below(5).saturating_add(1);
    let mut counts = Vec::new(alloc);
    for _ in 0..stems {
        let count = numbers.below(16);
        counts
            .push(if count == 0 { 0 } else { 1 + count % 3 })
            .expect(rt, "memory");
    }
    let mut sets = Vec::new(alloc);
    for _ in 0..numbers.below(11) {
        let last = numbers.below(stems);
        let mut set = Vec::new(alloc);
        for _ in 0..numbers.below(3) {
            set.push((numbers.below(last), numbers.below(3)))
                .expect(rt, "memory");
        }
        set.push((last, numbers.below(3))).expect(rt, "memory");
        sets.push(set).expect(rt, "memory");
    }
    Case { counts, sets }
}

// The choice of this number in lexicographic order.
fn choice_at(rt: &impl Abort, alloc: Global, counts: &[u32], number: u64) -> Vec<u32> {
    let mut rest = number;
    let mut choice = Vec::new(alloc);
    for count in counts.iter().rev() {
        let count = u64::from(*count).max(1);
        choice.push((rest % count) as u32).expect(rt, "memory");
        rest /= count;
    }
    choice.reverse();
    choice
}

fn has_all(choice: &[u32], set: &[(u32, u32)]) -> bool {
    for (stem, candidate) in set {
        if choice.get(*stem as usize) != Some(candidate) {
            return false;
        }
    }
    true
}

fn breaks_one(choice: &[u32], sets: &[Vec<(u32, u32)>]) -> bool {
    for set in sets {
        if has_all(choice, set) {
            return true;
        }
    }
    false
}

// By a look at each choice: the first one that breaks no test, as a text.
fn by_enumeration(rt: &impl Abort, alloc: Global, case: &Case) -> String {
    let mut total: u64 = 1;
    for count in &case.counts {
        total = total.saturating_mul(u64::from(*count));
    }
    let mut out = String::new(alloc);
    for number in 0..total {
        let choice = choice_at(rt, alloc, &case.counts, number);
        if !breaks_one(&choice, &case.sets) {
            out.push_str("chosen").expect(rt, "memory");
            for candidate in &choice {
                write!(out, " {candidate}").expect(rt, "memory");
            }
            return out;
        }
    }
    out.push_str("refuted").expect(rt, "memory");
    out
}

// The same of what a search found; a refutation has to be one that `check` accepts.
fn told(rt: &impl Abort, alloc: Global, puzzle: &Table, found: Found) -> String {
    let text = shown(rt, alloc, puzzle, found);
    if text.as_str().starts_with("refutation 2\n") {
        return String::from_str(alloc, "refuted").expect(rt, "memory");
    }
    text
}

#[test]
fn both_searches_agree_with_an_enumeration(rt: HostRuntime) {
    let alloc = rt.alloc();
    let mut numbers = Numbers {
        state: 88_172_645_463_325_252,
    };
    let mut refuted = 0_u32;
    for round in 0..100 {
        let case = made(&rt, alloc, &mut numbers);
        let puzzle = table_of(&rt, alloc, &case);
        let wanted = by_enumeration(&rt, alloc, &case);
        if wanted.as_str() == "refuted" {
            refuted = refuted.saturating_add(1);
        }
        let learning = told(
            &rt,
            alloc,
            &puzzle,
            solve(alloc, &puzzle, 1_000).ok().expect(&rt, "an answer"),
        );
        assert!(rt;
            learning.as_str() == wanted.as_str(),
            "{round}: {learning} for {wanted}"
        );
        let plain = told(
            &rt,
            alloc,
            &puzzle,
            backtrack(alloc, &puzzle, 1_000)
                .ok()
                .expect(&rt, "an answer"),
        );
        assert!(rt;
            plain.as_str() == wanted.as_str(),
            "{round}: {plain} for {wanted}"
        );
        // An engine that looks ahead from the first candidate on.
        let mut ahead = Ahead::new(&puzzle, 0, 1_000);
        let ahead = told(
            &rt,
            alloc,
            &puzzle,
            solve_advised(alloc, &puzzle, &mut ahead, 1_000)
                .ok()
                .expect(&rt, "an answer"),
        );
        assert!(rt;
            ahead.as_str() == wanted.as_str(),
            "{round}: {ahead} for {wanted}"
        );
        // Under a small limit the answer is the same, or none.
        let early = told(
            &rt,
            alloc,
            &puzzle,
            solve(alloc, &puzzle, 4).ok().expect(&rt, "an answer"),
        );
        assert!(rt;
            early.as_str() == wanted.as_str() || early.as_str() == "spent",
            "{round}: {early} for {wanted}"
        );
    }
    // Both answers came often.
    assert!(rt; refuted > 20 && refuted < 80, "{refuted}");
}
