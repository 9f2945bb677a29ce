use crate::puzzle::{case_of, pairs, set_of, table_of};
use crate::table::{Ask, holds, text};
use ips_refute::{BadLine, Nogood, Pair, Reason, Refutation, check};
use ips_text::{Or, Text};
use std::alloc::Global;
use std::process::Abort;

// Stems `a` and `b` with one candidate each, which exclude one another: test 0 is of `a`, test 1 of `b`.
const EXCLUDING: &str = "1 1; 0.0 1.0; 0.0 1.0";

// Stem 0 has two candidates, stem 1 has three, stem 2 has none; candidates 0 of stems 0 and 1 exclude one another.
const WITHOUT: &str = "2 3 0; 0.0 1.0";

// What a table asks of refutations.
#[derive(Drop)]
enum Asked {
    // Whether the checker takes a refutation of this puzzle.
    Of(&'static str),
    // Whether it takes this set, of a puzzle whose stem 2 has no candidate.
    Set,
    // The first bad line of a text, or that it is a refutation.
    Reading,
}

impl Ask for Asked {
    fn answer(&mut self, rt: &impl Abort, alloc: Global, question: &str) -> String {
        let question = text(rt, alloc, question);
        let question = question.as_str();
        match self {
            Asked::Of(puzzle) => checked(rt, alloc, puzzle, &read(rt, alloc, question)),
            Asked::Set => checked(rt, alloc, WITHOUT, &by_set(rt, alloc, question)),
            Asked::Reading => reading(rt, alloc, question),
        }
    }
}

// The refutation of this text, which has to be printed as it is read.
fn read(rt: &impl Abort, alloc: Global, text: &str) -> Refutation {
    let refutation = Refutation::read(alloc, text.as_bytes())
        .ok()
        .expect(rt, "an answer");
    if refutation.print(alloc).expect(rt, "memory").as_str() != text {
        panic!(rt; "printed as another text");
    }
    refutation
}

fn checked(rt: &impl Abort, alloc: Global, puzzle: &str, refutation: &Refutation) -> String {
    let table = table_of(rt, alloc, &case_of(rt, alloc, puzzle));
    let answer = if check(&table, refutation) {
        "accepted"
    } else {
        "refused"
    };
    String::from_str(alloc, answer).expect(rt, "memory")
}

// A nogood of this set by stem 2, and behind it the empty set by that stem.
fn by_set(rt: &impl Abort, alloc: Global, set: &str) -> Refutation {
    let mut nogoods = Vec::new(alloc);
    let set = pairs(rt, alloc, set);
    nogoods
        .push(nogood(set_of(rt, alloc, &set), Vec::new(alloc)))
        .expect(rt, "memory");
    nogoods
        .push(nogood(Vec::new(alloc), Vec::new(alloc)))
        .expect(rt, "memory");
    Refutation { nogoods }
}

fn nogood(set: Vec<Pair>, reasons: Vec<Reason>) -> Nogood {
    Nogood {
        set,
        stem: 2,
        reasons,
    }
}

// The bad line that is told.
fn reading(rt: &impl Abort, alloc: Global, text: &str) -> String {
    match Refutation::read(alloc, text.as_bytes()) {
        Err(Or::Bad(BadLine { line })) => format!(in alloc; "bad line {line}").expect(rt, "memory"),
        Err(Or::OutOfMemory) => panic!(rt; "memory"),
        Ok(_) => String::from_str(alloc, "a refutation").expect(rt, "memory"),
    }
}

const THE_CHECKER_TAKES_WHAT_FOLLOWS_AND_NOTHING_ELSE_TABLE: &str = "
refutation 2¶0.0 | 1 | t0¶- | 0 | n0¶ -> accepted
# Test 1 is broken by the same two pairs.
refutation 2¶0.0 | 1 | t1¶- | 0 | n0¶ -> accepted
refutation 2¶1.0 | 0 | t1¶- | 1 | n0¶ -> accepted
# Without the first nogood.
refutation 2¶- | 0 | n0¶ -> refused
# No nogood at all, and a last set that isn't empty.
refutation 2¶ -> refused
refutation 2¶0.0 | 1 | t0¶ -> refused
# A reason too few, a reason too many, a test and a nogood that aren't there.
refutation 2¶0.0 | 1 | -¶- | 0 | n0¶ -> refused
refutation 2¶0.0 | 1 | t0 t1¶- | 0 | n0¶ -> refused
refutation 2¶0.0 | 1 | t2¶- | 0 | n0¶ -> refused
refutation 2¶0.0 | 1 | t0¶- | 0 | n1¶ -> refused
refutation 2¶0.0 | 1 | t0¶- | 0 | n2¶ -> refused
# A stem and a candidate that aren't there, and a further stem in the set.
refutation 2¶0.0 | 2 | t0¶- | 0 | n0¶ -> refused
refutation 2¶0.1 | 1 | t0¶- | 0 | n0¶ -> refused
refutation 2¶0.0 | 0 | t0¶- | 0 | n0¶ -> refused
# Of a stem without candidates, which this puzzle hasn't.
refutation 2¶- | 2 | -¶ -> refused
";

const THE_CHECKER_TAKES_WHAT_FOLLOWS_AND_NOTHING_ELSE_LONE: &str =
    "refutation 2¶- | 2 | -¶ -> accepted";

// A set is taken in any order, but with no stem twice.
const THE_CHECKER_ASKS_FOR_ONE_PAIR_PER_STEM: &str = "
1.2 0.1 -> accepted
0.1 1.2 -> accepted
1.2 1.1 -> refused
1.1 1.1 -> refused
";

const READING_TELLS_THE_FIRST_BAD_LINE: &str = "
-> bad line 1
refutation 1 -> bad line 1
refutation 3¶ -> bad line 1
refutation 2¶ -> a refutation
Refutation 1¶- | 0 | -¶ -> bad line 1
# A last line without its newline, and an empty line.
refutation 1¶- | 0 | - -> bad line 2
refutation 1¶- | 0 | -¶¶ -> bad line 3
# Numbers: leading zeros, signs, and one past 2^32 - 1.
refutation 1¶00.1 | 2 | -¶ -> bad line 2
refutation 1¶0.+1 | 2 | -¶ -> bad line 2
refutation 1¶- | 4294967295 | -¶0.4294967296 | 2 | -¶ -> bad line 3
refutation 1¶- | 4294967296 | -¶ -> bad line 2
refutation 1¶- | 0 | t18446744073709551616¶ -> bad line 2
# Sets that don't ascend, or have a stem twice.
refutation 1¶- | 0 | -¶- | 0 | -¶1.0,0.0 | 2 | -¶ -> bad line 4
refutation 1¶0.0,0.1 | 2 | -¶ -> bad line 2
# Marks: another bar, two blanks, a trailing one, a comma too many, another kind.
refutation 1¶0.0|1|t0¶ -> bad line 2
refutation 1¶0.0 | 1 | t0  t1¶ -> bad line 2
refutation 1¶0.0 | 1 | t0 ¶ -> bad line 2
refutation 1¶0.0, | 1 | t0¶ -> bad line 2
refutation 1¶0.0 | 1 | x0¶ -> bad line 2
refutation 1¶ | 1 | t0¶ -> bad line 2
refutation 1¶0.0 | - | t0¶ -> bad line 2
refutation 1¶0.0 | 1 |¶ -> bad line 2
# Version 1 is read as it was written, and the same lines are bad in version 2.
refutation 1¶0.0 | 1 | t0¶- | 0 | n0¶ -> a refutation
refutation 2¶0.0 | 1 | t0¶- | 0 | n0¶ -> a refutation
refutation 2¶- | 0 | - -> bad line 2
refutation 2¶- | 0 | -¶¶ -> bad line 3
refutation 2¶00.1 | 2 | -¶ -> bad line 2
refutation 2¶0.+1 | 2 | -¶ -> bad line 2
refutation 2¶- | 4294967295 | -¶0.4294967296 | 2 | -¶ -> bad line 3
refutation 2¶- | 4294967296 | -¶ -> bad line 2
refutation 2¶- | 0 | t18446744073709551616¶ -> bad line 2
refutation 2¶- | 0 | -¶- | 0 | -¶1.0,0.0 | 2 | -¶ -> bad line 4
refutation 2¶0.0,0.1 | 2 | -¶ -> bad line 2
refutation 2¶0.0|1|t0¶ -> bad line 2
refutation 2¶0.0 | 1 | t0  t1¶ -> bad line 2
refutation 2¶0.0 | 1 | t0 ¶ -> bad line 2
refutation 2¶0.0, | 1 | t0¶ -> bad line 2
refutation 2¶0.0 | 1 | x0¶ -> bad line 2
refutation 2¶ | 1 | t0¶ -> bad line 2
refutation 2¶0.0 | - | t0¶ -> bad line 2
refutation 2¶0.0 | 1 |¶ -> bad line 2
# Counts: none in version 1, from 2 to 200,002, of runs of any length.
refutation 1¶0.0 | 1 | t0*3¶ -> bad line 2
refutation 2¶0.0 | 1 | t0*3¶ -> a refutation
refutation 2¶0.0 | 1 | t0*2 t0¶ -> a refutation
refutation 2¶0.0 | 1 | t0*1¶ -> bad line 2
refutation 2¶0.0 | 1 | t0*02¶ -> bad line 2
refutation 2¶0.0 | 1 | t0*¶ -> bad line 2
refutation 2¶0.0 | 1 | n0*200002¶ -> a refutation
refutation 2¶0.0 | 1 | n0*200003¶ -> bad line 2
";

#[test]
fn reading_gives_the_nogoods(rt: HostRuntime) {
    let alloc = rt.alloc();
    let text = "refutation 2\n0.12,3.4294967295 | 7 | t0 n10\n- | 0 | -\n";
    let refutation = read(&rt, alloc, text);
    let [first, last] = refutation.nogoods.as_slice() else {
        panic!(rt; "two nogoods");
    };
    let set = set_of(&rt, alloc, &pairs(&rt, alloc, "0.12 3.4294967295"));
    assert!(rt; first.stem == 7 && first.set.as_slice() == set.as_slice());
    assert!(rt; first.reasons.as_slice() == [Reason::Test(0), Reason::Earlier(10)].as_slice());
    assert!(rt; last.stem == 0 && last.set.is_empty() && last.reasons.is_empty());
}

// The text with which a refutation is printed that stands in another.
fn printed(rt: &impl Abort, alloc: Global, text: &str) -> Text {
    Refutation::read(alloc, text.as_bytes())
        .ok()
        .expect(rt, "a refutation")
        .print(alloc)
        .expect(rt, "memory")
}

#[test]
fn equal_reasons_are_written_once_with_their_count(rt: HostRuntime) {
    let alloc = rt.alloc();
    let shortest = "refutation 2\n0.0 | 1 | t0*3\n- | 0 | n0\n";
    for text in [
        "refutation 1\n0.0 | 1 | t0 t0 t0\n- | 0 | n0\n",
        "refutation 2\n0.0 | 1 | t0 t0 t0\n- | 0 | n0\n",
        "refutation 2\n0.0 | 1 | t0 t0*2\n- | 0 | n0\n",
        shortest,
    ] {
        assert!(rt; printed(&rt, alloc, text).as_str() == shortest);
    }
}

#[test]
fn checks_and_reads_refutations(rt: HostRuntime) {
    let alloc = rt.alloc();
    holds(
        &rt,
        alloc,
        &mut Asked::Of(EXCLUDING),
        15,
        THE_CHECKER_TAKES_WHAT_FOLLOWS_AND_NOTHING_ELSE_TABLE,
    );
    holds(
        &rt,
        alloc,
        &mut Asked::Of(WITHOUT),
        1,
        THE_CHECKER_TAKES_WHAT_FOLLOWS_AND_NOTHING_ELSE_LONE,
    );
    holds(
        &rt,
        alloc,
        &mut Asked::Set,
        4,
        THE_CHECKER_ASKS_FOR_ONE_PAIR_PER_STEM,
    );
    holds(
        &rt,
        alloc,
        &mut Asked::Reading,
        49,
        READING_TELLS_THE_FIRST_BAD_LINE,
    );
}
