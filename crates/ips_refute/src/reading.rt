//! Refutations, each at the front of a text.

ghost use Rattle.std.specs.Prelude.{◌≡◌, ℕ, ◌<◌, ◌^◌, ◌++◌, Bool, true, false, IfOk, Ok, IfNone, IfSome, List, All};
ghost use Rattle.ips_text.specs.Reading.{Gives, IfBad, Sees, one_or_more};
ghost use Rattle.ips_refute.specs.Text.{RefutationEntry, IsEntry, IsBadLine, IsTextOf, entries, entry_of, header};
ghost use Rattle.ips_refute.specs.Reading as reading;
ghost use Rattle.ips_refute.specs.Reading.{small_at, mark_at, pair_at, pairs_at, set_at, reason_at, count_at, run_at, runs_at, bar_at, entry_at};

use crate::ascending::ascend;
use crate::nogoods::{Nogood, Pair, Reason};
use crate::runs::{MOST, Run, expanded};
use ips_text::{Or, Stop, behind, number};
use std::alloc::Global;

/// The number, from 1, of the first line that isn't of the grammar.
#[derive(Clone, Copy, Debug, PartialEq, Eq, Drop)]
pub struct BadLine {
    /// The number of the line.
    pub line: u64,
}

/// The nogoods of a refutation's text.
pub fn read_refutation(alloc: Global, bytes: &[u8]) -> Result<Vec<Nogood>, Or<BadLine>>
    ensures found { IfOk result (λ ns. All IsEntry (entries ns.items) × IsTextOf (entries ns.items) bytes.now) }
    ensures only { (es : List RefutationEntry) → IsTextOf es bytes.now → Gives (λ ns. entries ns.items) result (Ok es) }
    ensures line { IfBad result (λ bad. IsBadLine bytes.now bad.line) }
{
    let Some((counts, lines)) = behind_header(bytes) else {
        return Err(Or::Bad(BadLine { line: 1 }));
    };
    let mut rest = lines;
    let mut nogoods = Vec::new(alloc);
    while !rest.is_empty() {
        let (nogood, after) = line(alloc, counts, nogoods.len(), rest)?;
        nogoods.push(nogood)?;
        rest = after;
    }
    Ok(nogoods)
}

// Whether counts may be written, and what stands behind the first line.
fn behind_header(bytes: &[u8]) -> Option<(bool, &[u8])>
    ensures none { IfNone result ((counts : Bool) (rest : List ℕ) → bytes.now ≡ header counts ++ rest → ⊥) }
    ensures some { IfSome result (λ x. bytes.now ≡ header x.0 ++ x.1.now) }
{
    match behind_counted(bytes) {
        Some(rest) => Some((true, rest)),
        None => match behind_plain(bytes) {
            Some(rest) => Some((false, rest)),
            None => None,
        },
    }
}

// What stands behind `refutation 2`.
fn behind_counted(bytes: &[u8]) -> Option<&[u8]>
    ensures none { IfNone result ((rest : List ℕ) → bytes.now ≡ header true ++ rest → ⊥) }
    ensures some { IfSome result (λ rest. bytes.now ≡ header true ++ rest.now) }
{
    bytes.strip_prefix(b"refutation 2\n")
}

// What stands behind `refutation 1`.
fn behind_plain(bytes: &[u8]) -> Option<&[u8]>
    ensures none { IfNone result ((rest : List ℕ) → bytes.now ≡ header false ++ rest → ⊥) }
    ensures some { IfSome result (λ rest. bytes.now ≡ header false ++ rest.now) }
{
    bytes.strip_prefix(b"refutation 1\n")
}

// A nogood's line, behind so many nogoods.
fn line(
    alloc: Global,
    counts: bool,
    count: usize,
    bytes: &[u8],
) -> Result<(Nogood, &[u8]), Or<BadLine>>
    requires { count < 2 ^ 63 }
    ensures { Gives (λ x. (entry_of x.0, x.1.now)) result (reading.line_at counts count bytes.now) }
{
    match nogood(alloc, counts, bytes) {
        Ok(read) => Ok(read),
        Err(Or::Bad(_)) => Err(Or::Bad(BadLine {
            line: count as u64 + 2,
        })),
        Err(Or::OutOfMemory) => Err(Or::OutOfMemory),
    }
}

// A nogood's line.
#[tactic(auto, unfolding(crate::specs::Reading::entry_at, crate::specs::Reading::fields_at))]
fn nogood(alloc: Global, counts: bool, bytes: &[u8]) -> Result<(Nogood, &[u8]), Or<Stop<()>>>
    ensures { Gives (λ x. (entry_of x.0, x.1.now)) result (entry_at counts bytes.now) }
{
    let (set, rest) = set(alloc, bytes)?;
    let (stem, rest) = further_stem(rest)?;
    let (runs, rest) = runs(alloc, counts, rest)?;
    let rest = newline(rest)?;
    let reasons = expanded(alloc, &runs)?;
    let nogood = Nogood { set, stem, reasons };
    Ok((nogood, rest))
}

fn further_stem(bytes: &[u8]) -> Result<(u32, &[u8]), Or<Stop<()>>>
    ensures { Gives (λ x. (x.0, x.1.now)) result (reading.stem_at bytes.now) }
{
    stem(bytes).map_err(Or::Bad)
}

// The further stem, between its bars.
#[tactic(auto, unfolding(crate::specs::Reading::stem_at))]
fn stem(bytes: &[u8]) -> Result<(u32, &[u8]), Stop<()>>
    ensures { Sees (λ x. (x.0, x.1.now)) result (reading.stem_at bytes.now) }
{
    let rest = bar(bytes)?;
    let (stem, rest) = small(rest)?;
    let rest = bar(rest)?;
    Ok((stem, rest))
}

// ` | `
#[tactic(auto, unfolding(crate::specs::Reading::bar_at))]
fn bar(bytes: &[u8]) -> Result<&[u8], Stop<()>>
    ensures { Sees (λ x. (tt, x.now)) result (bar_at bytes.now) }
{
    let rest = mark(b' ', bytes)?;
    let rest = mark(b'|', rest)?;
    let rest = mark(b' ', rest)?;
    Ok(rest)
}

fn newline(bytes: &[u8]) -> Result<&[u8], Or<Stop<()>>>
    ensures { Gives (λ x. (tt, x.now)) result (mark_at 10 bytes.now) }
{
    mark(b'\n', bytes).map_err(Or::Bad)
}

// A byte that has to stand here.
#[tactic(auto, unfolding(crate::specs::Reading::mark_at))]
fn mark(wanted: u8, bytes: &[u8]) -> Result<&[u8], Stop<()>>
    ensures { Sees (λ x. (tt, x.now)) result (mark_at wanted bytes.now) }
{
    match bytes {
        [first, rest @ ..] if *first == wanted => Ok(rest),
        _ => Err(stop(bytes)),
    }
}

fn stop(bytes: &[u8]) -> Stop<()>
    ensures { result ≡ reading.stop_at bytes.now }
{
    Stop {
        kind: (),
        left: bytes.len(),
    }
}

// A number below 2^32.
#[tactic(auto, unfolding(crate::specs::Reading::small_at))]
fn small(bytes: &[u8]) -> Result<(u32, &[u8]), Stop<()>>
    ensures { Sees (λ x. (x.0, x.1.now)) result (small_at bytes.now) }
{
    let (value, rest) = number((), bytes)?;
    if value > u64::from(u32::MAX) {
        return Err(stop(bytes));
    }
    Ok((value as u32, rest))
}

// A set: pairs by ascending stem, or `-`.
#[tactic(auto, unfolding(crate::specs::Reading::set_at))]
fn set(alloc: Global, bytes: &[u8]) -> Result<(Vec<Pair>, &[u8]), Or<Stop<()>>>
    ensures { Gives (λ x. (x.0.items, x.1.now)) result (set_at bytes.now) }
{
    let (set, rest) = pairs(alloc, bytes)?;
    if !ascend(&set) {
        return Err(Or::Bad(stop(bytes)));
    }
    Ok((set, rest))
}

// Pairs joined by `,`, or `-` where there are none.
#[tactic(auto, unfolding(crate::specs::Reading::pairs_at))]
fn pairs(alloc: Global, bytes: &[u8]) -> Result<(Vec<Pair>, &[u8]), Or<Stop<()>>>
    ensures { Gives (λ x. (x.0.items, x.1.now)) result (pairs_at bytes.now) }
{
    match bytes {
        [b'-', rest @ ..] => Ok((Vec::new(alloc), rest)),
        _ => joined_pairs(alloc, bytes),
    }
}

fn joined_pairs(alloc: Global, bytes: &[u8]) -> Result<(Vec<Pair>, &[u8]), Or<Stop<()>>>
    ensures { Gives (λ x. (x.0.items, x.1.now)) result (one_or_more 44 pair_at bytes.now) }
{
    let mut pairs = Vec::new(alloc);
    let mut rest = bytes;
    loop {
        let (pair, after) = pair(rest)?;
        pairs.push(pair)?;
        let Some(more) = behind(b',', after) else {
            return Ok((pairs, after));
        };
        rest = more;
    }
}

fn pair(bytes: &[u8]) -> Result<(Pair, &[u8]), Or<Stop<()>>>
    ensures { Gives (λ x. (x.0, x.1.now)) result (pair_at bytes.now) }
{
    stem_and_candidate(bytes).map_err(Or::Bad)
}

// A pair: two numbers with a dot between them.
#[tactic(auto, unfolding(crate::specs::Reading::pair_at))]
fn stem_and_candidate(bytes: &[u8]) -> Result<(Pair, &[u8]), Stop<()>>
    ensures { Sees (λ x. (x.0, x.1.now)) result (pair_at bytes.now) }
{
    let (stem, rest) = small(bytes)?;
    let rest = mark(b'.', rest)?;
    let (candidate, rest) = small(rest)?;
    Ok((Pair { stem, candidate }, rest))
}

// Runs of reasons joined by one blank, or `-` where there are none.
#[tactic(auto, unfolding(crate::specs::Reading::runs_at))]
fn runs(alloc: Global, counts: bool, bytes: &[u8]) -> Result<(Vec<Run>, &[u8]), Or<Stop<()>>>
    ensures { Gives (λ x. (x.0.items, x.1.now)) result (runs_at counts bytes.now) }
{
    match bytes {
        [b'-', rest @ ..] => Ok((Vec::new(alloc), rest)),
        _ => joined_runs(alloc, counts, bytes),
    }
}

fn joined_runs(alloc: Global, counts: bool, bytes: &[u8]) -> Result<(Vec<Run>, &[u8]), Or<Stop<()>>>
    ensures { Gives (λ x. (x.0.items, x.1.now)) result (one_or_more 32 (run_at counts) bytes.now) }
{
    let mut runs = Vec::new(alloc);
    let mut rest = bytes;
    loop {
        let (run, after) = next_run(counts, rest)?;
        runs.push(run)?;
        let Some(more) = behind(b' ', after) else {
            return Ok((runs, after));
        };
        rest = more;
    }
}

fn next_run(counts: bool, bytes: &[u8]) -> Result<(Run, &[u8]), Or<Stop<()>>>
    ensures { Gives (λ x. (x.0, x.1.now)) result (run_at counts bytes.now) }
{
    reason_and_count(counts, bytes).map_err(Or::Bad)
}

// A reason, and how often it stands in a row.
#[tactic(auto, unfolding(crate::specs::Reading::run_at))]
fn reason_and_count(counts: bool, bytes: &[u8]) -> Result<(Run, &[u8]), Stop<()>>
    ensures { Sees (λ x. (x.0, x.1.now)) result (run_at counts bytes.now) }
{
    let (reason, rest) = reason(bytes)?;
    match rest {
        [b'*', more @ ..] if counts => {
            let (count, rest) = count(more)?;
            Ok((Run { reason, count }, rest))
        }
        _ => Ok((Run { reason, count: 1 }, rest)),
    }
}

// How often a reason stands in a row.
#[tactic(auto, unfolding(crate::specs::Reading::count_at))]
fn count(bytes: &[u8]) -> Result<(u32, &[u8]), Stop<()>>
    ensures { Sees (λ x. (x.0, x.1.now)) result (count_at bytes.now) }
{
    let (count, rest) = small(bytes)?;
    if count < 2 || count > MOST {
        return Err(stop(bytes));
    }
    Ok((count, rest))
}

// A reason: a number behind its kind.
#[tactic(auto, unfolding(crate::specs::Reading::reason_at))]
fn reason(bytes: &[u8]) -> Result<(Reason, &[u8]), Stop<()>>
    ensures { Sees (λ x. (x.0, x.1.now)) result (reason_at bytes.now) }
{
    match bytes {
        [b't', rest @ ..] => {
            let (test, rest) = small(rest)?;
            Ok((Reason::Test(test), rest))
        }
        [b'n', rest @ ..] => {
            let (nogood, rest) = small(rest)?;
            Ok((Reason::Earlier(nogood), rest))
        }
        _ => Err(stop(bytes)),
    }
}
