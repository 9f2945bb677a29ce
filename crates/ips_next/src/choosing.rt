//! The best choice of a puzzle, or why there is none.

ghost use Rattle.std.specs.Prelude.{◌≡◌, ◌≤◌, ℕ, IsTrue, IfOk};
ghost use Rattle.ips_text.specs.Reading.{IfBad};
ghost use Rattle.ips_refute.specs.Refuting.{IsTidyRefutation};
ghost use Rattle.ips_request.specs.declared.kind.Kind.{Kind};
ghost use Rattle.ips_search.specs.Best.{IsFirst};
ghost use Rattle.ips_problem.specs.Held.{posed_of};
ghost use Rattle.ips_problem.specs.Posed.{meaning_of};
ghost use Rattle.ips_problem.specs.Taken.{IsChoice};
ghost use Rattle.ips_next.specs.Decided.{IsUnsolved, MayCome};
ghost use Rattle.ips_next.specs.declared.fault.NextFault.TheVariants as fault;

use crate::fault::NextFault;
use crate::tried::tried_in;
use ips_problem::Problem;
use ips_refute::{Puzzle, Refutation, check};
use ips_search::{Found, solve};
use ips_text::Or;
use std::alloc::Global;

/// The best choice of the puzzle.
pub fn choose(alloc: Global, problem: &Problem, limit: u64) -> Result<Vec<u32>, Or<NextFault>>
    ensures first { IfOk result (λ choice. IsFirst (meaning_of (posed_of problem.now)) choice.items) }
    ensures within { IfOk result (λ choice. (meaning_of (posed_of problem.now)).stems ≤ limit) }
    ensures refused { IfBad result (IsUnsolved (posed_of problem.now) limit) }
    ensures early { (k : Kind) → IfBad result (λ why. MayCome k why × (why ≡ fault.SourceFault → ⊥)) }
{
    match solve(alloc, problem, limit) {
        Ok(Found::Chosen(choice)) => Ok(choice),
        Ok(Found::Refuted(refutation)) => no_solution(alloc, problem, refutation),
        Ok(Found::Spent) => Err(Or::Bad(NextFault::SearchSpent { limit })),
        Err(_) => Err(Or::OutOfMemory),
    }
}

// What is answered where a refutation was found. The search isn't trusted: the refutation is checked.
fn no_solution(
    alloc: Global,
    problem: &Problem,
    refutation: Refutation,
) -> Result<Vec<u32>, Or<NextFault>>
    requires { IsTidyRefutation (meaning_of (posed_of problem.now)) refutation.nogoods.items }
    ensures refused { (limit : ℕ) → IfBad result (IsUnsolved (posed_of problem.now) limit) }
    ensures early { (k : Kind) → IfBad result (λ why. MayCome k why × (why ≡ fault.SourceFault → ⊥)) }
    ensures never { IfOk result (λ choice. ⊥) }
{
    if !check(problem, &refutation) {
        unreachable!()
    }
    match tried_in(alloc, problem) {
        Ok(stems) => Err(Or::Bad(NextFault::NoSolution { stems, refutation })),
        Err(_) => Err(Or::OutOfMemory),
    }
}

/// Whether the numbers are a choice of the puzzle: a candidate for each stem.
pub fn is_choice(problem: &Problem, choice: &[u32]) -> bool
    ensures { IsTrue result → IsChoice (posed_of problem.now) choice.now }
{
    if choice.len() != problem.stems() as usize {
        return false;
    }
    for (stem, candidate) in choice.iter().enumerate() {
        if *candidate >= problem.candidates(stem as u32) {
            return false;
        }
    }
    true
}
