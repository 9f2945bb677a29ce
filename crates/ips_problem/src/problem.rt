//! The puzzle of a request.

ghost use Rattle.std.specs.Prelude.{◌≡◌, ◌<◌, ◌^◌, All, length, map, vec_len, IfOk, IfSome};
ghost use Rattle.std.proofs.Props.{props};
ghost use Rattle.ips_problem.specs.Posed.{greatest_of, stems_of_test};
ghost use Rattle.ips_problem.specs.Seen.{numbers_mentioned, puzzle_of, seen_numbers, seen_test};

use crate::rows::{Numbered, Numbers, Row};
use indexmap::IndexSet;
use ips_text::Text;

/// What a request asks, as a puzzle: a candidate is sought for each stem in reach, such that no dependency of a chosen candidate
/// fails.
#[derive(Drop)]
pub struct Problem {
    pub(crate) stems: IndexSet<String>,
    pub(crate) rows: Vec<Row>,
    pub(crate) tests: Vec<Numbered>,
    pub(crate) numbers: Vec<Numbers>,
    pub(crate) avoid: Vec<Text>,
    ghost few_stems: { length stems.keys < 2 ^ 32 },
    ghost few_tests: { vec_len tests < 2 ^ 32 },
    ghost few_candidates: { All (λ r. vec_len r.candidates < 2 ^ 32) rows.items },
    ghost rows_known: { length rows.items ≡ length stems.keys },
    ghost tests_known: { All (λ n. n.stem < length stems.keys) tests.items },
    ghost each: { length numbers.items ≡ length tests.items },
    ghost numbered: { map seen_numbers numbers.items ≡ map (λ n. numbers_mentioned (puzzle_of stems.keys rows.items) (seen_test n)) tests.items } by { Prim.hlevel props },
    ghost last: { map (λ m. m.last) numbers.items ≡ map (λ n. greatest_of (stems_of_test (puzzle_of stems.keys rows.items) (seen_test n))) tests.items } by { Prim.hlevel props },
}
