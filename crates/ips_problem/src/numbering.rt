//! The numbers of the stems that tests mention.

ghost use Rattle.std.specs.Prelude.{◌≡◌, ◌∷◌, ◌<◌, ◌^◌, All, IfOk, length, map, position, vec_len};
ghost use Rattle.std.specs.List.{filter_map};
ghost use Rattle.std.specs.Str.{bytes_eq};
ghost use Rattle.ips_fmri.specs.declared.fmri.Fmri as declared;
ghost use Rattle.ips_request.specs.Stems.{stems_of};
ghost use Rattle.ips_problem.specs.Held.{posed_of};
ghost use Rattle.ips_problem.specs.Posed.{greatest_of, stems_of_test};
ghost use Rattle.ips_problem.specs.Seen.{numbers_mentioned, puzzle_of, seen_numbers, seen_row, seen_test};

use crate::problem::Problem;
use crate::rows::{Numbered, Numbers, Row};
use indexmap::IndexSet;
use ips_fmri::Fmri;
use ips_request::number;
use ips_text::Text;
use std::alloc::{AllocError, Global};

impl Problem {
    /// The puzzle of these stems, with a row for each, these tests, and these stems that stay avoided. Where there are 2^32 of
    /// one kind or more, memory is refused.
    pub(crate) fn new(
        alloc: Global,
        stems: IndexSet<String>,
        rows: Vec<Row>,
        tests: Vec<Numbered>,
        avoid: Vec<Text>,
    ) -> Result<Problem, AllocError>
        requires rows { vec_len rows ≡ length stems.keys }
        requires tests { All (λ n. n.stem < length stems.keys) tests.items }
        requires candidates { All (λ r. vec_len r.candidates < 2 ^ 32) rows.items }
        ensures { IfOk result (λ p. posed_of p ≡ record { stems = stems_of stems.keys; rows = map seen_row rows.items; tests = map seen_test tests.items; avoid = avoid.items }) }
    {
        if stems.len() > u32::MAX as usize {
            return Err(AllocError);
        }
        if tests.len() > u32::MAX as usize {
            return Err(AllocError);
        }
        let numbers = numbers_of(alloc, &stems, &rows, &tests)?;
        Ok(Problem {
            stems,
            rows,
            tests,
            numbers,
            avoid,
        })
    }
}

// The numbers of the stems that each test mentions.
fn numbers_of(
    alloc: Global,
    stems: &IndexSet<String>,
    rows: &[Row],
    tests: &[Numbered],
) -> Result<Vec<Numbers>, AllocError>
    requires { length stems.now.keys < 2 ^ 32 }
    ensures numbered { IfOk result (λ all. map seen_numbers all.items ≡ map (λ n. numbers_mentioned (puzzle_of stems.now.keys rows.now) (seen_test n)) tests.now) }
    ensures last { IfOk result (λ all. map (λ m. m.last) all.items ≡ map (λ n. greatest_of (stems_of_test (puzzle_of stems.now.keys rows.now) (seen_test n))) tests.now) }
{
    let mut all = Vec::with_capacity(alloc, tests.len())?;
    for test in tests {
        let mentioned = numbers_in(alloc, stems, test.test.mentions())?;
        let last = greatest(test.stem, &mentioned);
        all.push(Numbers { mentioned, last })?;
    }
    Ok(all)
}

// By the place of an FMRI, the number of its stem, where it has one.
fn numbers_in(
    alloc: Global,
    stems: &IndexSet<String>,
    mentions: &[Fmri],
) -> Result<Vec<Option<u32>>, AllocError>
    requires { length stems.now.keys < 2 ^ 32 }
    ensures { IfOk result (λ all. all.items ≡ map (λ (f : declared.Fmri). position (bytes_eq f.stem) (stems_of stems.now.keys)) mentions.now) }
{
    let mut all = Vec::with_capacity(alloc, mentions.len())?;
    for fmri in mentions {
        all.push(number_in(stems, fmri.stem.as_str()))?;
    }
    Ok(all)
}

// The number of a stem, where it has one.
fn number_in(stems: &IndexSet<String>, stem: &str) -> Option<u32>
    requires { length stems.now.keys < 2 ^ 32 }
    ensures { result ≡ position (bytes_eq stem.now) (stems_of stems.now.keys) }
{
    match number(stems, stem) {
        Some(number) => Some(number as u32),
        None => None,
    }
}

// The greatest of a test's own number and those that it mentions.
fn greatest(own: u32, mentioned: &[Option<u32>]) -> u32
    ensures { result ≡ greatest_of (own ∷ filter_map (λ o. o) mentioned.now) }
{
    let mut greatest = own;
    for number in mentioned {
        greatest = greatest.max(number.unwrap_or(0));
    }
    greatest
}
