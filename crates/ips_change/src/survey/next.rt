//! The next of rows and of paths that are spoken of.

ghost use Rattle.std.specs.Prelude.{◌≡◌};
ghost use Rattle.std.specs.Option.{option_map};
ghost use Rattle.ips_change.specs.survey.Lines as spec;

use crate::Stands;
use crate::survey::row::Row;
use crate::survey::said::{Said, Spoken};
use std::cmp::Ordering;

/// A row with what is said of its path.
#[derive(Clone, Copy, Drop)]
pub struct Line<'a> {
    pub row: Row<'a>,
    pub said: Option<Said>,
    /// Of which list it comes: less, of the rows; greater, of the paths that are spoken of; equal, of both.
    pub origin: Ordering,
}

/// The line of the first of both paths; one line where they are one.
pub fn first<'a>(row: Option<&Row<'a>>, spoken: Option<&Spoken<'a>>) -> Option<Line<'a>>
    ensures { result ≡ spec.first_line (option_map (λ x. x.now) row.entry) (option_map (λ x. x.now) spoken.entry) }
{
    match (row, spoken) {
        (Some(row), Some(spoken)) => Some(lesser(row, spoken)),
        (Some(row), None) => Some(unsaid(row)),
        (None, Some(spoken)) => Some(bare(spoken)),
        (None, None) => None,
    }
}

// The line of the first of both paths; one line where they are one.
fn lesser<'a>(row: &Row<'a>, spoken: &Spoken<'a>) -> Line<'a>
    ensures { result ≡ spec.lesser_line row.now spoken.now }
{
    match row.path.cmp(spoken.path) {
        Ordering::Less => unsaid(row),
        Ordering::Equal => Line {
            row: *row,
            said: spoken.said,
            origin: Ordering::Equal,
        },
        Ordering::Greater => bare(spoken),
    }
}

// A row of whose path nothing is said.
fn unsaid<'a>(row: &Row<'a>) -> Line<'a>
    ensures { result ≡ spec.unsaid row.now }
{
    Line {
        row: *row,
        said: None,
        origin: Ordering::Less,
    }
}

// A path that neither was nor is wanted, where no rule asks what stands.
fn bare<'a>(spoken: &Spoken<'a>) -> Line<'a>
    ensures { result ≡ spec.bare spoken.now }
{
    Line {
        row: Row {
            path: spoken.path,
            old: None,
            new: None,
            stands: Stands::Unasked,
        },
        said: spoken.said,
        origin: Ordering::Greater,
    }
}

/// How many rows a line takes.
pub fn rows_taken(origin: Ordering) -> usize
    ensures { result ≡ spec.rows_taken origin }
{
    match origin {
        Ordering::Greater => 0,
        _ => 1,
    }
}

/// How many paths that are spoken of a line takes.
pub fn spoken_taken(origin: Ordering) -> usize
    ensures { result ≡ spec.spoken_taken origin }
{
    match origin {
        Ordering::Less => 0,
        _ => 1,
    }
}
