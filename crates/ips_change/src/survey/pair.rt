//! A path that is or was wanted.

ghost use Rattle.std.specs.Prelude.{◌≡◌};
ghost use Rattle.std.specs.Option.{option_map};
ghost use Rattle.ips_change.specs.survey.Pairs as spec;

use ips_meaning::Entry;
use ips_text::RelPath;
use std::cmp::Ordering;

/// A path that is or was wanted, with what was and what is.
#[derive(Clone, Copy, Drop)]
pub struct Pair<'a> {
    pub path: &'a RelPath,
    pub old: Option<&'a Entry>,
    pub new: Option<&'a Entry>,
}

/// The first of the next old and the next new path; both where they are one.
pub fn first<'a>(
    old: Option<(&'a RelPath, &'a Entry)>,
    new: Option<(&'a RelPath, &'a Entry)>,
) -> Option<Pair<'a>>
    ensures { option_map spec.pair_seen result ≡ spec.first (option_map (λ x. (x.0.now.bytes, x.1.now)) old.entry) (option_map (λ x. (x.0.now.bytes, x.1.now)) new.entry) }
{
    match (old, new) {
        (Some((path, old)), Some((other, new))) => Some(lesser(path, old, other, new)),
        (Some((path, old)), None) => Some(Pair {
            path,
            old: Some(old),
            new: None,
        }),
        (None, Some((path, new))) => Some(Pair {
            path,
            old: None,
            new: Some(new),
        }),
        (None, None) => None,
    }
}

// The first of an old and a new path; both where they are one.
fn lesser<'a>(path: &'a RelPath, old: &'a Entry, other: &'a RelPath, new: &'a Entry) -> Pair<'a>
    ensures { spec.pair_seen result ≡ spec.lesser (path.now.bytes, old.now) (other.now.bytes, new.now) }
{
    match path.cmp(other) {
        Ordering::Less => Pair {
            path,
            old: Some(old),
            new: None,
        },
        Ordering::Equal => Pair {
            path,
            old: Some(old),
            new: Some(new),
        },
        Ordering::Greater => Pair {
            path: other,
            old: None,
            new: Some(new),
        },
    }
}

/// How many entries of a Want the path takes: one where it has one.
pub fn taken(entry: Option<&Entry>) -> usize
    ensures { result ≡ spec.taken entry.entry }
{
    match entry {
        Some(_) => 1,
        None => 0,
    }
}
