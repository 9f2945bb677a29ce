//! Sets of pairs by ascending stem.

ghost use Rattle.std.specs.Prelude.{◌≡◌, ◌∷◌, [], List, IfOk, IfNone, IfSome};
ghost use Rattle.ips_refute.specs.Meaning.{Ascends, IsSubset};
ghost use Rattle.ips_refute.specs.declared.nogoods.Pair as declared;
ghost use Rattle.ips_search.specs.Merging.{IsLeast, IsUnion};

use ips_refute::Pair;
use std::alloc::{AllocError, Global};

/// The pairs of two sets of one choice.
pub fn union(alloc: Global, first: &[Pair], second: &[Pair]) -> Result<Vec<Pair>, AllocError>
    requires first { Ascends first.now }
    requires second { Ascends second.now }
    ensures { IfOk result (λ set. (whole : List declared.Pair) → Ascends whole → IsSubset first.now whole → IsSubset second.now whole → IsUnion whole first.now second.now set.items) }
{
    let mut set = Vec::with_capacity(alloc, first.len())?;
    let mut left = first;
    let mut right = second;
    while let Some((pair, more, rest)) = take_least(left, right) {
        set.push(pair)?;
        left = more;
        right = rest;
    }
    Ok(set)
}

// The pair of the least stem at the front of two sets, and what is left of them without it.
fn take_least<'a>(left: &'a [Pair], right: &'a [Pair]) -> Option<(Pair, &'a [Pair], &'a [Pair])>
    ensures none { IfNone result ((left.now ≡ []) × (right.now ≡ [])) }
    ensures some { IfSome result (λ x. IsLeast left.now right.now x.0 x.1.now x.2.now) }
{
    match (left, right) {
        ([], []) => None,
        ([p, more @ ..], []) => Some((*p, more, right)),
        ([], [q, rest @ ..]) => Some((*q, left, rest)),
        ([p, more @ ..], [q, rest @ ..]) => {
            if p.stem < q.stem {
                Some((*p, more, right))
            } else if q.stem < p.stem {
                Some((*q, left, rest))
            } else {
                Some((*p, more, rest))
            }
        }
    }
}
