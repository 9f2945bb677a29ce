//! Sets whose pairs stand by ascending stem.

ghost use Rattle.std.specs.Prelude.{◌≡◌};
ghost use Rattle.ips_refute.specs.Reading.{ascends};

use crate::nogoods::Pair;

/// Whether the pairs stand by ascending stem, each stem once.
pub fn ascend(set: &[Pair]) -> bool
    ensures { result ≡ ascends set.now }
{
    let mut rest = set;
    while let [first, after @ ..] = rest {
        if let [second, ..] = after
            && first.stem >= second.stem
        {
            return false;
        }
        rest = after;
    }
    true
}
