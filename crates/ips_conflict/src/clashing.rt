//! What is told of a clash.

ghost use Rattle.std.specs.Prelude.{◌≡◌, ◌<◌};
ghost use Rattle.ips_conflict.specs.Verdict.{rule_rank};

use ips_text::Text;

/// Why actions can't stand in one image. Of several clashes over one key the first in this order is told.
#[derive(Clone, Copy, Debug, PartialEq, Eq, Drop)]
pub enum Rule {
    /// Two links at one path have different mediators, or one has none.
    Mediator,
    /// Two actions of one key are of different kinds.
    Kinds,
    /// Two actions of one key and kind, but files, don't say the same.
    Attributes,
    /// Two files stand at one path, and neither takes the other's place.
    Deliverers,
    /// Something is wanted below a path that is wanted as other than a directory.
    Below,
    /// A hardlink doesn't lead to a wanted file, or to one that may be missing.
    Target,
}

impl Rule {
    /// The rule of this rank, of those that two actions of one key break.
    pub(crate) fn ranked(rank: u8) -> Rule
        requires { rank < 4 }
        ensures { rule_rank result ≡ rank }
    {
        match rank {
            0 => Rule::Mediator,
            1 => Rule::Kinds,
            2 => Rule::Attributes,
            _ => Rule::Deliverers,
        }
    }

    /// The rank of the rule.
    pub(crate) fn rank(self) -> u8
        ensures { result ≡ rule_rank self }
    {
        match self {
            Rule::Mediator => 0,
            Rule::Kinds => 1,
            Rule::Attributes => 2,
            Rule::Deliverers => 3,
            Rule::Below => 4,
            Rule::Target => 5,
        }
    }
}

/// A clash: its key, and the names of the two actions, each a package's stem, a colon and a line, or `image:0` for what the
/// image itself keeps.
#[derive(Drop)]
pub struct Clash {
    /// The key: a path, the name of what is added, or a package and the name of its license.
    pub key: Text,
    /// The first action: the earlier one, the one that stands in the way of what is below it, or the hardlink.
    pub first: Text,
    /// The second action: the later one, the one below, or the hardlink again.
    pub second: Text,
    /// Why they clash.
    pub rule: Rule,
}

/// A clash of actions by their places; none in the second place is the image itself.
#[derive(Clone, Copy, Drop)]
pub(crate) struct Found {
    pub(crate) rule: Rule,
    pub(crate) first: usize,
    pub(crate) second: Option<usize>,
}
