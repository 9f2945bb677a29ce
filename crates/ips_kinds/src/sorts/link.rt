//! Symbolic links.

ghost use Rattle.std.specs.Prelude.{◌≡◌};
ghost use Rattle.ips_steps.specs.declared.step.Sort.TheVariants as sort;
ghost use Rattle.ips_kinds.specs.Acts.{same_sort};

use crate::kind::{Act, Kind, finish};
use ips_steps::Step;

/// Makes a symbolic link in place of what stands at the path.
#[derive(Drop)]
pub struct LinkKind {
    tally: u64,
}

impl LinkKind {
    /// A kind that takes exactly the sort `Link` and has finished nothing yet.
    pub fn new() -> LinkKind
        ensures takes { ⟦<LinkKind as Kind>⟧.sorts result ≡ same_sort sort.Link }
        ensures nothing { ⟦<LinkKind as Kind>⟧.finished result ≡ 0 }
    {
        LinkKind { tally: 0 }
    }
}

impl Kind for LinkKind {
    ghost sorts = { λ k. same_sort sort.Link };

    ghost finished = { λ k. k.tally };

    fn takes(&self, step: &Step) -> bool {
        matches!(step, Step::Link { .. })
    }

    fn next(&mut self, _step: &Step, turn: u8) -> Act {
        match turn {
            0 => Act::Clear,
            1 => Act::MakeLink,
            _ => finish(&mut self.tally),
        }
    }

    fn tally(&self) -> u64 {
        self.tally
    }
}
