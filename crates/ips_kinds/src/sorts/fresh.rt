//! New directories.

ghost use Rattle.std.specs.Prelude.{◌≡◌};
ghost use Rattle.ips_steps.specs.declared.step.Sort.TheVariants as sort;
ghost use Rattle.ips_kinds.specs.Acts.{same_sort};

use crate::kind::{Act, Kind, finish};
use ips_steps::Step;

/// Makes a directory in place of what stands at the path.
#[derive(Drop)]
pub struct FreshKind {
    tally: u64,
}

impl FreshKind {
    /// A kind that takes exactly the sort `Fresh` and has finished nothing yet.
    pub fn new() -> FreshKind
        ensures takes { ⟦<FreshKind as Kind>⟧.sorts result ≡ same_sort sort.Fresh }
        ensures nothing { ⟦<FreshKind as Kind>⟧.finished result ≡ 0 }
    {
        FreshKind { tally: 0 }
    }
}

impl Kind for FreshKind {
    ghost sorts = { λ k. same_sort sort.Fresh };

    ghost finished = { λ k. k.tally };

    fn takes(&self, step: &Step) -> bool {
        matches!(step, Step::Fresh { .. })
    }

    fn next(&mut self, _step: &Step, turn: u8) -> Act {
        match turn {
            0 => Act::Clear,
            1 => Act::MakeDir,
            _ => finish(&mut self.tally),
        }
    }

    fn tally(&self) -> u64 {
        self.tally
    }
}
