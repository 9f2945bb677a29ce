//! Further names of files.

ghost use Rattle.std.specs.Prelude.{◌≡◌};
ghost use Rattle.ips_steps.specs.declared.step.Sort.TheVariants as sort;
ghost use Rattle.ips_kinds.specs.Acts.{same_sort};

use crate::kind::{Act, Kind, finish};
use ips_steps::Step;

/// Makes one more name of a file in place of what stands at the path.
#[derive(Drop)]
pub struct HardKind {
    tally: u64,
}

impl HardKind {
    /// A kind that takes exactly the sort `Hard` and has finished nothing yet.
    pub fn new() -> HardKind
        ensures takes { ⟦<HardKind as Kind>⟧.sorts result ≡ same_sort sort.Hard }
        ensures nothing { ⟦<HardKind as Kind>⟧.finished result ≡ 0 }
    {
        HardKind { tally: 0 }
    }
}

impl Kind for HardKind {
    ghost sorts = { λ k. same_sort sort.Hard };

    ghost finished = { λ k. k.tally };

    fn takes(&self, step: &Step) -> bool {
        matches!(step, Step::Hard { .. })
    }

    fn next(&mut self, _step: &Step, turn: u8) -> Act {
        match turn {
            0 => Act::Clear,
            1 => Act::MakeHard,
            _ => finish(&mut self.tally),
        }
    }

    fn tally(&self) -> u64 {
        self.tally
    }
}
