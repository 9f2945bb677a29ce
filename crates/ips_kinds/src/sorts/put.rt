//! Files.

ghost use Rattle.std.specs.Prelude.{◌≡◌};
ghost use Rattle.ips_steps.specs.declared.step.Sort.TheVariants as sort;
ghost use Rattle.ips_kinds.specs.Acts.{same_sort};

use crate::kind::{Act, Kind, finish};
use ips_steps::Step;

/// Puts a file, with its content and its mode, in place of what stands at the path.
#[derive(Drop)]
pub struct PutKind {
    tally: u64,
}

impl PutKind {
    /// A kind that takes exactly the sort `Put` and has finished nothing yet.
    pub fn new() -> PutKind
        ensures takes { ⟦<PutKind as Kind>⟧.sorts result ≡ same_sort sort.Put }
        ensures nothing { ⟦<PutKind as Kind>⟧.finished result ≡ 0 }
    {
        PutKind { tally: 0 }
    }
}

impl Kind for PutKind {
    ghost sorts = { λ k. same_sort sort.Put };

    ghost finished = { λ k. k.tally };

    fn takes(&self, step: &Step) -> bool {
        matches!(step, Step::Put { .. })
    }

    fn next(&mut self, _step: &Step, turn: u8) -> Act {
        match turn {
            0 => Act::Clear,
            1 => Act::MakeHard,
            _ => finish(&mut self.tally),
        }
    }

    fn tally(&self) -> u64 {
        self.tally
    }
}
