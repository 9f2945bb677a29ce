//! What goes.

ghost use Rattle.std.specs.Prelude.{◌≡◌};
ghost use Rattle.ips_steps.specs.declared.step.Sort.TheVariants as sort;
ghost use Rattle.ips_kinds.specs.Acts.{same_sort};

use crate::kind::{Act, Kind, finish};
use ips_steps::Step;

/// Takes away what stands at the path.
#[derive(Drop)]
pub struct GoneKind {
    tally: u64,
}

impl GoneKind {
    /// A kind that takes exactly the sort `Gone` and has finished nothing yet.
    pub fn new() -> GoneKind
        ensures takes { ⟦<GoneKind as Kind>⟧.sorts result ≡ same_sort sort.Gone }
        ensures nothing { ⟦<GoneKind as Kind>⟧.finished result ≡ 0 }
    {
        GoneKind { tally: 0 }
    }
}

impl Kind for GoneKind {
    ghost sorts = { λ k. same_sort sort.Gone };

    ghost finished = { λ k. k.tally };

    fn takes(&self, step: &Step) -> bool {
        matches!(step, Step::Gone { .. })
    }

    fn next(&mut self, _step: &Step, turn: u8) -> Act {
        match turn {
            0 => Act::Clear,
            _ => finish(&mut self.tally),
        }
    }

    fn tally(&self) -> u64 {
        self.tally
    }
}
