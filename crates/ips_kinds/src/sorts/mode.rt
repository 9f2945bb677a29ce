//! Modes.

ghost use Rattle.std.specs.Prelude.{◌≡◌};
ghost use Rattle.ips_steps.specs.declared.step.Sort.TheVariants as sort;
ghost use Rattle.ips_kinds.specs.Acts.{same_sort};

use crate::kind::{Act, Kind, finish};
use ips_steps::Step;

/// Sets the mode of what stands at the path.
#[derive(Drop)]
pub struct ModeKind {
    tally: u64,
}

impl ModeKind {
    /// A kind that takes exactly the sort `Mode` and has finished nothing yet.
    pub fn new() -> ModeKind
        ensures takes { ⟦<ModeKind as Kind>⟧.sorts result ≡ same_sort sort.Mode }
        ensures nothing { ⟦<ModeKind as Kind>⟧.finished result ≡ 0 }
    {
        ModeKind { tally: 0 }
    }
}

impl Kind for ModeKind {
    ghost sorts = { λ k. same_sort sort.Mode };

    ghost finished = { λ k. k.tally };

    fn takes(&self, step: &Step) -> bool {
        matches!(step, Step::Mode { .. })
    }

    fn next(&mut self, _step: &Step, turn: u8) -> Act {
        match turn {
            0 => Act::SetMode,
            _ => finish(&mut self.tally),
        }
    }

    fn tally(&self) -> u64 {
        self.tally
    }
}
