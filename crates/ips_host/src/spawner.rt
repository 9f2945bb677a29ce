//! Programs of the host, as a spawner.

ghost use Rattle.std.specs.Prelude.{◌≡◌, ◌<◌, IfNone, IfSome};
ghost use Rattle.ips_host.specs.Silent.{silent_spawner};

use crate::fault::{FailedCall, Faults};
use crate::programs::run_program;
use ips_outside::{Failed, Spawner};
use ips_text::Text;
use std::alloc::Alloc;
use std::rt::Processes;

/// What runs programs of the host.
///
/// Trusted here, and not proved: that a program was run with the words, and ended with the status that is answered.
#[derive(Drop)]
pub struct HostSpawner<R: Processes + Alloc + Drop> {
    rt: R,
    faults: Faults<R::A>,
}

impl<R: Processes + Alloc + Drop> HostSpawner<R> {
    pub fn new(rt: R) -> HostSpawner<R>
        ensures { (⟦<HostSpawner<R> as Spawner>⟧.running).faults result ≡ 0 }
    {
        let faults = Faults::none(rt.alloc());
        HostSpawner { rt, faults }
    }

    /// The first call that failed.
    pub fn first_fault(&self) -> Option<&FailedCall<R::A>>
        ensures none { IfNone result ((⟦<HostSpawner<R> as Spawner>⟧.running).faults self.now ≡ 0) }
        ensures some { IfSome result (λ _. 0 < (⟦<HostSpawner<R> as Spawner>⟧.running).faults self.now) }
    {
        self.faults.first()
    }
}

impl<R: Processes + Alloc + Drop> Spawner for HostSpawner<R> {
    ghost running = { silent_spawner (λ s. s.faults.count) };

    fn run(&mut self, words: &[Text]) -> Result<u8, Failed> {
        let answer = run_program(&self.rt, self.rt.alloc(), words);
        let program = words.first().map_or("", |word| word.as_str());
        self.faults.counted("run", program, answer)
    }
}
