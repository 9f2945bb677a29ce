//! Standard output.

ghost use Rattle.std.specs.Prelude.{◌≡◌, ◌<◌, IfNone, IfOk, IfSome};
ghost use Rattle.ips_outside.specs.Taking.{TakesSome};
ghost use Rattle.ips_host.specs.Silent.{silent_sink};

use crate::fault::{FailedCall, Faults, Refused};
use ips_outside::{Failed, Sink};
use std::alloc::Alloc;
use std::io;
use std::io::{Print, Write};

/// Standard output.
///
/// Trusted here, and not proved: that what the host answers as written was written.
#[derive(Drop)]
pub struct HostSink<R: Print + Alloc + Drop> {
    rt: R,
    faults: Faults<R::A>,
}

impl<R: Print + Alloc + Drop> HostSink<R> {
    pub fn new(rt: R) -> HostSink<R>
        ensures { (⟦<HostSink<R> as Sink>⟧.taking).faults result ≡ 0 }
    {
        let faults = Faults::none(rt.alloc());
        HostSink { rt, faults }
    }

    /// The first call that failed.
    pub fn first_fault(&self) -> Option<&FailedCall<R::A>>
        ensures none { IfNone result ((⟦<HostSink<R> as Sink>⟧.taking).faults self.now ≡ 0) }
        ensures some { IfSome result (λ _. 0 < (⟦<HostSink<R> as Sink>⟧.taking).faults self.now) }
    {
        self.faults.first()
    }
}

impl<R: Print + Alloc + Drop> Sink for HostSink<R> {
    ghost taking = { silent_sink (λ s. s.faults.count) };

    fn write(&mut self, bytes: &[u8]) -> Result<usize, Failed> {
        let answer = write_some(&self.rt, bytes);
        self.faults.counted("write", "standard output", answer)
    }
}

// At least one byte, where there are any.
fn write_some<R: Print>(rt: &R, bytes: &[u8]) -> Result<usize, Refused>
    ensures { IfOk result (TakesSome bytes.now) }
{
    if bytes.is_empty() {
        return Ok(0);
    }
    let mut output = io::writer(rt);
    let count = output.write(bytes)?;
    if count == 0 {
        return Err(Refused::Unnumbered);
    }
    output.flush()?;
    Ok(count)
}
