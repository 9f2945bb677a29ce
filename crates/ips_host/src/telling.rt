//! The words of the system behind a fault, on standard error.

ghost use Rattle.std.specs.Prelude.{◌↔◌, IsSome, IsTrue};
ghost use Rattle.ips_host.specs.Telling.{IsToldOf};

use crate::fault::FailedCall;
use crate::folder::HostFolder;
use crate::sink::HostSink;
use crate::source::HostSource;
use crate::spawner::HostSpawner;
use ips_outside::{Sink, Source, Spawner};
use std::alloc::{Alloc, Allocator};
use std::env::Env;
use std::fs::Files;
use std::io::{Eprint, Print};
use std::rt::Processes;
use std::time::Clock;

/// Of which objects a line was written.
#[derive(Clone, Copy)]
pub struct Told {
    image: bool,
    repository: bool,
    spawner: bool,
    report: bool,
}

/// Writes a line to standard error for each object that failed: `pkg: <call> <path>: <error>`, of its first call that did.
pub fn tell_faults<E: Eprint, R: Files + Alloc + Processes + Env + Clock + Print + Eprint + Drop>(
    errors: &E,
    image: &HostFolder<R>,
    repository: &HostSource<R>,
    spawner: &HostSpawner<R>,
    report: &HostSink<R>,
) -> Told
    ensures { IsToldOf result ((⟦<HostFolder<R> as Source>⟧.outside).faults image.now) ((⟦<HostSource<R> as Source>⟧.outside).faults repository.now) ((⟦<HostSpawner<R> as Spawner>⟧.running).faults spawner.now) ((⟦<HostSink<R> as Sink>⟧.taking).faults report.now) }
{
    Told {
        image: tell(errors, image.first_fault()),
        repository: tell(errors, repository.first_fault()),
        spawner: tell(errors, spawner.first_fault()),
        report: tell(errors, report.first_fault()),
    }
}

// Whether there is a fault, whose line is lost where nobody takes it.
fn tell<E: Eprint, A: Allocator>(errors: &E, fault: Option<&FailedCall<A>>) -> bool
    ensures { IsTrue result ↔ IsSome fault.entry }
{
    let Some(failed) = fault else {
        return false;
    };
    let _ = errors.eprintln(format_args!("pkg: {failed}"));
    true
}
