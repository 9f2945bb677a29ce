//! A folder of the host that is read.

ghost use Rattle.std.specs.Prelude.{◌≡◌, ◌<◌, IfNone, IfSome};
ghost use Rattle.ips_host.specs.Roots.{repository_root};
ghost use Rattle.ips_host.specs.Silent.{silent, silent_is_sane};

use crate::fault::{FailedCall, Faults, counted};
use crate::opened::{Reading, read};
use crate::root::{Devices, Root, look};
use ips_outside::{Failed, Look, Source};
use ips_text::{RelPath, Text};
use std::alloc::Alloc;
use std::fs::Files;

/// The files below a root of the host, to be read.
///
/// Trusted here, and not proved: that a look and a read answer what stands there, and that nobody writes there in the
/// meantime.
#[derive(Drop)]
pub struct HostSource<R: Files + Alloc + Drop> {
    rt: R,
    root: Root<R::File, R::A>,
    reading: Reading<R::File, R::A>,
    faults: Faults<R::A>,
}

impl<R: Files + Alloc + Drop> HostSource<R> {
    /// The files below this path of the host.
    pub fn new(rt: R, root: Text) -> HostSource<R>
        ensures faults { (⟦<HostSource<R> as Source>⟧.outside).faults result ≡ 0 }
        ensures root { repository_root result ≡ root }
    {
        let root = Root::new(&rt, root, Devices::Any);
        let reading = Reading::none(&rt);
        let faults = Faults::none(rt.alloc());
        HostSource {
            rt,
            root,
            reading,
            faults,
        }
    }

    /// The first call that failed.
    pub fn first_fault(&self) -> Option<&FailedCall<R::A>>
        ensures none { IfNone result ((⟦<HostSource<R> as Source>⟧.outside).faults self.now ≡ 0) }
        ensures some { IfSome result (λ _. 0 < (⟦<HostSource<R> as Source>⟧.outside).faults self.now) }
    {
        self.faults.first()
    }
}

impl<R: Files + Alloc + Drop> Source for HostSource<R> {
    ghost outside = { silent (λ s. s.faults.count) (λ s. 0) };

    ghost sane = { silent_is_sane (λ s. s.faults.count) (λ s. 0) };

    fn look(&mut self, path: &RelPath) -> Result<Look, Failed> {
        let answer = look(&self.rt, &mut self.root, path);
        counted(&mut self.faults, &mut self.root, "lstat", path, answer)
    }

    fn read(&mut self, path: &RelPath, at: u64, buf: &mut [u8]) -> Result<usize, Failed> {
        let answer = read(&self.rt, &mut self.root, &mut self.reading, path, at, buf);
        counted(&mut self.faults, &mut self.root, "read", path, answer)
    }
}
