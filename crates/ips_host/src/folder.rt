//! A folder of the host that is read and changed.

ghost use Rattle.std.specs.Prelude.{◌≡◌, ◌<◌, IfNone, IfSome, IsErr};
ghost use Rattle.ips_outside.specs.Outside.{HasCause, OneMore};
ghost use Rattle.ips_host.specs.Roots.{image_root, image_devices};
ghost use Rattle.ips_host.specs.Silent.{silent, silent_is_sane};

use crate::calls;
use crate::fault::{Counts, FailedCall, Faults, Refused, counted, counted_made};
use crate::opened::{Opened, Reading, append, read};
use crate::progress::Progress;
use crate::root::{Devices, Root, look};
use crate::standing::is_one;
use ips_folder::{Folder, ListFault, Listing};
use ips_outside::{Failed, Look, Source};
use ips_text::{RelPath, Text};
use std::alloc::{Alloc, Global};
use std::env::Env;
use std::fs::Files;
use std::io::Eprint;
use std::rt::Processes;
use std::time::Clock;

/// The files below a root of the host, to be read and changed.
///
/// Trusted here, and not proved: that the host's calls do what they answer, that nobody else writes below the root in
/// the meantime, and that after `sync -f` of the root a crash loses nothing of what was written there before. That the
/// whole folder stands on one file system is looked at: a call at a path whose directory is on another device than the
/// root, or there by another mount, fails.
#[derive(Drop)]
pub struct HostFolder<R: Files + Alloc + Processes + Env + Clock + Eprint + Drop> {
    rt: R,
    root: Root<R::File, R::A>,
    reading: Reading<R::File, R::A>,
    // The file that was made or appended to last.
    appending: Opened<R::File, R::A>,
    counts: Counts<R::A>,
    progress: Progress<R::A>,
}

impl<R: Files + Alloc + Processes + Env + Clock + Eprint + Drop> HostFolder<R> {
    /// The files below this path of the host, on the device of the root alone, by its mount.
    pub fn new(rt: R, root: Text) -> HostFolder<R>
        ensures faults { (⟦<HostFolder<R> as Source>⟧.outside).faults result ≡ 0 }
        ensures root { image_root result ≡ root }
        ensures devices { image_devices result ≡ Devices.OfRoot }
    {
        let root = Root::new(&rt, root, Devices::OfRoot);
        let reading = Reading::none(&rt);
        let appending = Opened::none(rt.alloc());
        let faults = Faults::none(rt.alloc());
        let counts = Counts { faults, changes: 0 };
        let progress = Progress::new(&rt);
        HostFolder {
            rt,
            root,
            reading,
            appending,
            counts,
            progress,
        }
    }

    // The answer to a call that may change something. Where it failed the run ends, and the line that tells how far it is goes.
    fn changed<T: Drop>(
        &mut self,
        call: &'static str,
        path: &RelPath,
        answer: Result<T, Refused>,
    ) -> Result<(), Failed>
        ensures cause { HasCause self.old.counts.faults.count self.new.counts.faults.count (IsErr result) }
        ensures one_made { OneMore self.old.counts.changes self.new.counts.changes }
    {
        let told = self.counts.changed(&mut self.root, call, path, answer);
        if told.is_err() {
            self.progress.wipe(&self.rt);
        }
        told
    }

    /// The first call that failed.
    pub fn first_fault(&self) -> Option<&FailedCall<R::A>>
        ensures none { IfNone result ((⟦<HostFolder<R> as Source>⟧.outside).faults self.now ≡ 0) }
        ensures some { IfSome result (λ _. 0 < (⟦<HostFolder<R> as Source>⟧.outside).faults self.now) }
    {
        self.counts.faults.first()
    }
}

impl<R: Files + Alloc + Processes + Env + Clock + Eprint + Drop> Source for HostFolder<R> {
    ghost outside = { silent (λ s. s.counts.faults.count) (λ s. s.counts.changes) };

    ghost sane = { silent_is_sane (λ s. s.counts.faults.count) (λ s. s.counts.changes) };

    fn look(&mut self, path: &RelPath) -> Result<Look, Failed> {
        let answer = look(&self.rt, &mut self.root, path);
        counted(
            &mut self.counts.faults,
            &mut self.root,
            "lstat",
            path,
            answer,
        )
    }

    fn read(&mut self, path: &RelPath, at: u64, buf: &mut [u8]) -> Result<usize, Failed> {
        let answer = read(&self.rt, &mut self.root, &mut self.reading, path, at, buf);
        counted(
            &mut self.counts.faults,
            &mut self.root,
            "read",
            path,
            answer,
        )
    }
}

impl<R: Files + Alloc + Processes + Env + Clock + Eprint + Drop> Folder for HostFolder<R> {
    fn list(&mut self, alloc: Global, dir: &RelPath) -> Result<Listing, ListFault> {
        let answer = calls::list(&self.rt, &mut self.root, alloc, dir);
        counted_made(
            &mut self.counts.faults,
            &mut self.root,
            "readdir",
            dir,
            answer,
        )
    }

    fn target(&mut self, alloc: Global, path: &RelPath) -> Result<Vec<u8>, ListFault> {
        let answer = calls::target(&self.rt, &mut self.root, alloc, path);
        counted_made(
            &mut self.counts.faults,
            &mut self.root,
            "readlink",
            path,
            answer,
        )
    }

    fn same(&mut self, a: &RelPath, b: &RelPath) -> Result<bool, Failed> {
        let first = calls::node_of(&self.rt, &mut self.root, a);
        let first = counted(&mut self.counts.faults, &mut self.root, "lstat", a, first)?;
        let second = calls::node_of(&self.rt, &mut self.root, b);
        let second = counted(&mut self.counts.faults, &mut self.root, "lstat", b, second)?;
        Ok(is_one(first, second))
    }

    fn make_dir(&mut self, path: &RelPath, mode: u16) -> Result<(), Failed> {
        self.progress.went(&self.rt, path, 0);
        let answer = calls::make_dir(&self.rt, &mut self.root, path, mode);
        self.changed("mkdir", path, answer)
    }

    fn make_file(&mut self, path: &RelPath) -> Result<(), Failed> {
        self.progress.went(&self.rt, path, 0);
        let answer = calls::make_file(&self.rt, &mut self.root, &mut self.appending, path);
        self.changed("open", path, answer)
    }

    fn append(&mut self, path: &RelPath, bytes: &[u8]) -> Result<(), Failed> {
        self.progress.went(&self.rt, path, bytes.len());
        let answer = append(&self.rt, &mut self.root, &mut self.appending, path, bytes);
        self.changed("write", path, answer)
    }

    fn make_link(&mut self, path: &RelPath, target: &[u8]) -> Result<(), Failed> {
        self.progress.went(&self.rt, path, 0);
        let answer = calls::make_link(&self.rt, &mut self.root, path, target);
        self.changed("symlink", path, answer)
    }

    fn make_hard(&mut self, path: &RelPath, to: &RelPath) -> Result<(), Failed> {
        self.progress.went(&self.rt, path, 0);
        let answer = calls::make_hard(&self.rt, &mut self.root, path, to);
        self.changed("link", path, answer)
    }

    fn remove(&mut self, path: &RelPath) -> Result<(), Failed> {
        self.progress.went(&self.rt, path, 0);
        self.reading.let_go(path);
        self.appending.let_go(path);
        let answer = calls::remove(&self.rt, &mut self.root, path);
        self.changed("unlink", path, answer)
    }

    fn set_mode(&mut self, path: &RelPath, mode: u16) -> Result<(), Failed> {
        self.progress.went(&self.rt, path, 0);
        let answer = calls::set_mode(&self.rt, &mut self.root, &self.appending, path, mode);
        self.changed("chmod", path, answer)
    }

    fn sync(&mut self) -> Result<(), Failed> {
        self.reading.close();
        self.appending.close();
        let calls::Answered { call, answer } = calls::sync(&self.rt, &mut self.root);
        self.progress.wipe(&self.rt);
        self.counts.synced(call, self.root.path(), answer)
    }
}
