//! How far a run is, told on standard error where that is a terminal.

use ips_text::RelPath;
use std::alloc::{Alloc, Allocator};
use std::env;
use std::env::Env;
use std::io::Eprint;
use std::time::{Clock, Duration, Instant};

/// So many milliseconds a run takes before it is told how far it is.
const FIRST: u64 = 500;

/// And so many until it is told anew.
const ANEW: u64 = 200;

/// What takes the place of a line that was written, on a terminal (ECMA-48, "erase in line").
const WIPE: &str = "\r\u{1b}[K";

/// What a run is at.
#[derive(Clone, Copy, PartialEq, Eq)]
enum Phase {
    /// Contents are written, before the gate.
    Staging,
    /// Steps are carried out.
    Laying,
}

/// A line that tells how far a run is: what it is at, and how many paths and bytes were written so far.
#[derive(Drop)]
pub struct Progress<A: Allocator> {
    // When it is told next, where it is told at all.
    due: Option<Instant>,
    phase: Phase,
    paths: u64,
    bytes: u64,
    // The path that was counted last.
    last: Vec<u8, A>,
    is_shown: bool,
}

impl<A: Allocator> Progress<A> {
    /// Nothing is told where standard error is no terminal, where `PKG_QUIET` is set, and where there is no clock.
    pub fn new<R: Alloc<A = A> + Env + Clock>(rt: &R) -> Progress<A> {
        let is_told = libc::isatty(libc::STDERR_FILENO) == 1 && env::var(rt, "PKG_QUIET").is_err();
        Progress {
            due: if is_told { behind(rt, FIRST) } else { None },
            phase: Phase::Staging,
            paths: 0,
            bytes: 0,
            last: Vec::new(rt.alloc()),
            is_shown: false,
        }
    }

    /// So many bytes are written to the path, or it is made, changed or taken away.
    pub fn went<R: Eprint + Clock>(&mut self, rt: &R, path: &RelPath, bytes: usize) {
        let Some(due) = self.due else {
            return;
        };
        match phase_at(path.bytes()) {
            Some(phase) => self.count(phase, path.bytes(), bytes),
            None => return self.wipe(rt),
        }
        if is_past(rt, due) {
            self.show(rt);
        }
    }

    // Counts the path, if it isn't that of the call before.
    fn count(&mut self, phase: Phase, path: &[u8], bytes: usize) {
        if self.phase != phase {
            self.phase = phase;
            self.paths = 0;
            self.bytes = 0;
        }
        self.bytes = self.bytes.saturating_add(bytes as u64);
        if self.last.as_slice() == path {
            return;
        }
        self.paths = self.paths.saturating_add(1);
        self.last.clear();
        if self.last.extend_from_slice(path).is_err() {
            self.last.clear();
        }
    }

    // Writes the line in the place of the one that is shown.
    fn show<R: Eprint + Clock>(&mut self, rt: &R) {
        let word = match self.phase {
            Phase::Staging => "staging",
            Phase::Laying => "laying",
        };
        let (paths, bytes) = (self.paths, self.bytes);
        let _ = rt.eprint(format_args!("{WIPE}pkg: {word}: {paths} paths, {bytes} bytes"));
        self.is_shown = true;
        self.due = behind(rt, ANEW);
    }

    /// Takes the line away, where one is shown.
    pub fn wipe<R: Eprint>(&mut self, rt: &R) {
        if self.is_shown {
            let _ = rt.eprint(WIPE);
            self.is_shown = false;
        }
    }
}

// What a run is at that writes there, but for the journal, the marks, the gate and the stage itself, as which it changes from one to the other or ends.
fn phase_at(path: &[u8]) -> Option<Phase> {
    match path.strip_prefix(b"var/pkg/") {
        Some(name) if name.starts_with(b"stage/") => Some(Phase::Staging),
        Some(name) if is_own(name) => None,
        _ => Some(Phase::Laying),
    }
}

// Whether the name in the folder of the records is the updater's own.
fn is_own(name: &[u8]) -> bool {
    name == b"stage".as_slice()
        || name == b"journal".as_slice()
        || name == b"gate".as_slice()
        || name.starts_with(b"done.")
}

// The time that is so many milliseconds behind now.
fn behind<R: Clock>(rt: &R, wait: u64) -> Option<Instant> {
    match Instant::now(rt) {
        Ok(now) => now.checked_add(Duration::from_millis(wait)),
        Err(_) => None,
    }
}

// Whether the time has come.
fn is_past<R: Clock>(rt: &R, due: Instant) -> bool {
    match Instant::now(rt) {
        Ok(now) => now >= due,
        Err(_) => false,
    }
}
