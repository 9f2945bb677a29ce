//! Modes that what was made or changed in one directory was seen to have.

ghost use Rattle.std.specs.Prelude.{IfSome};
ghost use Rattle.ips_host.specs.Modes.{HasMode};

use crate::standing::mode_of;
use ips_text::{covers, parent};
use std::alloc::{Alloc, AllocError, Allocator};
use std::fs::Metadata;

/// The greatest mode without the bits for setuid, setgid and sticky. Those may be refused to one file and given to another.
const PLAIN: u16 = 0o777;

/// How something got its mode.
#[derive(Clone, Copy, PartialEq, Eq)]
pub enum Way {
    /// It is a directory that was made with it.
    MadeDir,
    /// It is a file that was made with it.
    MadeFile,
    /// It is a directory, which was given it.
    GivenDir,
    /// It is a file, which was given it.
    GivenFile,
}

/// What was looked at, with how it got its mode.
#[derive(Drop)]
struct Example {
    way: Way,
    found: Metadata,
}

/// What was looked at in one directory, one for each mode of at most nine bits and each way to it. Where the system kept a mode once it
/// keeps it again: the process's umask is the same, and so are the rights that the directory gives to what is made in it, while nobody
/// else writes there.
#[derive(Drop)]
pub struct Modes<A: Allocator> {
    // The directory's path below the root, and an empty one of the root itself.
    dir: Vec<u8, A>,
    examples: Vec<Example, A>,
}

impl<A: Allocator> Modes<A> {
    /// Nothing was looked at.
    pub fn none<R: Alloc<A = A>>(rt: &R) -> Modes<A> {
        Modes {
            dir: Vec::new(rt.alloc()),
            examples: Vec::new(rt.alloc()),
        }
    }

    /// One that was looked at in the directory of the path, and had got this mode so.
    pub fn example(&self, way: Way, path: &[u8], mode: u16) -> Option<&Metadata>
        ensures { IfSome result (λ found. HasMode found.now mode) }
    {
        if self.dir.as_slice() != dir_of(path) {
            return None;
        }
        for example in self.examples.as_slice() {
            if example.way == way && mode_of(&example.found) == mode {
                return Some(&example.found);
            }
        }
        None
    }

    /// Keeps what was looked at, where there is memory for it.
    pub fn keep(&mut self, way: Way, path: &[u8], found: &Metadata) {
        if mode_of(found) > PLAIN {
            return;
        }
        let Ok(found) = found.clone() else {
            return;
        };
        if self.turn_to(dir_of(path)).is_ok() {
            let _ = self.examples.push(Example { way, found });
        }
    }

    // Where there is no memory for its path it turns to the root, of which nothing is known then.
    fn turn_to(&mut self, dir: &[u8]) -> Result<(), AllocError> {
        if self.dir.as_slice() == dir {
            return Ok(());
        }
        self.forget();
        self.dir.extend_from_slice(dir)
    }

    /// Forgets all.
    pub fn forget(&mut self) {
        self.dir.clear();
        self.examples.clear();
    }

    /// A directory is taken away, with all below it, or gets another mode.
    pub fn forget_at(&mut self, gone: &[u8]) {
        if covers(gone, self.dir.as_slice()) {
            self.forget();
        }
    }
}

// The directory of a path, an empty path for the root.
fn dir_of(path: &[u8]) -> &[u8] {
    match parent(path) {
        Some(dir) => dir,
        None => &[],
    }
}
