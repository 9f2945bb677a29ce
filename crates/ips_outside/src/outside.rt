//! Sources of files, sinks of bytes and spawners of programs, as the program meets them.

ghost use Rattle.std.specs.Prelude.{◌≡◌, ◌≤◌, ◌++◌, ℕ, Bool, IsTrue, List, IfOk, IsErr, OnErr, length, take};
ghost use Rattle.ips_outside.specs.Outside.{Outside, IsOutside, HasCause, Reads, look_of, IsSmall, readable, IsRead};
ghost use Rattle.ips_outside.specs.Taking.{Taking, TakesSome};
ghost use Rattle.ips_outside.specs.Running.{Running, Runs};

use ips_text::{RelPath, Text};

/// A call on the outside failed. It says no more: the object's count of faults rose.
#[derive(Clone, Copy, Debug, PartialEq, Eq)]
pub struct Failed;

/// What stands at a path. No link is followed, and a path whose parent isn't a directory is absent.
#[derive(Clone, Copy, Debug, PartialEq, Eq)]
pub enum Look {
    Absent,
    /// A directory, with its permission bits (below 0o10000).
    Dir { mode: u16 },
    /// A file, with its permission bits and its length in bytes.
    File { mode: u16, size: u64 },
    /// A symbolic link.
    Link,
    /// Anything else, as a device or a named pipe.
    Other,
}

/// A tree of files that can be read.
pub trait Source {
    /// What it means to proofs.
    ghost outside: { Outside Self };

    /// What stands at the path.
    fn look(&mut self, path: &RelPath) -> Result<Look, Failed>
        ensures reads { Reads outside self.old self.new (IsErr result) }
        ensures found { IsTrue (outside.tells self.old) → IfOk result (λ found. found ≡ look_of ((outside.state self.old).held.look path.now.bytes)) }
        ensures mode { IfOk result IsSmall };

    /// Reads the file's bytes from the place `at` on into the front of the buffer, and answers how many: at least one
    /// where the file goes on there, and 0 at its end and for a path that isn't a file.
    fn read(&mut self, path: &RelPath, at: u64, buf: &mut [u8]) -> Result<usize, Failed>
        ensures reads { Reads outside self.old self.new (IsErr result) }
        ensures fits { IfOk result (λ count. count ≤ length buf.old) }
        ensures found { IsTrue (outside.tells self.old) → IfOk result (IsRead (readable ((outside.state self.old).held.look path.now.bytes)) at buf.new) };

    ghost sane: { IsOutside outside };
}

/// Where a report goes.
pub trait Sink {
    /// What it means to proofs.
    ghost taking: { Taking Self };

    /// Takes some of the bytes, from the first on, and answers how many: at least one of them. After `Err` it has
    /// taken nothing.
    fn write(&mut self, bytes: &[u8]) -> Result<usize, Failed>
        ensures same_kind { taking.tells self.new ≡ taking.tells self.old }
        ensures cause { HasCause (taking.faults self.old) (taking.faults self.new) (IsErr result) }
        ensures some { IfOk result (TakesSome bytes.now) }
        ensures taken { IsTrue (taking.tells self.old) → IfOk result (λ count. taking.taken self.new ≡ taking.taken self.old ++ take count bytes.now) }
        ensures kept { IsTrue (taking.tells self.old) → OnErr result (taking.taken self.new ≡ taking.taken self.old) };
}

/// What runs programs.
pub trait Spawner {
    /// What it means to proofs.
    ghost running: { Running Self };

    /// Runs the program that the first word names with all the words, waits until it has ended, and answers its status.
    /// After `Err` it hasn't run to an end of which a status tells.
    fn run(&mut self, words: &[Text]) -> Result<u8, Failed>
        ensures { Runs running words.now self.old self.new result };
}
