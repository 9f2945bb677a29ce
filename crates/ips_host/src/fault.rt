//! Why a call of the host failed, and the count of an object's faults with the first of them.

ghost use Rattle.std.specs.Prelude.{◌≡◌, ◌<◌, IsErr, IsErrOf, IfErr, IfNone, IfOk, IfSome, OnOk, Ok, ⊤};
ghost use Rattle.ips_folder.specs.declared.listing.ListFault.TheVariants as list_fault;
ghost use Rattle.ips_outside.specs.Outside.{HasCause, OneMore};

use crate::root::{Root, text_of};
use ips_commands::Unwell;
use ips_folder::ListFault;
use ips_outside::Failed;
use ips_text::RelPath;
use std::alloc::{AllocError, Allocator};
use std::fmt::{Display, Formatter};
use std::io::ErrorKind;
use std::{fmt, io};

/// Why a call failed.
#[derive(Clone, Copy)]
pub enum Refused {
    /// The system's error, by its number.
    System(i32),
    /// The host's answer is an error without a number.
    Unnumbered,
    /// Memory was refused.
    Memory,
    /// What stands there isn't what the call is for.
    Unfit,
    /// The mode that was given isn't the one that stands there.
    Mode,
    /// A signal ended the program.
    Signal,
    /// The program ended with a status other than 0.
    Status,
    /// `/dev/null` can't be opened, by the system's error.
    Null(i32),
    /// The program of a sync can't be run or waited for, by the system's error.
    Sync(i32),
}

impl From<io::Error> for Refused {
    fn from(e: io::Error) -> Refused {
        match e.raw_os_error() {
            Some(number) => Refused::System(number),
            None if e.kind() == ErrorKind::OutOfMemory => Refused::Memory,
            None => Refused::Unnumbered,
        }
    }
}

impl From<AllocError> for Refused {
    fn from(_e: AllocError) -> Refused {
        Refused::Memory
    }
}

impl From<Unwell> for Refused {
    fn from(why: Unwell) -> Refused {
        match why {
            Unwell::Signal => Refused::Signal,
            Unwell::Status => Refused::Status,
        }
    }
}

impl Display for Refused {
    fn fmt<W: fmt::Write>(&self, f: &mut Formatter<W>) -> fmt::Result {
        match self {
            Refused::System(number) => write_error(f, *number),
            Refused::Unnumbered => f.write_str("an error without a number"),
            Refused::Memory => f.write_str("memory was refused"),
            Refused::Unfit => f.write_str("something else stands there"),
            Refused::Mode => f.write_str("the mode wasn't kept"),
            Refused::Signal => f.write_str("a signal ended it"),
            Refused::Status => f.write_str("it ended with a status other than 0"),
            Refused::Null(number) => {
                f.write_str("/dev/null: ")?;
                write_error(f, *number)
            }
            Refused::Sync(number) => {
                f.write_str(of_sync(*number))?;
                write_error(f, *number)
            }
        }
    }
}

// The system's words.
fn write_error<W: fmt::Write>(f: &mut Formatter<W>, number: i32) -> fmt::Result {
    Display::fmt(&io::Error::from_raw_os_error(number), f)
}

// Whose fault it is that a sync can't be made. Of a child nobody is told where SIGCHLD is ignored.
fn of_sync(number: i32) -> &'static str {
    if number == libc::ECHILD {
        "/bin/sync (is SIGCHLD ignored?): "
    } else {
        "/bin/sync: "
    }
}

/// The host's answer.
pub fn or_refused<T>(answer: io::Result<T>) -> Result<T, Refused>
    ensures { IfOk result (λ value. answer ≡ Ok value) }
{
    match answer {
        Ok(found) => Ok(found),
        Err(e) => Err(Refused::from(e)),
    }
}

/// The same answer, whose error is that memory was refused.
pub fn or_no_memory<T, E: Drop>(answer: Result<T, E>) -> Result<T, Refused>
    ensures { IfOk result (λ value. answer ≡ Ok value) }
{
    match answer {
        Ok(found) => Ok(found),
        Err(_) => Err(Refused::Memory),
    }
}

/// A call that failed: its name, as the system has it, the path of the host, and why.
#[derive(Drop)]
pub struct FailedCall<A: Allocator> {
    call: &'static str,
    place: String<A>,
    why: Refused,
}

impl<A: Allocator> Display for FailedCall<A> {
    fn fmt<W: fmt::Write>(&self, f: &mut Formatter<W>) -> fmt::Result {
        let (call, place, why) = (self.call, self.place.as_str(), self.why);
        write!(f, "{call} {place}: {why}")
    }
}

/// How often calls of an object failed, and the first that did.
#[derive(Drop)]
pub struct Faults<A: Allocator> {
    pub count: u64,
    // It says something only where the count isn't 0.
    first: FailedCall<A>,
}

impl<A: Allocator> Faults<A> {
    /// No fault.
    pub fn none(alloc: A) -> Faults<A>
        ensures { result.count ≡ 0 }
    {
        let first = FailedCall {
            call: "",
            place: String::new(alloc),
            why: Refused::Unnumbered,
        };
        Faults { count: 0, first }
    }

    /// The first call that failed.
    pub fn first(&self) -> Option<&FailedCall<A>>
        ensures none { IfNone result (self.now.count ≡ 0) }
        ensures some { IfSome result (λ _. 0 < self.now.count) }
        ensures first { IfSome result (λ first. first.now ≡ self.now.first) }
    {
        if self.count == 0 {
            None
        } else {
            Some(&self.first)
        }
    }

    /// Counts a fault. The first is kept, with as much of the path as there is memory for.
    pub fn add(&mut self, call: &'static str, root: &str, path: &str, why: Refused)
        ensures cause { HasCause self.old.count self.new.count ⊤ }
        ensures first { self.old.count ≡ 0 → self.new.first.why ≡ why }
        ensures name { self.old.count ≡ 0 → self.new.first.call.now ≡ call.now }
        ensures kept { 0 < self.old.count → self.new.first ≡ self.old.first }
    {
        if self.count == 0 {
            self.first.call = call;
            self.first.why = why;
            let _ = write_place(&mut self.first.place, root, path);
        }
        self.count = self.count.saturating_add(1);
    }

    /// The host's answer to a call that has no path below a root, with each error counted as a fault. The first is kept.
    pub fn counted<T: Drop>(
        &mut self,
        call: &'static str,
        place: &str,
        answer: Result<T, Refused>,
    ) -> Result<T, Failed>
        ensures cause { HasCause self.old.count self.new.count (IsErr result) }
        ensures same { IfOk result (λ value. answer ≡ Ok value) }
        ensures exact { IsErr result → IsErr answer }
        ensures kept { OnOk result (self.new ≡ self.old) }
        ensures first { self.old.count ≡ 0 → IfErr answer (λ why. self.new.first.why ≡ why) }
        ensures stays { 0 < self.old.count → self.new.first ≡ self.old.first }
    {
        match answer {
            Ok(made) => Ok(made),
            Err(why) => {
                self.add(call, place, "", why);
                Err(Failed)
            }
        }
    }
}

// The path of the host: the root, and the path below it. Each control character of the latter is written as `?`, since it
// might move a terminal.
fn write_place<A: Allocator>(
    place: &mut String<A>,
    root: &str,
    path: &str,
) -> Result<(), AllocError> {
    place.push_str(root)?;
    if !path.is_empty() && !root.ends_with('/') {
        place.push('/')?;
    }
    for letter in path.chars() {
        place.push(if letter.is_control() { '?' } else { letter })?;
    }
    Ok(())
}

/// The host's answer to a call on a path below a root, with each error of the host, refused memory among them, counted as a
/// fault. After one the directories that are known are looked at again.
pub fn counted<T: Drop, F: Drop, A: Allocator + Clone>(
    faults: &mut Faults<A>,
    root: &mut Root<F, A>,
    call: &'static str,
    path: &RelPath,
    answer: Result<T, Refused>,
) -> Result<T, Failed>
    ensures cause { HasCause faults.old.count faults.new.count (IsErr result) }
    ensures same { IfOk result (λ value. answer ≡ Ok value) }
    ensures exact { IsErr result → IsErr answer }
    ensures kept { OnOk result (faults.new ≡ faults.old) }
    ensures first { faults.old.count ≡ 0 → IfErr answer (λ why. faults.new.first.why ≡ why) }
    ensures stays { 0 < faults.old.count → faults.new.first ≡ faults.old.first }
{
    match answer {
        Ok(value) => Ok(value),
        Err(why) => {
            root.forget();
            faults.add(call, root.path(), text_of(path), why);
            Err(Failed)
        }
    }
}

/// The same, for a call that makes a value.
pub fn counted_made<T: Drop, F: Drop, A: Allocator + Clone>(
    faults: &mut Faults<A>,
    root: &mut Root<F, A>,
    call: &'static str,
    path: &RelPath,
    answer: Result<T, Refused>,
) -> Result<T, ListFault>
    ensures { HasCause faults.old.count faults.new.count (IsErrOf result list_fault.Failed) }
{
    Ok(counted(faults, root, call, path, answer)?)
}

/// How often a folder failed, and how many calls that may change something were made.
#[derive(Drop)]
pub struct Counts<A: Allocator> {
    pub faults: Faults<A>,
    pub changes: u64,
}

impl<A: Allocator + Clone> Counts<A> {
    /// The host's answer to a call on a path below a root that may change something.
    pub fn changed<T: Drop, F: Drop>(
        &mut self,
        root: &mut Root<F, A>,
        call: &'static str,
        path: &RelPath,
        answer: Result<T, Refused>,
    ) -> Result<(), Failed>
        ensures cause { HasCause self.old.faults.count self.new.faults.count (IsErr result) }
        ensures one_made { OneMore self.old.changes self.new.changes }
        ensures stays { 0 < self.old.faults.count → self.new.faults.first ≡ self.old.faults.first }
    {
        self.changes = self.changes.saturating_add(1);
        match counted(&mut self.faults, root, call, path, answer) {
            Ok(_) => Ok(()),
            Err(e) => Err(e),
        }
    }

    /// The host's answer to a call that makes safe what was written below the root.
    pub fn synced<T: Drop>(
        &mut self,
        call: &'static str,
        root: &str,
        answer: Result<T, Refused>,
    ) -> Result<(), Failed>
        ensures cause { HasCause self.old.faults.count self.new.faults.count (IsErr result) }
        ensures one_made { OneMore self.old.changes self.new.changes }
        ensures stays { 0 < self.old.faults.count → self.new.faults.first ≡ self.old.faults.first }
    {
        self.changes = self.changes.saturating_add(1);
        match self.faults.counted(call, root, answer) {
            Ok(_) => Ok(()),
            Err(e) => Err(e),
        }
    }
}
