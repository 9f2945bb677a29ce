//! A lock on the folder of an image, which keeps others of these programs away while one works there.

ghost use Rattle.std.specs.Prelude.{◌≡◌, ◌↔◌, IfOk, IsOk, IsTrue, Err};
ghost use Rattle.std.specs.IoError.{raw_os_error};
ghost use Rattle.ips_host.specs.Locks.{LacksLocks, IsWorkedOn, IsNumberOfNone};
ghost use Rattle.ips_host.specs.declared.lock.Lock.TheVariants.{Free, Shared, Exclusive};
ghost use Rattle.ips_host.specs.declared.lock.Unlocked.TheVariants.{Busy};
ghost use Rattle.std.specs.declared.fs.locks.TryLockError.TheVariants.{WouldBlock};

use crate::fault::Refused;
use std::fs::{File, Files, OpenOptions, TryLockError};
use std::{fs, io};

/// The lock that a program wants while it works on an image.
#[derive(Clone, Copy, Drop)]
pub enum Lock {
    /// None.
    Free,
    /// One beside which others may have such a one.
    Shared,
    /// One beside which nobody has any.
    Exclusive,
}

/// Why a program may not work on an image.
#[derive(Clone, Copy, Drop)]
pub enum Unlocked {
    /// Another program has a lock beside which the one that is wanted can't be had.
    Busy,
    /// The host failed at the lock.
    Failed(Refused),
}

/// A lock that was asked for, and is held while this lives, by no program that this one runs. Nothing is held where none was
/// wanted, where no folder can be opened, and on a file system without locks.
#[derive(Drop)]
pub struct Held<'a> {
    /// The path of the folder.
    pub folder: &'a str,
    /// Which lock.
    pub lock: Lock,
    file: Option<File>,
}

/// Takes the lock on the folder at the path, which may be a link, and doesn't wait for it.
pub fn take_lock<'a, R: Files<File = File>>(
    rt: &R,
    folder: &'a str,
    lock: Lock,
) -> Result<Held<'a>, Unlocked>
    ensures free { lock ≡ Free → IsOk result }
    ensures lock { IfOk result (λ held. held.lock ≡ lock) }
    ensures folder { IfOk result (λ held. held.folder.now ≡ folder.now) }
{
    let file = None;
    if let Lock::Free = lock {
        return Ok(Held { folder, lock, file });
    }
    match open_folder(rt, folder) {
        Some(file) => {
            let tried = try_lock(&file, lock);
            had(folder, file, tried)
        }
        None => Ok(Held { folder, lock, file }),
    }
}

// The folder, opened to be read, where it can be. What is no folder isn't opened: a named pipe would block.
fn open_folder<R: Files<File = File>>(rt: &R, folder: &str) -> Option<File> {
    match fs::metadata(rt, folder) {
        Ok(metadata) if metadata.is_dir() => { OpenOptions::new().read(true).open(rt, folder).ok() }
        _ => None,
    }
}

/// A lock that the host was asked for, and its answer.
#[derive(Drop)]
struct Tried {
    lock: Lock,
    answer: Result<(), TryLockError>,
}

fn try_lock(file: &File, lock: Lock) -> Tried
    ensures { result.lock ≡ lock }
{
    match lock {
        Lock::Free => Tried {
            lock: Lock::Free,
            answer: Ok(()),
        },
        Lock::Shared => try_shared(file),
        Lock::Exclusive => try_exclusive(file),
    }
}

fn try_shared(file: &File) -> Tried
    ensures { result.lock ≡ Shared }
{
    Tried {
        lock: Lock::Shared,
        answer: file.try_lock_shared(),
    }
}

fn try_exclusive(file: &File) -> Tried
    ensures { result.lock ≡ Exclusive }
{
    Tried {
        lock: Lock::Exclusive,
        answer: file.try_lock(),
    }
}

// The lock that was tried, or one that nothing holds, where the file system has none. Busy just where another program has
// one beside which it can't be had.
fn had<'a>(folder: &'a str, file: File, tried: Tried) -> Result<Held<'a>, Unlocked>
    ensures lock { IfOk result (λ held. held.lock ≡ tried.lock) }
    ensures folder { IfOk result (λ held. held.folder.now ≡ folder.now) }
    ensures busy { (result ≡ Err Busy) ↔ (tried.answer ≡ Err WouldBlock) }
    ensures held { IsOk result ↔ IsWorkedOn tried.answer }
{
    let Tried { lock, answer } = tried;
    let file = Some(file);
    match answer {
        Ok(()) => Ok(Held { folder, lock, file }),
        Err(TryLockError::WouldBlock) => Err(Unlocked::Busy),
        Err(TryLockError::Error(e)) => {
            if lacks_locks(&e) {
                Ok(Held { folder, lock, file })
            } else {
                Err(Unlocked::Failed(Refused::from(e)))
            }
        }
    }
}

// Whether the host tells by this error that the file system has no locks.
fn lacks_locks(e: &io::Error) -> bool
    ensures { IsTrue result ↔ LacksLocks (raw_os_error e.now) }
{
    match e.raw_os_error() {
        Some(number) => is_of_none(number),
        None => false,
    }
}

// EINVAL, ENOLCK, ENOSYS and ENOTSUP (which is EOPNOTSUPP), of Linux.
fn is_of_none(number: i32) -> bool
    ensures { IsTrue result ↔ IsNumberOfNone number }
{
    number == 22 || number == 37 || number == 38 || number == 95
}
