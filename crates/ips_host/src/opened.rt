//! Files that stay open from call to call.

ghost use Rattle.std.specs.Prelude.{◌≤◌, IfOk, length};

use crate::fault::{Refused, or_no_memory, or_refused};
use crate::root::{Kind, Root, kind_at};
use ips_text::{RelPath, covers};
use std::alloc::{Alloc, Allocator};
use std::fs::{Files, OpenOptions};
use std::io::{Read, Seek, SeekFrom, Write};
use std::mem;

/// A file that stays open, with its path below the root, or none, so that a long file is opened once and not once for
/// each piece. That serves while nobody else writes below the root.
#[derive(Drop)]
pub struct Opened<F: Drop, A: Allocator> {
    path: Vec<u8, A>,
    file: Option<F>,
    at: u64,
}

/// The two files that were read last.
#[derive(Drop)]
pub struct Reading<F: Drop, A: Allocator> {
    pub last: Opened<F, A>,
    pub before: Opened<F, A>,
}

impl<F: Drop, A: Allocator> Opened<F, A> {
    /// No file.
    pub fn none(alloc: A) -> Opened<F, A> {
        Opened {
            path: Vec::new(alloc),
            file: None,
            at: 0,
        }
    }

    pub fn close(&mut self) {
        self.file = None;
    }

    /// Closes the file where it is at or below the path: what is taken away comes here first, since an open file
    /// outlives its path.
    pub fn let_go(&mut self, path: &RelPath) {
        if covers(path.bytes(), self.path.as_slice()) {
            self.file = None;
        }
    }

    /// The file, where it is the one at the path.
    pub fn file_at(&self, path: &RelPath) -> Option<&F> {
        if self.path.as_slice() == path.bytes() {
            self.file.as_ref()
        } else {
            None
        }
    }

    /// Keeps a file that was just opened, and closes the one before it.
    pub fn keep(&mut self, path: &RelPath, file: F) -> Result<(), Refused> {
        self.file = Some(file);
        self.at = 0;
        self.path.clear();
        or_no_memory(self.path.extend_from_slice(path.bytes()))
    }
}

impl<F: Drop, A: Allocator> Reading<F, A> {
    /// No files.
    pub fn none<R: Alloc<A = A>>(rt: &R) -> Reading<F, A> {
        Reading {
            last: Opened::none(rt.alloc()),
            before: Opened::none(rt.alloc()),
        }
    }

    pub fn close(&mut self) {
        self.last.close();
        self.before.close();
    }

    pub fn let_go(&mut self, path: &RelPath) {
        self.last.let_go(path);
        self.before.let_go(path);
    }

    // Makes the file at the path the one that was read last, where it is open, and answers whether it is.
    fn turn_to_open(&mut self, path: &RelPath) -> bool {
        if self.last.file_at(path).is_some() {
            return true;
        }
        mem::swap(&mut self.last, &mut self.before);
        self.last.file_at(path).is_some()
    }
}

/// Opens the file at the path, if one stands there. What stands there and is no file isn't opened: a named pipe would
/// block.
fn open<R: Files + Alloc>(
    rt: &R,
    root: &mut Root<R::File, R::A>,
    opened: &mut Opened<R::File, R::A>,
    path: &RelPath,
    how: &OpenOptions,
) -> Result<(), Refused> {
    opened.close();
    match kind_at(rt, root, path) {
        Ok(Kind::File) => match or_refused(how.open(rt, root.place())) {
            Ok(file) => opened.keep(path, file),
            Err(e) => Err(e),
        },
        Ok(_) => Ok(()),
        Err(e) => Err(e),
    }
}

/// Reads from the place `at` on, and answers how many bytes: 0 at the end, and where no file stands.
pub fn read<R: Files + Alloc>(
    rt: &R,
    root: &mut Root<R::File, R::A>,
    reading: &mut Reading<R::File, R::A>,
    path: &RelPath,
    at: u64,
    buf: &mut [u8],
) -> Result<usize, Refused>
    ensures { IfOk result (λ count. count ≤ length buf.old) }
{
    match turn_to(rt, root, reading, path) {
        Ok(()) => read_at(&mut reading.last, at, buf),
        Err(e) => Err(e),
    }
}

// Makes the file at the path the one that was read last.
fn turn_to<R: Files + Alloc>(
    rt: &R,
    root: &mut Root<R::File, R::A>,
    reading: &mut Reading<R::File, R::A>,
    path: &RelPath,
) -> Result<(), Refused> {
    if reading.turn_to_open(path) {
        return Ok(());
    }
    open(
        rt,
        root,
        &mut reading.last,
        path,
        OpenOptions::new().read(true),
    )
}

// The host's offsets are below 2^63, and so are the sizes of its files.
fn read_at<F: Read + Seek + Drop, A: Allocator>(
    opened: &mut Opened<F, A>,
    at: u64,
    buf: &mut [u8],
) -> Result<usize, Refused>
    ensures { IfOk result (λ count. count ≤ length buf.old) }
{
    match &mut opened.file {
        Some(file) if at <= i64::MAX as u64 => read_from(file, &mut opened.at, at, buf),
        _ => Ok(0),
    }
}

fn read_from<F: Read + Seek>(
    file: &mut F,
    position: &mut u64,
    at: u64,
    buf: &mut [u8],
) -> Result<usize, Refused>
    ensures { IfOk result (λ count. count ≤ length buf.old) }
{
    if *position != at {
        file.seek(SeekFrom::Start(at))?;
    }
    *position = u64::MAX;
    let count = file.read(buf)?;
    *position = at.saturating_add(count as u64);
    Ok(count)
}

/// Puts bytes at the end of a file.
pub fn append<R: Files + Alloc>(
    rt: &R,
    root: &mut Root<R::File, R::A>,
    appending: &mut Opened<R::File, R::A>,
    path: &RelPath,
    bytes: &[u8],
) -> Result<(), Refused> {
    if appending.file_at(path).is_none() {
        open(rt, root, appending, path, OpenOptions::new().append(true))?;
    }
    let answer = write_to(&mut appending.file, bytes);
    if answer.is_err() {
        appending.close();
    }
    answer
}

fn write_to<F: Write>(file: &mut Option<F>, bytes: &[u8]) -> Result<(), Refused> {
    match file {
        Some(file) => or_refused(file.write_all(bytes)),
        None => Err(Refused::Unfit),
    }
}
