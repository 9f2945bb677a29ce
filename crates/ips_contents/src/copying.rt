//! A file's bytes put at the end of another file of the same folder, a buffer at a time.

ghost use Rattle.std.specs.Prelude.{◌≡◌, ◌+◌, ◌<◌, ◌≤◌, IsTrue, IsFalse, IfOk, IsErr, OnOk, length, vec_len};
ghost use Rattle.ips_text.specs.Ancestry.{covers};
ghost use Rattle.ips_outside.specs.Change.{appended};
ghost use Rattle.ips_outside.specs.State.{nowhere};
ghost use Rattle.ips_outside.specs.Outside.{HasCause, Reads, readable, IsRead};
ghost use Rattle.ips_folder.specs.Calls.{IsSole, ChangesOnly};

use ips_folder::Folder;
use ips_outside::{Failed, Look, Source};
use ips_text::RelPath;
use std::alloc::{AllocError, Global};

// The size of the buffer through which contents are copied.
const BUFFER_BYTES: usize = 65_536;

/// The buffer through which contents are copied.
pub fn new_buffer(alloc: Global) -> Result<Vec<u8>, AllocError>
    ensures { IfOk result (λ buffer. 0 < vec_len buffer) }
{
    Ok(vec![in alloc; 0u8; BUFFER_BYTES]?)
}

/// Puts all bytes of the file `from` at the end of the file at `path`, a buffer at a time.
pub(crate) fn copy<F: Folder>(
    folder: &mut F,
    from: &RelPath,
    path: &RelPath,
    buffer: &mut [u8],
) -> Result<(), Failed>
    requires can { IsTrue (F.outside.tells folder.old) → IsSole (F.outside.state folder.old).held path.now.bytes }
    requires apart { IsFalse (covers path.now.bytes from.now.bytes) }
    requires room { 0 < length buffer.old }
    ensures copied { IsTrue (F.outside.tells folder.old) → OnOk result
        ((F.outside.state folder.new).held ≡ appended path.now.bytes (readable ((F.outside.state folder.old).held.look from.now.bytes)) (F.outside.state folder.old).held) }
    ensures any_moment { IsTrue (F.outside.tells folder.old) → ChangesOnly F.outside (covers path.now.bytes) nowhere folder.old folder.new }
    ensures same_kind { F.outside.tells folder.new ≡ F.outside.tells folder.old }
    ensures changes { F.outside.changes folder.old ≤ F.outside.changes folder.new }
    ensures cause { HasCause (F.outside.faults folder.old) (F.outside.faults folder.new) (IsErr result) }
{
    let size = size_of(folder, from)?;
    copy_sized(folder, from, size, path, buffer)
}

// The same where the file `from` has so many bytes.
fn copy_sized<F: Folder>(
    folder: &mut F,
    from: &RelPath,
    size: u64,
    path: &RelPath,
    buffer: &mut [u8],
) -> Result<(), Failed>
    requires can { IsTrue (F.outside.tells folder.old) → IsSole (F.outside.state folder.old).held path.now.bytes }
    requires size { IsTrue (F.outside.tells folder.old) → size ≡ length (readable ((F.outside.state folder.old).held.look from.now.bytes)) }
    requires apart { IsFalse (covers path.now.bytes from.now.bytes) }
    requires room { 0 < length buffer.old }
    ensures copied { IsTrue (F.outside.tells folder.old) → OnOk result
        ((F.outside.state folder.new).held ≡ appended path.now.bytes (readable ((F.outside.state folder.old).held.look from.now.bytes)) (F.outside.state folder.old).held) }
    ensures any_moment { IsTrue (F.outside.tells folder.old) → ChangesOnly F.outside (covers path.now.bytes) nowhere folder.old folder.new }
    ensures same_kind { F.outside.tells folder.new ≡ F.outside.tells folder.old }
    ensures changes { F.outside.changes folder.old ≤ F.outside.changes folder.new }
    ensures cause { HasCause (F.outside.faults folder.old) (F.outside.faults folder.new) (IsErr result) }
{
    let mut at = 0u64;
    while at < size {
        let count = read_part(folder, from, at, size, buffer)?;
        if count == 0 {
            break;
        }
        folder.append(path, &buffer[..count])?;
        at += count as u64;
    }
    Ok(())
}

// The length in bytes of the file at the path; 0 where no file stands.
fn size_of<F: Folder>(folder: &mut F, path: &RelPath) -> Result<u64, Failed>
    ensures found { IsTrue (F.outside.tells folder.old) → IfOk result (λ size. size ≡ length (readable ((F.outside.state folder.old).held.look path.now.bytes))) }
    ensures reads { Reads F.outside folder.old folder.new (IsErr result) }
{
    match folder.look(path)? {
        Look::File { size, .. } => Ok(size),
        Look::Absent | Look::Dir { .. } | Look::Link | Look::Other => Ok(0),
    }
}

// Reads the file's bytes from the place `at` on, as far as the place `end` and the buffer reach, and answers how
// many: at least one where the file goes on there.
fn read_part<F: Folder>(
    folder: &mut F,
    path: &RelPath,
    at: u64,
    end: u64,
    buffer: &mut [u8],
) -> Result<usize, Failed>
    requires before_end { at < end }
    requires room { 0 < length buffer.old }
    ensures fits { IfOk result (λ count. count ≤ length buffer.old) }
    ensures within { IfOk result (λ count. at + count ≤ end) }
    ensures found { IsTrue (F.outside.tells folder.old) → IfOk result (IsRead (readable ((F.outside.state folder.old).held.look path.now.bytes)) at buffer.new) }
    ensures reads { Reads F.outside folder.old folder.new (IsErr result) }
{
    let most = (end - at).min(buffer.len() as u64) as usize;
    folder.read(path, at, &mut buffer[..most])
}
