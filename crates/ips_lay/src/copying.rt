//! A content copied to its place.

ghost use Rattle.std.specs.Prelude.{◌≡◌, ◌≢◌, ◌⊎◌, ◌<◌, ◌≤◌, [], Err, IsTrue, IsErr, IfOk, IfErr, OnOk, length};
ghost use Rattle.ips_text.specs.Ancestry.{covers};
ghost use Rattle.ips_text.specs.declared.refusal.Or.TheVariants.{Bad};
ghost use Rattle.ips_outside.specs.Image.{has_parent};
ghost use Rattle.ips_outside.specs.State.{nowhere};
ghost use Rattle.ips_outside.specs.Outside.{HasCause, Reads};
ghost use Rattle.ips_folder.specs.Calls.{ChangesOnly};
ghost use Rattle.ips_files.specs.Files.{file_at};
ghost use Rattle.ips_repo.specs.Payload.{IsFrontOf, IsOpened, payload_limit};
ghost use Rattle.ips_contents.specs.Contents.{HoldsAlone};
ghost use Rattle.ips_lay.specs.Laid.{HasLaid, IsNotThere};
ghost use Rattle.ips_lay.specs.declared.content.ContentFault.TheVariants as fault;

use crate::content::{Content, ContentFault};
use ips_folder::Folder;
use ips_outside::{Failed, Source};
use ips_repo::{Payload, RepoFault};
use ips_text::{Or, RelPath};
use std::alloc::Global;

/// Puts a content at its place, in a directory that stands, in place of what stands there.
pub(crate) fn write_content<S: Source, F: Folder>(
    alloc: Global,
    content: &Content,
    source: &mut S,
    folder: &mut F,
    buffer: &mut [u8],
) -> Result<(), Or<ContentFault>>
    requires parent { IsTrue (F.outside.tells folder.old) → IsTrue (has_parent (F.outside.state folder.old).held content.now.place.bytes) }
    requires room { 0 < length buffer.old }
    ensures written { IsTrue (F.outside.tells folder.old) → OnOk result (HasLaid content.now.place.bytes content.now.name (F.outside.state folder.new).held) }
    ensures missing { IsTrue (S.outside.tells source.old) → result ≡ Err (Bad fault.Missing) → IsNotThere content.now.name (file_at (S.outside.state source.old).held content.now.path.bytes) }
    ensures any_moment { IsTrue (F.outside.tells folder.old) → ChangesOnly F.outside (covers content.now.place.bytes) (covers content.now.place.bytes) folder.old folder.new }
    ensures reads { Reads S.outside source.old source.new (result ≡ Err (Bad fault.SourceFault)) }
    ensures cause { HasCause (F.outside.faults folder.old) (F.outside.faults folder.new) (result ≡ Err (Bad fault.FolderFault)) }
    ensures same_kind { F.outside.tells folder.new ≡ F.outside.tells folder.old }
    ensures changes { F.outside.changes folder.old ≤ F.outside.changes folder.new }
{
    let payload = match open_content(alloc, content, source) {
        Ok(payload) => payload,
        Err(fault) => return Err(fault),
    };
    match make_new(folder, &content.place) {
        Ok(()) => {}
        Err(Failed) => return Err(Or::Bad(ContentFault::FolderFault)),
    }
    fill(payload, source, folder, &content.place, buffer)
}

// Looks for the content in the source.
fn open_content<S: Source>(
    alloc: Global,
    content: &Content,
    source: &mut S,
) -> Result<Payload, Or<ContentFault>>
    ensures opened { IfOk result (IsOpened content.now.path.bytes content.now.name) }
    ensures front { IsTrue (S.outside.tells source.old) → IfOk result (IsFrontOf (S.outside.state source.old).held) }
    ensures missing { IsTrue (S.outside.tells source.old) → result ≡ Err (Bad fault.Missing) → IsNotThere content.now.name (file_at (S.outside.state source.old).held content.now.path.bytes) }
    ensures folder { result ≢ Err (Bad fault.FolderFault) }
    ensures reads { Reads S.outside source.old source.new (result ≡ Err (Bad fault.SourceFault)) }
{
    let path = content.path.copy(alloc)?;
    match Payload::open_file(source, path, &content.name) {
        Ok(payload) => Ok(payload),
        Err(RepoFault::SourceFault) => Err(Or::Bad(ContentFault::SourceFault)),
        Err(_) => Err(Or::Bad(ContentFault::Missing)),
    }
}

// Makes an empty file at the place, in place of what stands there.
fn make_new<F: Folder>(folder: &mut F, place: &RelPath) -> Result<(), Failed>
    requires { IsTrue (F.outside.tells folder.old) → IsTrue (has_parent (F.outside.state folder.old).held place.now.bytes) }
    ensures made { IsTrue (F.outside.tells folder.old) → OnOk result (HoldsAlone place.now.bytes 384 [] (F.outside.state folder.new).held) }
    ensures any_moment { IsTrue (F.outside.tells folder.old) → ChangesOnly F.outside (covers place.now.bytes) nowhere folder.old folder.new }
    ensures cause { HasCause (F.outside.faults folder.old) (F.outside.faults folder.new) (IsErr result) }
    ensures same_kind { F.outside.tells folder.new ≡ F.outside.tells folder.old }
    ensures changes { F.outside.changes folder.old ≤ F.outside.changes folder.new }
{
    match folder.remove(place) {
        Ok(()) => {}
        Err(Failed) => return Err(Failed),
    }
    match folder.make_file(place) {
        Ok(()) => Ok(()),
        Err(Failed) => Err(Failed),
    }
}

// Fills the empty file with the content, and judges it by its digest: where that is another, the file is taken away.
fn fill<S: Source, F: Folder>(
    payload: Payload,
    source: &mut S,
    folder: &mut F,
    place: &RelPath,
    buffer: &mut [u8],
) -> Result<(), Or<ContentFault>>
    requires empty { IsTrue (F.outside.tells folder.old) → HoldsAlone place.now.bytes 384 [] (F.outside.state folder.old).held }
    requires begun { payload.bytes ≡ [] }
    requires within { payload.size ≤ payload_limit }
    requires room { 0 < length buffer.old }
    ensures written { IsTrue (F.outside.tells folder.old) → OnOk result (HasLaid place.now.bytes payload.name (F.outside.state folder.new).held) }
    ensures missing { IsTrue (S.outside.tells source.old) → IsFrontOf (S.outside.state source.old).held payload → result ≡ Err (Bad fault.Missing)
        → IsNotThere payload.name (file_at (S.outside.state source.old).held payload.place) }
    ensures any_moment { IsTrue (F.outside.tells folder.old) → ChangesOnly F.outside (covers place.now.bytes) (covers place.now.bytes) folder.old folder.new }
    ensures reads { Reads S.outside source.old source.new (result ≡ Err (Bad fault.SourceFault)) }
    ensures cause { HasCause (F.outside.faults folder.old) (F.outside.faults folder.new) (result ≡ Err (Bad fault.FolderFault)) }
    ensures same_kind { F.outside.tells folder.new ≡ F.outside.tells folder.old }
    ensures changes { F.outside.changes folder.old ≤ F.outside.changes folder.new }
{
    let mut payload = payload;
    match copy(&mut payload, source, folder, place, buffer) {
        Ok(()) => {}
        Err(fault) => return Err(Or::Bad(fault)),
    }
    let done = match payload.finish() {
        Ok(()) => folder.set_mode(place, 0o644),
        Err(_) => return withdraw(folder, place),
    };
    match done {
        Ok(()) => Ok(()),
        Err(Failed) => Err(Or::Bad(ContentFault::FolderFault)),
    }
}

// Takes away a file whose content has another digest.
fn withdraw<F: Folder>(folder: &mut F, place: &RelPath) -> Result<(), Or<ContentFault>>
    ensures fault { (result ≡ Err (Bad fault.Missing)) ⊎ (result ≡ Err (Bad fault.FolderFault)) }
    ensures any_moment { IsTrue (F.outside.tells folder.old) → ChangesOnly F.outside (covers place.now.bytes) nowhere folder.old folder.new }
    ensures cause { HasCause (F.outside.faults folder.old) (F.outside.faults folder.new) (result ≡ Err (Bad fault.FolderFault)) }
    ensures same_kind { F.outside.tells folder.new ≡ F.outside.tells folder.old }
    ensures changes { F.outside.changes folder.old ≤ F.outside.changes folder.new }
{
    match folder.remove(place) {
        Ok(()) => Err(Or::Bad(ContentFault::Missing)),
        Err(Failed) => Err(Or::Bad(ContentFault::FolderFault)),
    }
}

// Puts all bytes of the content into the file, a buffer at a time.
fn copy<S: Source, F: Folder>(
    payload: &mut Payload,
    source: &mut S,
    folder: &mut F,
    path: &RelPath,
    buffer: &mut [u8],
) -> Result<(), ContentFault>
    requires can { IsTrue (F.outside.tells folder.old) → HoldsAlone path.now.bytes 384 payload.old.bytes (F.outside.state folder.old).held }
    requires small { length payload.old.bytes ≤ payload.old.size }
    requires room { 0 < length buffer.old }
    ensures copied { IsTrue (F.outside.tells folder.old) → OnOk result (HoldsAlone path.now.bytes 384 payload.new.bytes (F.outside.state folder.new).held) }
    ensures ended { OnOk result (IsTrue payload.new.ended) }
    ensures named { payload.new.name ≡ payload.old.name }
    ensures placed { payload.new.place ≡ payload.old.place }
    ensures sized { payload.new.size ≡ payload.old.size }
    ensures small { length payload.new.bytes ≤ payload.new.size }
    ensures front { IsTrue (S.outside.tells source.old) → IsFrontOf (S.outside.state source.old).held payload.old → IsFrontOf (S.outside.state source.old).held payload.new }
    ensures faults { IfErr result (λ why. (why ≡ fault.SourceFault) ⊎ (why ≡ fault.FolderFault)) }
    ensures any_moment { IsTrue (F.outside.tells folder.old) → ChangesOnly F.outside (covers path.now.bytes) nowhere folder.old folder.new }
    ensures reads { Reads S.outside source.old source.new (result ≡ Err fault.SourceFault) }
    ensures cause { HasCause (F.outside.faults folder.old) (F.outside.faults folder.new) (result ≡ Err fault.FolderFault) }
    ensures same_kind { F.outside.tells folder.new ≡ F.outside.tells folder.old }
    ensures changes { F.outside.changes folder.old ≤ F.outside.changes folder.new }
{
    loop {
        let Ok(count) = payload.next(source, buffer) else {
            return Err(ContentFault::SourceFault);
        };
        if count == 0 {
            return Ok(());
        }
        let Ok(()) = folder.append(path, &buffer[..count]) else {
            return Err(ContentFault::FolderFault);
        };
    }
}
