//! What a part of what is due says where it stands otherwise.

ghost use Rattle.std.specs.Prelude.{◌≡◌, ◌<◌, true, IsTrue, IfOk, IsErr, Some, length, List, ℕ, map, slice_get};
ghost use Rattle.ips_outside.specs.Outside.{Reads, readable};
ghost use Rattle.ips_files.specs.Files.{file_at, HasSize};
ghost use Rattle.ips_change.specs.content.Failing.{HasFailed};
ghost use Rattle.ips_change.specs.wanted.Named.{is_payload_of};
ghost use Rattle.ips_due.specs.Due as spec;
ghost use Rattle.ips_due.specs.Due.{Due, holds_content, is_content, said_record};
ghost use Rattle.ips_due.specs.outstanding.Parts.{content_told};
ghost use Rattle.ips_due.specs.outstanding.Verdicts.{meant, role_said};

use crate::outstanding::bytes::has_bytes;
use crate::outstanding::due::{Content, Records};
use crate::outstanding::verdict::Verdict;
use ips_change::content::{has_content, look_at};
use ips_outside::{Failed, Look, Source};
use ips_text::{Or, RelPath};
use std::alloc::Global;

/// What becomes of a path that is due without bytes.
#[derive(Clone, Copy, Drop)]
pub enum Role {
    /// A folder is made anew there, whatever stands there.
    Renewed,
    /// A folder is made there where no directory stands.
    Folder,
    /// What stands there goes.
    Gone,
}

/// What is said of a path of this role. It looks there only where that asks what stands.
pub fn of_path<S: Source>(
    source: &mut S,
    path: &RelPath,
    role: Role,
) -> Result<Option<Verdict>, Or<Failed>>
    ensures found { IsTrue (S.outside.tells source.old) → IfOk result (λ verdict. (bytes : List ℕ → List ℕ) (due : Due) → meant bytes due verdict ≡ role_said role ((S.outside.state source.old).held.look path.now.bytes)) }
    ensures untouched { role ≡ Role.Renewed → source.new ≡ source.old }
    ensures reads { Reads S.outside source.old source.new (HasFailed result) }
{
    match role {
        Role::Renewed => Ok(Some(Verdict::Folder)),
        Role::Folder => of_folder(source, path),
        Role::Gone => of_gone(source, path),
    }
}

// A folder is made where no directory stands.
fn of_folder<S: Source>(source: &mut S, path: &RelPath) -> Result<Option<Verdict>, Or<Failed>>
    ensures found { IsTrue (S.outside.tells source.old) → IfOk result (λ verdict. (bytes : List ℕ → List ℕ) (due : Due) → meant bytes due verdict ≡ role_said Role.Folder ((S.outside.state source.old).held.look path.now.bytes)) }
    ensures reads { Reads S.outside source.old source.new (HasFailed result) }
{
    match look_at(source, path)? {
        Look::Dir { .. } => Ok(None),
        _ => Ok(Some(Verdict::Folder)),
    }
}

// What stands there goes.
fn of_gone<S: Source>(source: &mut S, path: &RelPath) -> Result<Option<Verdict>, Or<Failed>>
    ensures found { IsTrue (S.outside.tells source.old) → IfOk result (λ verdict. (bytes : List ℕ → List ℕ) (due : Due) → meant bytes due verdict ≡ role_said Role.Gone ((S.outside.state source.old).held.look path.now.bytes)) }
    ensures reads { Reads S.outside source.old source.new (HasFailed result) }
{
    match look_at(source, path)? {
        Look::Absent => Ok(None),
        _ => Ok(Some(Verdict::Gone)),
    }
}

/// What is said of the path of a record: nothing where it stands with its content and stays. It looks only where it stays.
pub fn of_record<S: Source, R: Records>(
    alloc: Global,
    source: &mut S,
    records: &R,
    number: usize,
    goes: bool,
    buffer: &mut [u8],
) -> Result<Option<Verdict>, Or<Failed>>
    requires number { number < length (R.records records.now) }
    requires room { 0 < length buffer.old }
    ensures kept { length buffer.new ≡ length buffer.old }
    ensures found { IsTrue (S.outside.tells source.old) → IfOk result (λ verdict. (bytes : List ℕ → List ℕ) (due : Due) (path : List ℕ) (content : spec.Content) → due.records ≡ R.records records.now → slice_get (R.records records.now) number ≡ Some (path, content)
        → meant bytes due verdict ≡ said_record bytes is_payload_of content goes ((S.outside.state source.old).held.look path)) }
    ensures untouched { goes ≡ true → source.new ≡ source.old }
    ensures reads { Reads S.outside source.old source.new (HasFailed result) }
{
    if goes {
        return Ok(Some(Verdict::Record(number)));
    }
    if stands(alloc, source, records, number, buffer)? {
        return Ok(None);
    }
    Ok(Some(Verdict::Record(number)))
}

// Whether a file with the content of a record stands at its path. It is made only where a file stands.
fn stands<S: Source, R: Records>(
    alloc: Global,
    source: &mut S,
    records: &R,
    number: usize,
    buffer: &mut [u8],
) -> Result<bool, Or<Failed>>
    requires number { number < length (R.records records.now) }
    requires room { 0 < length buffer.old }
    ensures kept { length buffer.new ≡ length buffer.old }
    ensures found { IsTrue (S.outside.tells source.old) → IfOk result (λ stands. (path : List ℕ) (content : spec.Content) → slice_get (R.records records.now) number ≡ Some (path, content)
        → stands ≡ holds_content is_payload_of content ((S.outside.state source.old).held.look path)) }
    ensures reads { Reads S.outside source.old source.new (HasFailed result) }
{
    let path = records.path(number);
    match look_at(source, path)? {
        Look::File { size, .. } => compare(alloc, source, records, number, size, buffer),
        _ => Ok(false),
    }
}

// Whether the file at the path of a record, which has so many bytes, has the content of the record.
fn compare<S: Source, R: Records>(
    alloc: Global,
    source: &mut S,
    records: &R,
    number: usize,
    size: u64,
    buffer: &mut [u8],
) -> Result<bool, Or<Failed>>
    requires number { number < length (R.records records.now) }
    requires room { 0 < length buffer.old }
    ensures kept { length buffer.new ≡ length buffer.old }
    ensures found { IsTrue (S.outside.tells source.old) → IfOk result (λ stands. (path : List ℕ) (content : spec.Content) → slice_get (R.records records.now) number ≡ Some (path, content)
        → HasSize (file_at (S.outside.state source.old).held path) size → stands ≡ holds_content is_payload_of content ((S.outside.state source.old).held.look path)) }
    ensures reads { Reads S.outside source.old source.new (HasFailed result) }
{
    let content = records.content(alloc, number)?;
    match is_in_file(source, records.path(number), size, &content, buffer) {
        Ok(same) => Ok(same),
        Err(Failed) => Err(Or::Bad(Failed)),
    }
}

// Whether the file at a path, which has so many bytes, has this content: just the bytes, or such as the name of the payload tells.
fn is_in_file<S: Source>(
    source: &mut S,
    path: &RelPath,
    size: u64,
    content: &Content,
    buffer: &mut [u8],
) -> Result<bool, Failed>
    requires room { 0 < length buffer.old }
    ensures kept { length buffer.new ≡ length buffer.old }
    ensures found { IsTrue (S.outside.tells source.old) → HasSize (file_at (S.outside.state source.old).held path.now.bytes) size
        → IfOk result (λ same. same ≡ is_content is_payload_of (content_told content.now) (readable ((S.outside.state source.old).held.look path.now.bytes))) }
    ensures reads { Reads S.outside source.old source.new (IsErr result) }
{
    match content {
        Content::Own(bytes) => has_bytes(source, path, size, bytes, buffer),
        Content::Payload(name) => has_content(source, path, size, name, buffer),
    }
}
