//! What stands at a path, by one look, and a read only where a rule asks for it.

ghost use Rattle.std.specs.Prelude.{◌≡◌, ◌<◌, ℕ, List, Option, Some, true, IsTrue, IfOk, length};
ghost use Rattle.std.specs.Option.{option_map};
ghost use Rattle.ips_outside.specs.Outside.{Reads, look_of, readable};
ghost use Rattle.ips_outside.specs.declared.outside.Look.TheVariants as look;
ghost use Rattle.ips_digest.specs.Name.{spelling};
ghost use Rattle.ips_after.specs.Request.{WantLink, Wanted};
ghost use Rattle.ips_change.specs.wanted.Named.{is_payload_of};
ghost use Rattle.ips_change.specs.wanted.Wanted.{wanted_of};
ghost use Rattle.ips_change.specs.content.Failing.{HasFailed};
ghost use Rattle.ips_change.specs.Stands.{has_payload, is_unasked, seen_of, stands_of};

use crate::asking;
use crate::asking::{fresh_payload, known_payload};
use crate::content::{has_content, is_same, look_at};
use crate::stands::Stands;
use ips_digest::PayloadName;
use ips_folder::{Folder, ListFault};
use ips_meaning::Entry;
use ips_outside::{Failed, Look};
use ips_text::{Or, RelPath, Text};
use std::alloc::Global;

/// What stands at a path. Where no rule asks, nothing is called.
pub fn stand_at<F: Folder>(
    alloc: Global,
    folder: &mut F,
    path: &RelPath,
    old: Option<&Entry>,
    new: Option<&Entry>,
    buffer: &mut [u8],
) -> Result<Stands, Or<Failed>>
    requires room { 0 < length buffer.old }
    ensures found { IsTrue (F.outside.tells folder.old) → IfOk result (λ stands. stands ≡ stands_of is_payload_of (option_map (λ x. wanted_of x.now) old.entry) (option_map (λ x. wanted_of x.now) new.entry) ((F.outside.state folder.old).held.look path.now.bytes)) }
    ensures untouched { is_unasked (option_map (λ x. wanted_of x.now) old.entry) (option_map (λ x. wanted_of x.now) new.entry) ≡ true → folder.new ≡ folder.old }
    ensures reads { Reads F.outside folder.old folder.new (HasFailed result) }
{
    if asking::is_unasked(old, new) {
        return Ok(Stands::Unasked);
    }
    look(alloc, folder, path, old, new, buffer)
}

// What stands at a path, where a rule asks.
fn look<F: Folder>(
    alloc: Global,
    folder: &mut F,
    path: &RelPath,
    old: Option<&Entry>,
    new: Option<&Entry>,
    buffer: &mut [u8],
) -> Result<Stands, Or<Failed>>
    requires room { 0 < length buffer.old }
    ensures found { IsTrue (F.outside.tells folder.old) → IfOk result (λ stands. stands ≡ seen_of is_payload_of (option_map (λ x. wanted_of x.now) old.entry) (option_map (λ x. wanted_of x.now) new.entry) ((F.outside.state folder.old).held.look path.now.bytes)) }
    ensures reads { Reads F.outside folder.old folder.new (HasFailed result) }
{
    match look_at(folder, path)? {
        Look::Absent => Ok(Stands::Absent),
        Look::Dir { mode } => Ok(Stands::Dir { mode }),
        Look::File { mode, size } => file_at(folder, path, old, new, mode, size, buffer),
        Look::Link => link_at(alloc, folder, path, new),
        Look::Other => Ok(Stands::Other),
    }
}

// What is seen of a file with this mode and so many bytes.
fn file_at<F: Folder>(
    folder: &mut F,
    path: &RelPath,
    old: Option<&Entry>,
    new: Option<&Entry>,
    mode: u16,
    size: u64,
    buffer: &mut [u8],
) -> Result<Stands, Or<Failed>>
    requires room { 0 < length buffer.old }
    requires seen { IsTrue (F.outside.tells folder.old) → look.File mode size ≡ look_of ((F.outside.state folder.old).held.look path.now.bytes) }
    ensures found { IsTrue (F.outside.tells folder.old) → IfOk result (λ stands. stands ≡ seen_of is_payload_of (option_map (λ x. wanted_of x.now) old.entry) (option_map (λ x. wanted_of x.now) new.entry) ((F.outside.state folder.old).held.look path.now.bytes)) }
    ensures reads { Reads F.outside folder.old folder.new (HasFailed result) }
{
    let known = has(folder, path, size, known_payload(old, new), buffer)?;
    let fresh = has(folder, path, size, fresh_payload(old, new, known), buffer)?;
    Ok(Stands::File { mode, known, fresh })
}

// Whether the file has this payload, if one is asked for.
fn has<F: Folder>(
    folder: &mut F,
    path: &RelPath,
    size: u64,
    payload: Option<&PayloadName>,
    buffer: &mut [u8],
) -> Result<bool, Or<Failed>>
    requires room { 0 < length buffer.old }
    requires seen { IsTrue (F.outside.tells folder.old) → (mode : ℕ) × (look.File mode size ≡ look_of ((F.outside.state folder.old).held.look path.now.bytes)) }
    ensures found { IsTrue (F.outside.tells folder.old) → IfOk result (λ same. same ≡ has_payload is_payload_of (option_map (λ name. spelling name.now) payload.entry) (readable ((F.outside.state folder.old).held.look path.now.bytes))) }
    ensures reads { Reads F.outside folder.old folder.new (HasFailed result) }
{
    let Some(name) = payload else {
        return Ok(false);
    };
    match has_content(folder, path, size, name, buffer) {
        Ok(same) => Ok(same),
        Err(Failed) => Err(Or::Bad(Failed)),
    }
}

// What is seen of a symbolic link, which is read where one is wanted.
fn link_at<F: Folder>(
    alloc: Global,
    folder: &mut F,
    path: &RelPath,
    new: Option<&Entry>,
) -> Result<Stands, Or<Failed>>
    requires seen { IsTrue (F.outside.tells folder.old) → look.Link ≡ look_of ((F.outside.state folder.old).held.look path.now.bytes) }
    ensures found { IsTrue (F.outside.tells folder.old) → (was : Option Wanted) → IfOk result (λ stands. stands ≡ seen_of is_payload_of was (option_map (λ x. wanted_of x.now) new.entry) ((F.outside.state folder.old).held.look path.now.bytes)) }
    ensures reads { Reads F.outside folder.old folder.new (HasFailed result) }
{
    match new {
        Some(Entry::Link { target }) => says(alloc, folder, path, target),
        _ => Ok(Stands::Link { wanted: false }),
    }
}

// What is seen of a symbolic link where this is wanted.
fn says<F: Folder>(
    alloc: Global,
    folder: &mut F,
    path: &RelPath,
    target: &Text,
) -> Result<Stands, Or<Failed>>
    requires seen { IsTrue (F.outside.tells folder.old) → look.Link ≡ look_of ((F.outside.state folder.old).held.look path.now.bytes) }
    ensures found { IsTrue (F.outside.tells folder.old) → (was : Option Wanted) → IfOk result (λ stands. stands ≡ seen_of is_payload_of was (Some (WantLink target.now)) ((F.outside.state folder.old).held.look path.now.bytes)) }
    ensures reads { Reads F.outside folder.old folder.new (HasFailed result) }
{
    match folder.target(alloc, path) {
        Ok(stands) => Ok(Stands::Link {
            wanted: is_same(target.as_str().as_bytes(), &stands),
        }),
        Err(ListFault::Failed) => Err(Or::Bad(Failed)),
        Err(ListFault::OutOfMemory) => Err(Or::OutOfMemory),
    }
}
