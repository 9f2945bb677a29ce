//! What is damaged at a path.

ghost use Rattle.std.specs.Prelude.{◌≡◌, ◌<◌, ◌&&◌, ℕ, List, false, cond, not, IsTrue, IfOk, length, Option, Some, None};
ghost use Rattle.std.specs.Option.{option_map};
ghost use Rattle.ips_outside.specs.Outside.{Reads, look_of};
ghost use Rattle.ips_outside.specs.declared.outside.Look.TheVariants as look;
ghost use Rattle.ips_text.specs.Ancestry.{same_path};
ghost use Rattle.ips_outside.specs.Image as image;
ghost use Rattle.ips_digest.specs.Name.{spelling};
ghost use Rattle.ips_after.specs.After.{is_kind};
ghost use Rattle.ips_after.specs.Findings as after;
ghost use Rattle.ips_after.specs.Request.{Wanted, WantDir, WantFile, WantHard, WantLink};
ghost use Rattle.ips_change.specs.wanted.Wanted.{wanted_of};
ghost use Rattle.ips_change.specs.wanted.Named.{is_payload_of};
ghost use Rattle.ips_change.specs.content.Failing.{HasFailed};
ghost use Rattle.ips_verify.specs.Verified.{damage_told};

use ips_action::Preserve;
use ips_change::content::{has_content, is_same, look_at};
use ips_digest::PayloadName;
use ips_folder::{Folder, ListFault};
use ips_meaning::{Damage, Entry};
use ips_outside::{Failed, Look};
use ips_text::{Or, RelPath, Text};
use std::alloc::Global;

/// The first damage that holds at a path at which the entry is wanted.
pub fn damage_at<F: Folder>(
    alloc: Global,
    folder: &mut F,
    path: &RelPath,
    entry: &Entry,
    buffer: &mut [u8],
) -> Result<Option<Damage>, Or<Failed>>
    requires room { 0 < length buffer.old }
    ensures found { IsTrue (F.outside.tells folder.old) → IfOk result (λ damage. option_map damage_told damage ≡ after.finding_as is_payload_of (F.outside.state folder.old).held path.now.bytes (wanted_of entry.now)) }
    ensures reads { Reads F.outside folder.old folder.new (HasFailed result) }
{
    let found = look_at(folder, path)?;
    match entry {
        Entry::Dir { mode } => Ok(dir_damage(*mode, found)),
        Entry::File {
            payload,
            mode,
            preserve,
        } => file_damage(folder, path, payload, *mode, *preserve, found, buffer),
        Entry::Link { target } => link_damage(alloc, folder, path, target, found),
        Entry::Hard { to } => hard_damage(folder, path, to, found),
    }
}

// The damage where a directory is wanted, which may have any mode where none is stated.
fn dir_damage(mode: Option<u16>, found: Look) -> Option<Damage>
    ensures { (e : Option image.Entry) → found ≡ look_of e → option_map damage_told result ≡ after.unless_there (WantDir mode) e (after.damage_if (after.wrong_mode mode e) after.WrongMode None) }
{
    let Look::Dir { mode: was } = found else {
        return Some(not_there(found));
    };
    match mode {
        Some(mode) if mode != was => Some(Damage::WrongMode),
        _ => None,
    }
}

// The damage where what is wanted doesn't stand.
fn not_there(found: Look) -> Damage
    ensures { (e : Option image.Entry) → found ≡ look_of e → (w : Wanted) → is_kind w e ≡ false → (otherwise : Option after.Damage) → Some (damage_told result) ≡ after.unless_there w e otherwise }
{
    match found {
        Look::Absent => Damage::Missing,
        _ => Damage::WrongKind,
    }
}

// The damage where a file is wanted.
fn file_damage<F: Folder>(
    folder: &mut F,
    path: &RelPath,
    payload: &PayloadName,
    mode: u16,
    preserve: Preserve,
    found: Look,
    buffer: &mut [u8],
) -> Result<Option<Damage>, Or<Failed>>
    requires room { 0 < length buffer.old }
    requires seen { IsTrue (F.outside.tells folder.old) → found ≡ look_of ((F.outside.state folder.old).held.look path.now.bytes) }
    ensures found { IsTrue (F.outside.tells folder.old) → IfOk result (λ damage. option_map damage_told damage ≡ after.finding_as is_payload_of (F.outside.state folder.old).held path.now.bytes (WantFile (spelling payload.now) mode preserve)) }
    ensures reads { Reads F.outside folder.old folder.new (HasFailed result) }
{
    let Look::File { mode: was, size } = found else {
        return Ok(no_file(preserve, found));
    };
    if counts(preserve, path) {
        match has_content(folder, path, size, payload, buffer) {
            Ok(true) => {}
            Ok(false) => return Ok(Some(Damage::WrongContent)),
            Err(Failed) => return Err(Or::Bad(Failed)),
        }
    }
    Ok((mode != was).then_some(Damage::WrongMode))
}

// The damage where a file is wanted and none stands.
fn no_file(preserve: Preserve, found: Look) -> Option<Damage>
    requires { (mode size : ℕ) → found ≡ look.File mode size → ⊥ }
    ensures { (e : Option image.Entry) → found ≡ look_of e → (payload : List ℕ) (mode : ℕ) (otherwise : Option after.Damage)
        → option_map damage_told result ≡ cond (after.is_loose preserve) (after.mode_finding mode e) (after.unless_there (WantFile payload mode preserve) e otherwise) }
{
    if is_loose(preserve) {
        return None;
    }
    Some(not_there(found))
}

// Whether a file of such a preserve needn't stand.
fn is_loose(preserve: Preserve) -> bool
    ensures { result ≡ after.is_loose preserve }
{
    matches!(
        preserve,
        Preserve::Legacy | Preserve::Abandon | Preserve::InstallOnly
    )
}

// Whether the bytes of the file count: no one may edit it, and it is no account file.
fn counts(preserve: Preserve, path: &RelPath) -> bool
    ensures { result ≡ (after.forbids_edits preserve && not (after.is_account_path path.now.bytes)) }
{
    matches!(preserve, Preserve::None) && !is_account(path.bytes())
}

// Whether the path is that of an account file.
fn is_account(path: &[u8]) -> bool
    ensures { result ≡ after.is_account_path path.now }
{
    if is_same(b"etc/passwd", path) {
        return true;
    }
    if is_same(b"etc/shadow", path) {
        return true;
    }
    is_same(b"etc/group", path)
}

// The damage where a symbolic link is wanted.
fn link_damage<F: Folder>(
    alloc: Global,
    folder: &mut F,
    path: &RelPath,
    target: &Text,
    found: Look,
) -> Result<Option<Damage>, Or<Failed>>
    requires seen { IsTrue (F.outside.tells folder.old) → found ≡ look_of ((F.outside.state folder.old).held.look path.now.bytes) }
    ensures found { IsTrue (F.outside.tells folder.old) → IfOk result (λ damage. option_map damage_told damage ≡ after.finding_as is_payload_of (F.outside.state folder.old).held path.now.bytes (WantLink target.now)) }
    ensures reads { Reads F.outside folder.old folder.new (HasFailed result) }
{
    let Look::Link = found else {
        return Ok(Some(not_there(found)));
    };
    match folder.target(alloc, path) {
        Ok(stands) => Ok(target_damage(target, &stands)),
        Err(ListFault::Failed) => Err(Or::Bad(Failed)),
        Err(ListFault::OutOfMemory) => Err(Or::OutOfMemory),
    }
}

// The damage of a symbolic link's target.
fn target_damage(target: &Text, stands: &[u8]) -> Option<Damage>
    ensures { option_map damage_told result ≡ after.damage_if (not (same_path target.now stands.now)) after.WrongTarget None }
{
    if is_same(target.as_str().as_bytes(), stands) {
        return None;
    }
    Some(Damage::WrongTarget)
}

// The damage where one more name of a file is wanted.
fn hard_damage<F: Folder>(
    folder: &mut F,
    path: &RelPath,
    to: &RelPath,
    found: Look,
) -> Result<Option<Damage>, Or<Failed>>
    requires seen { IsTrue (F.outside.tells folder.old) → found ≡ look_of ((F.outside.state folder.old).held.look path.now.bytes) }
    ensures found { IsTrue (F.outside.tells folder.old) → IfOk result (λ damage. option_map damage_told damage ≡ after.finding_as is_payload_of (F.outside.state folder.old).held path.now.bytes (WantHard to.now.bytes)) }
    ensures reads { Reads F.outside folder.old folder.new (HasFailed result) }
{
    let Look::File { .. } = found else {
        return Ok(Some(not_there(found)));
    };
    if !matches!(look_at(folder, to)?, Look::File { .. }) {
        return Ok(Some(Damage::NotSame));
    }
    match folder.same(path, to) {
        Ok(same) => Ok((!same).then_some(Damage::NotSame)),
        Err(Failed) => Err(Or::Bad(Failed)),
    }
}
