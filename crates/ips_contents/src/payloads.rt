//! Payloads made files.

ghost use Rattle.std.specs.Prelude.{◌≡◌, ◌⊎◌, ◌<◌, ◌≤◌, ℕ, List, [], Some, Err, IsTrue, IfErr, OnOk, length};
ghost use Rattle.ips_text.specs.Ancestry.{covers};
ghost use Rattle.ips_outside.specs.State.{nowhere};
ghost use Rattle.ips_outside.specs.Outside.{HasCause, Reads};
ghost use Rattle.ips_folder.specs.Calls.{CanMake, ChangesOnly};
ghost use Rattle.ips_repo.specs.Files.{file_at};
ghost use Rattle.ips_repo.specs.Payload.{IsFrontOf, digest_by};
ghost use Rattle.ips_contents.specs.Contents.{HoldsAlone, SaysOfOpened};
ghost use Rattle.ips_contents.specs.declared.fault.StageFault.TheVariants as fault;

use crate::fault::StageFault;
use ips_folder::Folder;
use ips_outside::Source;
use ips_repo::Payload;
use ips_text::RelPath;

/// Makes a file of the bytes of a payload that was opened, of which nothing was given yet, and judges them by their digest. The file
/// has mode 0600, and no more bytes than the payload's file had as it was opened, whether or not the source tells what it holds. Where the
/// digest is another, what was written stays.
pub fn write_payload<S: Source, F: Folder>(
    payload: Payload,
    source: &mut S,
    folder: &mut F,
    path: &RelPath,
    buffer: &mut [u8],
) -> Result<(), StageFault>
    requires can { IsTrue (F.outside.tells folder.old) → CanMake (F.outside.state folder.old).held path.now.bytes }
    requires begun { payload.bytes ≡ [] }
    requires room { 0 < length buffer.old }
    ensures written { IsTrue (F.outside.tells folder.old) → OnOk result ((bytes : List ℕ)
        × HoldsAlone path.now.bytes 384 bytes (F.outside.state folder.new).held
        × (digest_by payload.name bytes ≡ payload.name)
        × (IsTrue (S.outside.tells source.old) → IsFrontOf (S.outside.state source.old).held payload → file_at (S.outside.state source.old).held payload.place ≡ Some bytes)) }
    ensures intact { IsTrue (S.outside.tells source.old) → IsFrontOf (S.outside.state source.old).held payload → OnOk result ((bytes : List ℕ)
        × (file_at (S.outside.state source.old).held payload.place ≡ Some bytes) × (digest_by payload.name bytes ≡ payload.name)) }
    ensures small { IsTrue (F.outside.tells folder.old) → OnOk result ((bytes : List ℕ)
        × HoldsAlone path.now.bytes 384 bytes (F.outside.state folder.new).held × (length bytes ≤ payload.size)) }
    ensures refused { IfErr result (SaysOfOpened (S.outside.tells source.old) (S.outside.state source.old).held payload) }
    ensures any_moment { IsTrue (F.outside.tells folder.old) → ChangesOnly F.outside (covers path.now.bytes) nowhere folder.old folder.new }
    ensures reads { Reads S.outside source.old source.new (result ≡ Err fault.SourceFault) }
    ensures cause { HasCause (F.outside.faults folder.old) (F.outside.faults folder.new) (result ≡ Err fault.FolderFault) }
    ensures same_kind { F.outside.tells folder.new ≡ F.outside.tells folder.old }
    ensures changes { F.outside.changes folder.old ≤ F.outside.changes folder.new }
{
    let mut payload = payload;
    let name = *payload.name();
    let Ok(()) = folder.make_file(path) else {
        return Err(StageFault::FolderFault);
    };
    copy_payload(&mut payload, source, folder, path, buffer)?;
    match payload.finish() {
        Ok(()) => Ok(()),
        Err(fault) => Err(StageFault::Payload { name, fault }),
    }
}

// Puts all bytes of the payload into the file, a buffer at a time.
fn copy_payload<S: Source, F: Folder>(
    payload: &mut Payload,
    source: &mut S,
    folder: &mut F,
    path: &RelPath,
    buffer: &mut [u8],
) -> Result<(), StageFault>
    requires can { IsTrue (F.outside.tells folder.old) → HoldsAlone path.now.bytes 384 payload.old.bytes (F.outside.state folder.old).held }
    requires small { length payload.old.bytes ≤ payload.old.size }
    requires room { 0 < length buffer.old }
    ensures copied { IsTrue (F.outside.tells folder.old) → OnOk result (HoldsAlone path.now.bytes 384 payload.new.bytes (F.outside.state folder.new).held) }
    ensures ended { OnOk result (IsTrue payload.new.ended) }
    ensures named { payload.new.name ≡ payload.old.name }
    ensures placed { payload.new.place ≡ payload.old.place }
    ensures sized { payload.new.size ≡ payload.old.size }
    ensures small { length payload.new.bytes ≤ payload.new.size }
    ensures front { IsTrue (S.outside.tells source.old) → IsFrontOf (S.outside.state source.old).held payload.old → IsFrontOf (S.outside.state source.old).held payload.new }
    ensures faults { IfErr result (λ why. (why ≡ fault.SourceFault) ⊎ (why ≡ fault.FolderFault)) }
    ensures any_moment { IsTrue (F.outside.tells folder.old) → ChangesOnly F.outside (covers path.now.bytes) nowhere folder.old folder.new }
    ensures reads { Reads S.outside source.old source.new (result ≡ Err fault.SourceFault) }
    ensures cause { HasCause (F.outside.faults folder.old) (F.outside.faults folder.new) (result ≡ Err fault.FolderFault) }
    ensures same_kind { F.outside.tells folder.new ≡ F.outside.tells folder.old }
    ensures changes { F.outside.changes folder.old ≤ F.outside.changes folder.new }
{
    loop {
        let Ok(count) = payload.next(source, buffer) else {
            return Err(StageFault::SourceFault);
        };
        if count == 0 {
            return Ok(());
        }
        let Ok(()) = folder.append(path, &buffer[..count]) else {
            return Err(StageFault::FolderFault);
        };
    }
}
