//! Laying contents.

ghost use Rattle.std.specs.Prelude.{◌≡◌, ◌<◌, ◌≤◌, ℕ, List, [], ◌∷◌, Err, IsTrue, IfOk, OnOk, length, slice_get, Some};
ghost use Rattle.ips_text.specs.Reading.{IfBad};
ghost use Rattle.ips_text.specs.declared.refusal.Or.TheVariants.{Bad};
ghost use Rattle.ips_outside.specs.Image.{has_parent};
ghost use Rattle.ips_outside.specs.Outside.{HasCause, Reads};
ghost use Rattle.ips_files.specs.Files.{file_at};
ghost use Rattle.ips_fmri.specs.Name.{IsPublisher};
ghost use Rattle.ips_repo.specs.Payload.{HasIntact};
ghost use Rattle.ips_lay.specs.Laid.{LaysBeside, IsNotThere};
ghost use Rattle.ips_lay.specs.Lists as lists;
ghost use Rattle.ips_lay.specs.declared.content.ContentFault.TheVariants as one;
ghost use Rattle.ips_lay.specs.declared.content.Content as content;
ghost use Rattle.ips_repo.specs.Places.{payload_place};
ghost use Rattle.ips_lay.specs.Lists.{AreNames, ArePlaced, AreAllIntact, names_of, SaysOfLay, IsCounted};
ghost use Rattle.ips_lay.specs.declared.content.LayFault.TheVariants as fault;

use crate::content::{Content, ContentFault, LayFault};
use crate::copying::write_content;
use crate::standing::is_intact;
use ips_contents::new_buffer;
use ips_folder::Folder;
use ips_outside::{Failed, Source};
use ips_text::Or;
use std::alloc::Global;

/// Lays each content in the repository that the folder holds, at the place of its name, unless it is intact there. Each place is in a directory that stands.
///
/// # Errors
///
/// The source has no file with that name at the path of a content, as where it changed since it was named; or a call failed. Some of the contents may be laid.
pub fn lay<S: Source, F: Folder>(
    alloc: Global,
    publisher: &str,
    contents: &[Content],
    source: &mut S,
    folder: &mut F,
) -> Result<(), Or<LayFault>>
    requires publisher { IsPublisher publisher.now }
    requires named { AreNames contents.now }
    requires placed { ArePlaced publisher.now contents.now }
    requires parents { IsTrue (F.outside.tells folder.old) → (n : ℕ) (c : content.Content) → slice_get contents.now n ≡ Some c → IsTrue (has_parent (F.outside.state folder.old).held c.place.bytes) }
    ensures intact { IsTrue (F.outside.tells folder.old) → OnOk result (AreAllIntact publisher.now (F.outside.state folder.new).held (names_of contents.now)) }
    ensures beside { IsTrue (F.outside.tells folder.old) → LaysBeside F.outside publisher.now (names_of contents.now) folder.old folder.new }
    ensures missing { IsTrue (S.outside.tells source.old) → IfBad result (SaysOfLay (S.outside.state source.old).held contents.now) }
    ensures counted { IfBad result (IsCounted (length contents.now)) }
    ensures reads { Reads S.outside source.old source.new (result ≡ Err (Bad fault.SourceFault)) }
    ensures cause { HasCause (F.outside.faults folder.old) (F.outside.faults folder.new) (result ≡ Err (Bad fault.FolderFault)) }
    ensures same_kind { F.outside.tells folder.new ≡ F.outside.tells folder.old }
    ensures changes { F.outside.changes folder.old ≤ F.outside.changes folder.new }
{
    let mut buffer = new_buffer(alloc)?;
    match lay_all(alloc, publisher, contents, source, folder, &mut buffer) {
        Ok(()) => Ok(()),
        Err(fault) => Err(fault),
    }
}

// The same with a buffer lent.
fn lay_all<S: Source, F: Folder>(
    alloc: Global,
    publisher: &str,
    contents: &[Content],
    source: &mut S,
    folder: &mut F,
    buffer: &mut [u8],
) -> Result<(), Or<LayFault>>
    requires publisher { IsPublisher publisher.now }
    requires named { AreNames contents.now }
    requires placed { ArePlaced publisher.now contents.now }
    requires parents { IsTrue (F.outside.tells folder.old) → (n : ℕ) (c : content.Content) → slice_get contents.now n ≡ Some c → IsTrue (has_parent (F.outside.state folder.old).held c.place.bytes) }
    requires room { 0 < length buffer.old }
    ensures intact { IsTrue (F.outside.tells folder.old) → OnOk result (AreAllIntact publisher.now (F.outside.state folder.new).held (names_of contents.now)) }
    ensures beside { IsTrue (F.outside.tells folder.old) → LaysBeside F.outside publisher.now (names_of contents.now) folder.old folder.new }
    ensures missing { IsTrue (S.outside.tells source.old) → IfBad result (SaysOfLay (S.outside.state source.old).held contents.now) }
    ensures counted { IfBad result (IsCounted (length contents.now)) }
    ensures reads { Reads S.outside source.old source.new (result ≡ Err (Bad fault.SourceFault)) }
    ensures cause { HasCause (F.outside.faults folder.old) (F.outside.faults folder.new) (result ≡ Err (Bad fault.FolderFault)) }
    ensures same_kind { F.outside.tells folder.new ≡ F.outside.tells folder.old }
    ensures changes { F.outside.changes folder.old ≤ F.outside.changes folder.new }
{
    for (number, content) in contents.iter().enumerate() {
        match lay_content(alloc, publisher, content, source, folder, buffer) {
            Ok(()) => {}
            Err(fault) => return Err(fault_at(number as u64, fault)),
        }
    }
    Ok(())
}

// The fault of a content, as one of the list.
fn fault_at(number: u64, fault: Or<ContentFault>) -> Or<LayFault>
    ensures { result ≡ lists.fault_at number fault }
{
    match fault {
        Or::Bad(ContentFault::Missing) => Or::Bad(LayFault::Missing { at: number }),
        Or::Bad(ContentFault::SourceFault) => Or::Bad(LayFault::SourceFault),
        Or::Bad(ContentFault::FolderFault) => Or::Bad(LayFault::FolderFault),
        Or::OutOfMemory => Or::OutOfMemory,
    }
}

// Lays one content, unless it is intact there.
fn lay_content<S: Source, F: Folder>(
    alloc: Global,
    publisher: &str,
    content: &Content,
    source: &mut S,
    folder: &mut F,
    buffer: &mut [u8],
) -> Result<(), Or<ContentFault>>
    requires placed { content.now.place.bytes ≡ payload_place publisher.now content.now.name }
    requires parent { IsTrue (F.outside.tells folder.old) → IsTrue (has_parent (F.outside.state folder.old).held content.now.place.bytes) }
    requires room { 0 < length buffer.old }
    ensures intact { IsTrue (F.outside.tells folder.old) → OnOk result (HasIntact publisher.now (F.outside.state folder.new).held content.now.name) }
    ensures kept { IsTrue (F.outside.tells folder.old) → HasIntact publisher.now (F.outside.state folder.old).held content.now.name → F.outside.state folder.new ≡ F.outside.state folder.old }
    ensures any_moment { IsTrue (F.outside.tells folder.old) → LaysBeside F.outside publisher.now (content.now.name ∷ []) folder.old folder.new }
    ensures missing { IsTrue (S.outside.tells source.old) → result ≡ Err (Bad one.Missing) → IsNotThere content.now.name (file_at (S.outside.state source.old).held content.now.path.bytes) }
    ensures reads { Reads S.outside source.old source.new (result ≡ Err (Bad one.SourceFault)) }
    ensures cause { HasCause (F.outside.faults folder.old) (F.outside.faults folder.new) (result ≡ Err (Bad one.FolderFault)) }
    ensures same_kind { F.outside.tells folder.new ≡ F.outside.tells folder.old }
    ensures changes { F.outside.changes folder.old ≤ F.outside.changes folder.new }
{
    match is_intact(alloc, publisher, &content.name, folder, buffer) {
        Ok(true) => Ok(()),
        Ok(false) => write_content(alloc, content, source, folder, buffer),
        Err(Or::Bad(Failed)) => Err(Or::Bad(ContentFault::FolderFault)),
        Err(Or::OutOfMemory) => Err(Or::OutOfMemory),
    }
}
