//! The file `image`, loaded.

ghost use Rattle.std.specs.Prelude.{◌≡◌, IsTrue, IfOk};
ghost use Rattle.ips_text.specs.Reading.{IfBad};
ghost use Rattle.ips_text.specs.declared.refusal.Or.TheVariants.{Bad};
ghost use Rattle.ips_outside.specs.Outside.{Reads};
ghost use Rattle.ips_records.specs.Lines.{lines_text};
ghost use Rattle.ips_state.specs.Lawful.{IsHead};
ghost use Rattle.ips_state.specs.Text.{head_lines};
ghost use Rattle.ips_state.specs.Records.{image_path};
ghost use Rattle.ips_load.specs.HeadLines.{head_read};
ghost use Rattle.ips_load.specs.Held.{Stands};
ghost use Rattle.ips_load.specs.Fault.{IsBadText, IsFileFault, IsHeadFile, IsHeadFault};
ghost use Rattle.ips_load.specs.declared.fault.StateFault.TheVariants as fault;

use crate::standing::is_there;
use ips_load::{Heading, StateFault, bad_line, load_bytes, path_of, read_heading};
use ips_outside::Source;
use ips_text::{Or, RelPath};
use std::alloc::Global;

/// What an image is by itself, as its file `image` tells it.
pub fn load_heading<F: Source>(alloc: Global, folder: &mut F) -> Result<Heading, Or<StateFault>>
    ensures lawful { IfOk result (λ h. IsHead (head_read h)) }
    ensures found { IsTrue (F.outside.tells folder.old) → IfOk result (λ h. Stands (F.outside.state folder.old).held image_path (lines_text (head_lines (head_read h)))) }
    ensures fault { IsTrue (F.outside.tells folder.old) → IfBad result (IsHeadFault (F.outside.state folder.old).held) }
    ensures reads { Reads F.outside folder.old folder.new (result ≡ Err (Bad fault.FolderFault)) }
{
    let path = path_of(alloc, b"var/pkg/image")?;
    match is_there(folder, &path) {
        Ok(true) => heading_at(alloc, folder, &path),
        Ok(false) => Err(Or::Bad(StateFault::NoImage)),
        Err(_) => Err(Or::Bad(StateFault::FolderFault)),
    }
}

// What the file at the path tells of an image by itself.
fn heading_at<F: Source>(
    alloc: Global,
    folder: &mut F,
    path: &RelPath,
) -> Result<Heading, Or<StateFault>>
    ensures lawful { IfOk result (λ h. IsHead (head_read h)) }
    ensures found { IsTrue (F.outside.tells folder.old) → IfOk result (λ h. Stands (F.outside.state folder.old).held path.now.bytes (lines_text (head_lines (head_read h)))) }
    ensures fault { IsTrue (F.outside.tells folder.old) → IfBad result (IsFileFault (IsBadText IsHeadFile) (F.outside.state folder.old).held path.now.bytes) }
    ensures reads { Reads F.outside folder.old folder.new (result ≡ Err (Bad fault.FolderFault)) }
{
    let bytes = load_bytes(alloc, folder, path)?;
    match read_heading(alloc, &bytes) {
        Ok(heading) => Ok(heading),
        Err(Or::Bad(line)) => Err(bad_line(alloc, path, line)),
        Err(Or::OutOfMemory) => Err(Or::OutOfMemory),
    }
}
