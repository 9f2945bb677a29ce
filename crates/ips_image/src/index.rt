//! The index, loaded.

ghost use Rattle.std.specs.Prelude.{◌≡◌, IsTrue, IfOk, IfSome};
ghost use Rattle.ips_text.specs.Reading.{IfBad};
ghost use Rattle.ips_text.specs.declared.refusal.Or.TheVariants.{Bad};
ghost use Rattle.ips_outside.specs.Outside.{Reads};
ghost use Rattle.ips_index.specs.Rows.{index_text};
ghost use Rattle.ips_index.specs.Text.{AreIndexRows, IsIndexFile};
ghost use Rattle.ips_load.specs.Held.{Stands, HoldsIndex};
ghost use Rattle.ips_load.specs.Fault.{IsBadText, IsFileFault, IsHeadFault, IsHeadFile, StandsAs};
ghost use Rattle.ips_image.specs.Fault.{IsIndexFault, IsSearchFault};
ghost use Rattle.ips_state.specs.Records.{image_path};
ghost use Rattle.ips_load.specs.declared.fault.StateFault.TheVariants as fault;

use crate::heading::load_heading;
use crate::standing::is_there;
use ips_index::Index;
use ips_load::{StateFault, bad_line, load_bytes, path_of};
use ips_outside::Source;
use ips_text::{Or, RelPath};
use std::alloc::Global;

/// The index of an image, where it has one; its file `image` has to be good too. No other file is looked at.
pub fn load_index<F: Source>(alloc: Global, folder: &mut F) -> Result<Option<Index>, Or<StateFault>>
    ensures rows { IfOk result (λ index. IfSome index AreIndexRows) }
    ensures found { IsTrue (F.outside.tells folder.old) → IfOk result (λ index. HoldsIndex (F.outside.state folder.old).held index) }
    ensures image { IsTrue (F.outside.tells folder.old) → IfOk result (λ index. StandsAs IsHeadFile (F.outside.state folder.old).held image_path) }
    ensures fault { IsTrue (F.outside.tells folder.old) → IfBad result (IsSearchFault (F.outside.state folder.old).held) }
    ensures reads { Reads F.outside folder.old folder.new (result ≡ Err (Bad fault.FolderFault)) }
{
    match load_heading(alloc, folder) {
        Ok(_) => index_of(alloc, folder),
        Err(fault) => Err(fault),
    }
}

/// The index of an image, where it has one.
pub fn index_of<F: Source>(alloc: Global, folder: &mut F) -> Result<Option<Index>, Or<StateFault>>
    ensures rows { IfOk result (λ index. IfSome index AreIndexRows) }
    ensures found { IsTrue (F.outside.tells folder.old) → IfOk result (λ index. HoldsIndex (F.outside.state folder.old).held index) }
    ensures fault { IsTrue (F.outside.tells folder.old) → IfBad result (IsIndexFault (F.outside.state folder.old).held) }
    ensures reads { Reads F.outside folder.old folder.new (result ≡ Err (Bad fault.FolderFault)) }
{
    let path = path_of(alloc, b"var/pkg/index")?;
    match is_there(folder, &path) {
        Ok(true) => match index_at(alloc, folder, &path) {
            Ok(index) => Ok(Some(index)),
            Err(fault) => Err(fault),
        },
        Ok(false) => Ok(None),
        Err(_) => Err(Or::Bad(StateFault::FolderFault)),
    }
}

// The index that the record at the path holds.
fn index_at<F: Source>(
    alloc: Global,
    folder: &mut F,
    path: &RelPath,
) -> Result<Index, Or<StateFault>>
    ensures rows { IfOk result AreIndexRows }
    ensures found { IsTrue (F.outside.tells folder.old) → IfOk result (λ index. Stands (F.outside.state folder.old).held path.now.bytes (index_text index)) }
    ensures fault { IsTrue (F.outside.tells folder.old) → IfBad result (IsFileFault (IsBadText IsIndexFile) (F.outside.state folder.old).held path.now.bytes) }
    ensures reads { Reads F.outside folder.old folder.new (result ≡ Err (Bad fault.FolderFault)) }
{
    let bytes = load_bytes(alloc, folder, path)?;
    match Index::read(alloc, &bytes) {
        Ok(index) => Ok(index),
        Err(Or::Bad(fault)) => Err(bad_line(alloc, path, fault.line)),
        Err(Or::OutOfMemory) => Err(Or::OutOfMemory),
    }
}
