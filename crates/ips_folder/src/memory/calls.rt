//! The calls of a folder in memory.

ghost use Rattle.std.specs.Prelude.{◌≡◌, ◌<◌, ◌≤◌, true, List, Some, IfOk, IsErr, IsErrOf, IsTrue, is_err, length, if◌then◌else◌};
ghost use Rattle.ips_text.specs.Ancestry.{covers};
ghost use Rattle.ips_outside.specs.Image.{Link, is_dir, is_file};
ghost use Rattle.ips_outside.specs.Change.{names};
ghost use Rattle.ips_outside.specs.State.{nowhere};
ghost use Rattle.ips_outside.specs.Outside.{Reads, look_of, IsSmall, readable, IsRead};
ghost use Rattle.ips_folder.specs.Calls.{Writes, Syncs, CanMake, IsSole, is_link, has_mode};
ghost use Rattle.ips_folder.specs.Listing.{IsListing};
ghost use Rattle.ips_folder.specs.History.{begun, dir_made, file_made, bytes_appended, link_made, hard_made, removed, mode_given};
ghost use Rattle.ips_folder.specs.Memory.{mem_folder, mem_folder_sane, moment, must_fail, has_failed, Does, Passes};

use crate::call::Call;
use crate::folder::Folder;
use crate::listing::{ListFault, Listing, Paths};
use crate::memory::MemFolder;
use ips_outside::{Failed, Look, Source};
use ips_text::RelPath;
use std::alloc::Global;

impl Source for MemFolder {
    ghost outside = { mem_folder };

    ghost sane = { mem_folder_sane };

    fn look(&mut self, path: &RelPath) -> Result<Look, Failed>
        ensures reads { Reads mem_folder self.old self.new (IsErr result) }
        ensures passes { Passes self.old self.new (is_err result) }
        ensures found { IfOk result (λ found. found ≡ look_of ((mem_folder.state self.old).held.look path.now.bytes)) }
        ensures mode { IfOk result IsSmall }
    {
        self.answer(true)?;
        Ok(self.log.tree().look(path))
    }

    fn read(&mut self, path: &RelPath, at: u64, buf: &mut [u8]) -> Result<usize, Failed>
        ensures reads { Reads mem_folder self.old self.new (IsErr result) }
        ensures passes { Passes self.old self.new (is_err result) }
        ensures fits { IfOk result (λ count. count ≤ length buf.old) }
        ensures found { IfOk result (IsRead (readable ((mem_folder.state self.old).held.look path.now.bytes)) at buf.new) }
    {
        self.answer(true)?;
        Ok(self.log.tree().read(path, at, buf))
    }
}

impl Folder for MemFolder {
    fn list(&mut self, alloc: Global, dir: &RelPath) -> Result<Listing, ListFault>
        requires { IsTrue (is_dir ((mem_folder.state self.old).held.look dir.now.bytes)) }
        ensures reads { Reads mem_folder self.old self.new (IsErrOf result ListFault.Failed) }
        ensures passes { Passes self.old self.new (has_failed result) }
        ensures found { IfOk result (IsListing (mem_folder.state self.old).held dir.now.bytes) }
    {
        self.answer(true)?;
        let names = Paths::new(self.log.tree().children(alloc, dir)?);
        let foreign = self.log.tree().is_foreign(dir);
        Ok(Listing { names, foreign })
    }

    fn target(&mut self, alloc: Global, path: &RelPath) -> Result<Vec<u8>, ListFault>
        requires { IsTrue (is_link ((mem_folder.state self.old).held.look path.now.bytes)) }
        ensures reads { Reads mem_folder self.old self.new (IsErrOf result ListFault.Failed) }
        ensures passes { Passes self.old self.new (has_failed result) }
        ensures found { IfOk result (λ target. (mem_folder.state self.old).held.look path.now.bytes ≡ Some (Link target.items)) }
    {
        self.answer(true)?;
        match self.log.tree().target(path) {
            Some(target) => Ok(Vec::from_slice(alloc, target)?),
            None => unreachable!(),
        }
    }

    fn same(&mut self, a: &RelPath, b: &RelPath) -> Result<bool, Failed>
        requires first { IsTrue (is_file ((mem_folder.state self.old).held.look a.now.bytes)) }
        requires second { IsTrue (is_file ((mem_folder.state self.old).held.look b.now.bytes)) }
        ensures reads { Reads mem_folder self.old self.new (IsErr result) }
        ensures passes { Passes self.old self.new (is_err result) }
        ensures found { IfOk result (λ same. same ≡ (mem_folder.state self.old).held.same a.now.bytes b.now.bytes) }
    {
        self.answer(true)?;
        Ok(self.log.tree().same(a, b))
    }

    fn make_dir(&mut self, path: &RelPath, mode: u16) -> Result<(), Failed>
        requires can { CanMake (mem_folder.state self.old).held path.now.bytes }
        requires mode { mode < 4096 }
        ensures writes { Writes mem_folder (covers path.now.bytes) nowhere (dir_made path.now.bytes mode (moment self.old)).state self.old self.new result }
        ensures does { Does (dir_made path.now.bytes mode (moment self.old)) self.old self.new result }
    {
        match path.copy(self.alloc) {
            Ok(path) => self.act(Call::MakeDir { path, mode }),
            Err(_) => self.starve(),
        }
    }

    fn make_file(&mut self, path: &RelPath) -> Result<(), Failed>
        requires { CanMake (mem_folder.state self.old).held path.now.bytes }
        ensures writes { Writes mem_folder (covers path.now.bytes) nowhere (file_made path.now.bytes (moment self.old)).state self.old self.new result }
        ensures does { Does (file_made path.now.bytes (moment self.old)) self.old self.new result }
    {
        match path.copy(self.alloc) {
            Ok(path) => self.act(Call::MakeFile { path }),
            Err(_) => self.starve(),
        }
    }

    fn append(&mut self, path: &RelPath, bytes: &[u8]) -> Result<(), Failed>
        requires { IsSole (mem_folder.state self.old).held path.now.bytes }
        ensures writes { Writes mem_folder (covers path.now.bytes) nowhere (bytes_appended path.now.bytes bytes.now (moment self.old)).state self.old self.new result }
        ensures does { Does (bytes_appended path.now.bytes bytes.now (moment self.old)) self.old self.new result }
    {
        match (path.copy(self.alloc), Vec::from_slice(self.alloc, bytes)) {
            (Ok(path), Ok(bytes)) => self.act(Call::Append { path, bytes }),
            _ => self.starve(),
        }
    }

    fn make_link(&mut self, path: &RelPath, target: &[u8]) -> Result<(), Failed>
        requires { CanMake (mem_folder.state self.old).held path.now.bytes }
        ensures writes { Writes mem_folder (covers path.now.bytes) nowhere (link_made path.now.bytes target.now (moment self.old)).state self.old self.new result }
        ensures does { Does (link_made path.now.bytes target.now (moment self.old)) self.old self.new result }
    {
        match (path.copy(self.alloc), Vec::from_slice(self.alloc, target)) {
            (Ok(path), Ok(target)) => self.act(Call::MakeLink { path, target }),
            _ => self.starve(),
        }
    }

    fn make_hard(&mut self, path: &RelPath, to: &RelPath) -> Result<(), Failed>
        requires can { CanMake (mem_folder.state self.old).held path.now.bytes }
        requires file { IsTrue (is_file ((mem_folder.state self.old).held.look to.now.bytes)) }
        ensures writes { Writes mem_folder (covers path.now.bytes) nowhere (hard_made path.now.bytes to.now.bytes (moment self.old)).state self.old self.new result }
        ensures does { Does (hard_made path.now.bytes to.now.bytes (moment self.old)) self.old self.new result }
    {
        match (path.copy(self.alloc), to.copy(self.alloc)) {
            (Ok(path), Ok(to)) => self.act(Call::MakeHard { path, to }),
            _ => self.starve(),
        }
    }

    fn remove(&mut self, path: &RelPath) -> Result<(), Failed>
        ensures writes { Writes mem_folder (covers path.now.bytes) nowhere (removed path.now.bytes (moment self.old)).state self.old self.new result }
        ensures does { Does (removed path.now.bytes (moment self.old)) self.old self.new result }
    {
        match path.copy(self.alloc) {
            Ok(path) => self.act(Call::Remove { path }),
            Err(_) => self.starve(),
        }
    }

    fn set_mode(&mut self, path: &RelPath, mode: u16) -> Result<(), Failed>
        requires can { IsTrue (has_mode ((mem_folder.state self.old).held.look path.now.bytes)) }
        requires mode { mode < 4096 }
        ensures writes { Writes mem_folder nowhere (names (mem_folder.state self.old).held path.now.bytes) (mode_given mode path.now.bytes (moment self.old)).state self.old self.new result }
        ensures does { Does (mode_given mode path.now.bytes (moment self.old)) self.old self.new result }
    {
        match path.copy(self.alloc) {
            Ok(path) => self.act(Call::SetMode { path, mode }),
            Err(_) => self.starve(),
        }
    }

    fn sync(&mut self) -> Result<(), Failed>
        ensures syncs { Syncs mem_folder self.old self.new result }
        ensures does { Does (if must_fail self.old then moment self.old else begun (moment self.old).state.held) self.old self.new result }
    {
        if self.must_fail() {
            return self.answer_change(true);
        }
        self.settle()
    }
}
