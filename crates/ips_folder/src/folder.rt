//! A folder: a tree of files that is changed call by call, of which a crash may leave a part.

ghost use Rattle.std.specs.Prelude.{◌≡◌, ◌<◌, ℕ, Bool, false, IsTrue, List, [], Some, None, IfOk, IsErr, IsErrOf};
ghost use Rattle.ips_text.specs.Ancestry.{covers};
ghost use Rattle.ips_outside.specs.Image.{File, Dir, Link, is_dir, is_file};
ghost use Rattle.ips_outside.specs.Change.{with_entry_at, joined, appended, names};
ghost use Rattle.ips_outside.specs.State.{nowhere, written, mode_set};
ghost use Rattle.ips_outside.specs.Outside.{Reads};
ghost use Rattle.ips_folder.specs.Calls.{Writes, Syncs, CanMake, IsSole, is_link, has_mode};
ghost use Rattle.ips_folder.specs.Listing.{IsListing};

use crate::listing::{ListFault, Listing};
use ips_outside::{Failed, Source};
use ips_text::RelPath;
use std::alloc::Global;

/// A folder. Each call that writes touches its path and nothing else; after `Err` it has changed and touched its path
/// or nothing at all. No call follows a link.
pub trait Folder: Source {
    /// The children of a directory.
    fn list(&mut self, alloc: Global, dir: &RelPath) -> Result<Listing, ListFault>
        requires { IsTrue (Self.outside.tells self.old) → IsTrue (is_dir ((Self.outside.state self.old).held.look dir.now.bytes)) }
        ensures reads { Reads Self.outside self.old self.new (IsErrOf result ListFault.Failed) }
        ensures found { IsTrue (Self.outside.tells self.old) → IfOk result (IsListing (Self.outside.state self.old).held dir.now.bytes) };

    /// The target of a symbolic link.
    fn target(&mut self, alloc: Global, path: &RelPath) -> Result<Vec<u8>, ListFault>
        requires { IsTrue (Self.outside.tells self.old) → IsTrue (is_link ((Self.outside.state self.old).held.look path.now.bytes)) }
        ensures reads { Reads Self.outside self.old self.new (IsErrOf result ListFault.Failed) }
        ensures found { IsTrue (Self.outside.tells self.old) → IfOk result (λ target. (Self.outside.state self.old).held.look path.now.bytes ≡ Some (Link target.items)) };

    /// Whether two files are one, under two names.
    fn same(&mut self, a: &RelPath, b: &RelPath) -> Result<bool, Failed>
        requires first { IsTrue (Self.outside.tells self.old) → IsTrue (is_file ((Self.outside.state self.old).held.look a.now.bytes)) }
        requires second { IsTrue (Self.outside.tells self.old) → IsTrue (is_file ((Self.outside.state self.old).held.look b.now.bytes)) }
        ensures reads { Reads Self.outside self.old self.new (IsErr result) }
        ensures found { IsTrue (Self.outside.tells self.old) → IfOk result (λ same. same ≡ (Self.outside.state self.old).held.same a.now.bytes b.now.bytes) };

    /// Makes a directory at a path at which nothing stands, below a directory.
    fn make_dir(&mut self, path: &RelPath, mode: u16) -> Result<(), Failed>
        requires can { IsTrue (Self.outside.tells self.old) → CanMake (Self.outside.state self.old).held path.now.bytes }
        requires mode { mode < 4096 }
        ensures { Writes Self.outside (covers path.now.bytes) nowhere
            (written path.now.bytes (with_entry_at path.now.bytes (Some (Dir mode false)) (Self.outside.state self.old).held) (Self.outside.state self.old))
            self.old self.new result };

    /// Makes an empty file of mode 0600 at a path at which nothing stands, below a directory.
    fn make_file(&mut self, path: &RelPath) -> Result<(), Failed>
        requires { IsTrue (Self.outside.tells self.old) → CanMake (Self.outside.state self.old).held path.now.bytes }
        ensures { Writes Self.outside (covers path.now.bytes) nowhere
            (written path.now.bytes (with_entry_at path.now.bytes (Some (File 384 [])) (Self.outside.state self.old).held) (Self.outside.state self.old))
            self.old self.new result };

    /// Puts bytes at the end of a file with one name.
    fn append(&mut self, path: &RelPath, bytes: &[u8]) -> Result<(), Failed>
        requires { IsTrue (Self.outside.tells self.old) → IsSole (Self.outside.state self.old).held path.now.bytes }
        ensures { Writes Self.outside (covers path.now.bytes) nowhere
            (written path.now.bytes (appended path.now.bytes bytes.now (Self.outside.state self.old).held) (Self.outside.state self.old))
            self.old self.new result };

    /// Makes a symbolic link to the target at a path at which nothing stands, below a directory.
    fn make_link(&mut self, path: &RelPath, target: &[u8]) -> Result<(), Failed>
        requires { IsTrue (Self.outside.tells self.old) → CanMake (Self.outside.state self.old).held path.now.bytes }
        ensures { Writes Self.outside (covers path.now.bytes) nowhere
            (written path.now.bytes (with_entry_at path.now.bytes (Some (Link target.now)) (Self.outside.state self.old).held) (Self.outside.state self.old))
            self.old self.new result };

    /// Makes a further name of the file at `to`, at a path at which nothing stands, below a directory.
    fn make_hard(&mut self, path: &RelPath, to: &RelPath) -> Result<(), Failed>
        requires can { IsTrue (Self.outside.tells self.old) → CanMake (Self.outside.state self.old).held path.now.bytes }
        requires file { IsTrue (Self.outside.tells self.old) → IsTrue (is_file ((Self.outside.state self.old).held.look to.now.bytes)) }
        ensures { Writes Self.outside (covers path.now.bytes) nowhere
            (written path.now.bytes (joined path.now.bytes to.now.bytes (Self.outside.state self.old).held) (Self.outside.state self.old))
            self.old self.new result };

    /// Takes away whatever stands at the path, with all below it; where nothing stands, nothing.
    fn remove(&mut self, path: &RelPath) -> Result<(), Failed>
        ensures { Writes Self.outside (covers path.now.bytes) nowhere
            (written path.now.bytes (with_entry_at path.now.bytes None (Self.outside.state self.old).held) (Self.outside.state self.old))
            self.old self.new result };

    /// Sets the permission bits of a directory or a file, which all names of the file have. It touches the mode alone.
    fn set_mode(&mut self, path: &RelPath, mode: u16) -> Result<(), Failed>
        requires can { IsTrue (Self.outside.tells self.old) → IsTrue (has_mode ((Self.outside.state self.old).held.look path.now.bytes)) }
        requires mode { mode < 4096 }
        ensures { Writes Self.outside nowhere (names (Self.outside.state self.old).held path.now.bytes)
            (mode_set mode path.now.bytes (Self.outside.state self.old))
            self.old self.new result };

    /// Makes all that was written safe from a crash.
    fn sync(&mut self) -> Result<(), Failed>
        ensures { Syncs Self.outside self.old self.new result };
}
