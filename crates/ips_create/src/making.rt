//! The calls that make a repository, in their order.

ghost use Rattle.std.specs.Prelude.{◌≡◌, ◌⊎◌, ◌||◌, ◌≤◌, true, Err, Some, IsTrue, IsFalse, IsErr, IfErr, OnOk, List, ℕ};
ghost use Rattle.ips_text.specs.Ancestry.{covers};
ghost use Rattle.ips_outside.specs.Children.{path_bytes};
ghost use Rattle.ips_outside.specs.Image.{File, has_parent};
ghost use Rattle.ips_outside.specs.State.{IsSettled};
ghost use Rattle.ips_outside.specs.Outside.{HasCause};
ghost use Rattle.ips_folder.specs.Calls.{ChangesOnly, Throughout};
ghost use Rattle.ips_repo.specs.Places.{mark_place};
ghost use Rattle.ips_ways.specs.Ways.{CanHave, HasBegun, with_dirs};
ghost use Rattle.ips_lay.specs.Records.{MakesInPart, record_dirs};
ghost use Rattle.ips_create.specs.Created.{IsFault, IsMade};
ghost use Rattle.ips_create.specs.Making.{IsMarkedLast, Makes};
ghost use Rattle.ips_create.specs.Ready.{IsLayout, IsReady, has_laid, has_made, is_put, laid_out};
ghost use Rattle.ips_create.specs.declared.fault.CreateFault.TheVariants.{FolderFault};

use crate::fault::CreateFault;
use crate::writing::write_safe;
use ips_folder::Folder;
use ips_lay::make_safe;
use ips_outside::{Failed, Source};
use ips_text::RelPath;
use ips_ways::{Unmade, make_directories};

/// The text of the mark.
const MARK: &[u8] = b"version=4\n";

/// Makes the directories of the records and makes them safe, then the rest and makes that safe, and then the mark.
pub(crate) fn make<F: Folder>(
    folder: &mut F,
    records: &[RelPath],
    places: &[RelPath],
    catalog: &RelPath,
    text: &[u8],
    mark: &RelPath,
) -> Result<(), CreateFault>
    requires records { path_bytes records.now ≡ record_dirs }
    requires mark { mark.now.bytes ≡ mark_place }
    requires layout { IsLayout (laid_out (path_bytes places.now) catalog.now.bytes text.now) }
    requires ready { IsTrue (F.outside.tells folder.old) → IsReady (laid_out (path_bytes places.now) catalog.now.bytes text.now) (F.outside.state folder.old).held }
    requires safe { IsTrue (F.outside.tells folder.old) → IsSettled (F.outside.state folder.old) }
    ensures made { IsTrue (F.outside.tells folder.old) → OnOk result (IsMade (laid_out (path_bytes places.now) catalog.now.bytes text.now) (F.outside.state folder.old).held (F.outside.state folder.new)) }
    ensures makes { IsTrue (F.outside.tells folder.old) → Makes F.outside (laid_out (path_bytes places.now) catalog.now.bytes text.now) folder.old folder.new
        ⊎ (MakesInPart F.outside folder.old folder.new × (result ≡ Err (FolderFault true))) }
    ensures marked { IsTrue (F.outside.tells folder.old) → Throughout F.outside folder.old folder.new (IsMarkedLast (laid_out (path_bytes places.now) catalog.now.bytes text.now)) }
    ensures faults { IfErr result IsFault }
    ensures kept { IsFalse (has_made result) → F.outside.state folder.new ≡ F.outside.state folder.old }
    ensures begun { HasBegun (F.outside.changes folder.old) (F.outside.changes folder.new) (has_made result) }
    ensures cause { HasCause (F.outside.faults folder.old) (F.outside.faults folder.new) (IsErr result) }
    ensures same_kind { F.outside.tells folder.new ≡ F.outside.tells folder.old }
    ensures changes { F.outside.changes folder.old ≤ F.outside.changes folder.new }
{
    let made = match make_safe(folder, records) {
        Ok(made) => made,
        Err(why) => {
            return Err(CreateFault::FolderFault {
                unfinished: why.begun,
            });
        }
    };
    match lay(folder, places, catalog, text) {
        Ok(()) => {}
        Err(why) => return Err(behind(made, why)),
    }
    match write_safe(folder, mark, MARK) {
        Ok(()) => Ok(()),
        Err(Failed) => Err(CreateFault::FolderFault { unfinished: true }),
    }
}

// A fault of the rest, behind directories of the records that were made or stood.
fn behind(made: bool, why: Unmade) -> CreateFault
    ensures { result ≡ FolderFault (made || why.begun) }
{
    CreateFault::FolderFault {
        unfinished: made || why.begun,
    }
}

// Makes the directories and the catalog, and makes them safe.
fn lay<F: Folder>(
    folder: &mut F,
    places: &[RelPath],
    catalog: &RelPath,
    text: &[u8],
) -> Result<(), Unmade>
    requires can { IsTrue (F.outside.tells folder.old) → CanHave (F.outside.state folder.old).held (path_bytes places.now) }
    requires parent { IsTrue (F.outside.tells folder.old) → IsTrue (has_parent (with_dirs (path_bytes places.now) (F.outside.state folder.old).held) catalog.now.bytes) }
    ensures written { IsTrue (F.outside.tells folder.old) → OnOk result ((F.outside.state folder.new).held.look catalog.now.bytes ≡ Some (File 420 text.now)) }
    ensures others { IsTrue (F.outside.tells folder.old) → OnOk result ((q : List ℕ) → IsFalse (covers catalog.now.bytes q)
        → (F.outside.state folder.new).held.look q ≡ (with_dirs (path_bytes places.now) (F.outside.state folder.old).held).look q) }
    ensures safe { IsTrue (F.outside.tells folder.old) → OnOk result (IsSettled (F.outside.state folder.new)) }
    ensures any_moment { IsTrue (F.outside.tells folder.old) → ChangesOnly F.outside (is_put catalog.now.bytes (path_bytes places.now) (F.outside.state folder.old).held)
        (is_put catalog.now.bytes (path_bytes places.now) (F.outside.state folder.old).held) folder.old folder.new }
    ensures kept { IsFalse (has_laid result) → F.outside.state folder.new ≡ F.outside.state folder.old }
    ensures begun { HasBegun (F.outside.changes folder.old) (F.outside.changes folder.new) (has_laid result) }
    ensures cause { HasCause (F.outside.faults folder.old) (F.outside.faults folder.new) (IsErr result) }
    ensures same_kind { F.outside.tells folder.new ≡ F.outside.tells folder.old }
    ensures changes { F.outside.changes folder.old ≤ F.outside.changes folder.new }
{
    match make_directories(folder, places) {
        Ok(_) => {}
        Err(why) => return Err(why),
    }
    match write_safe(folder, catalog, text) {
        Ok(()) => Ok(()),
        Err(Failed) => Err(Unmade { begun: true }),
    }
}
