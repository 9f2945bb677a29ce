//! Directories and contents written beside the repository.

ghost use Rattle.std.specs.Prelude.{◌≡◌, ◌≤◌, ℕ, Err, Some, IsTrue, OnOk, length, slice_get};
ghost use Rattle.ips_text.specs.declared.refusal.Or.TheVariants.{Bad};
ghost use Rattle.ips_outside.specs.Children.{path_bytes};
ghost use Rattle.ips_outside.specs.Image.{has_parent};
ghost use Rattle.ips_outside.specs.State.{IsSettled};
ghost use Rattle.ips_outside.specs.Outside.{HasCause, Reads};
ghost use Rattle.ips_fmri.specs.Name.{IsPublisher};
ghost use Rattle.ips_ways.specs.Ways.{CanHave, with_dirs};
ghost use Rattle.ips_lay.specs.Laid.{LaysBeside};
ghost use Rattle.ips_lay.specs.Lists.{AreAllIntact, AreNames, ArePlaced, names_of};
ghost use Rattle.ips_lay.specs.declared.content.Content as content;
ghost use Rattle.ips_beside.specs.Writing.{AreThere, IsCountedFault, IsLost, SaysLost, SaysUnlaid, StaysOffLaid, WritesBeside};
ghost use Rattle.ips_beside.specs.declared.fault.BesideFault.TheVariants as fault;

use crate::fault::BesideFault;
use ips_folder::Folder;
use ips_lay::{Content, LayFault, lay};
use ips_outside::{Failed, Source};
use ips_text::{Or, RelPath, Text};
use ips_ways::make_directories;
use std::alloc::{AllocError, Global};

/// Makes the directories on the way, lays the contents, and makes all of it safe.
pub fn write_beside<S: Source, F: Folder>(
    alloc: Global,
    publisher: &str,
    ways: &[RelPath],
    contents: &[Content],
    proto: &mut S,
    target: &mut F,
) -> Result<(), Or<BesideFault>>
    requires publisher { IsPublisher publisher.now }
    requires named { AreNames contents.now }
    requires placed { ArePlaced publisher.now contents.now }
    requires can { IsTrue (F.outside.tells target.old) → CanHave (F.outside.state target.old).held (path_bytes ways.now) }
    requires parents { IsTrue (F.outside.tells target.old) → (n : ℕ) (c : content.Content) → slice_get contents.now n ≡ Some c
        → IsTrue (has_parent (with_dirs (path_bytes ways.now) (F.outside.state target.old).held) c.place.bytes) }
    ensures beside { IsTrue (F.outside.tells target.old) → WritesBeside F.outside publisher.now (path_bytes ways.now) (names_of contents.now) target.old target.new }
    ensures safe { IsTrue (F.outside.tells target.old) → OnOk result (IsSettled (F.outside.state target.new)) }
    ensures stays { IsTrue (F.outside.tells target.old) → OnOk result (StaysOffLaid publisher.now (with_dirs (path_bytes ways.now) (F.outside.state target.old).held) (names_of contents.now) (F.outside.state target.new).held) }
    ensures intact { IsTrue (F.outside.tells target.old) → OnOk result (AreAllIntact publisher.now (F.outside.state target.new).held (names_of contents.now)) }
    ensures kept { IsTrue (S.outside.tells proto.old) → AreThere (S.outside.state proto.old).held contents.now → IsLost result → ⊥ }
    ensures reads_proto { Reads S.outside proto.old proto.new (result ≡ Err (Bad fault.SourceFault)) }
    ensures cause { HasCause (F.outside.faults target.old) (F.outside.faults target.new) (result ≡ Err (Bad fault.FolderFault)) }
    ensures same_kind { F.outside.tells target.new ≡ F.outside.tells target.old }
    ensures changes { F.outside.changes target.old ≤ F.outside.changes target.new }
{
    match make_directories(target, ways) {
        Ok(_) => {}
        Err(_) => return Err(Or::Bad(BesideFault::FolderFault)),
    }
    lay_safe(alloc, publisher, contents, proto, target)
}

// Lays the contents, and makes safe what was written.
fn lay_safe<S: Source, F: Folder>(
    alloc: Global,
    publisher: &str,
    contents: &[Content],
    proto: &mut S,
    target: &mut F,
) -> Result<(), Or<BesideFault>>
    requires publisher { IsPublisher publisher.now }
    requires named { AreNames contents.now }
    requires placed { ArePlaced publisher.now contents.now }
    requires parents { IsTrue (F.outside.tells target.old) → (n : ℕ) (c : content.Content) → slice_get contents.now n ≡ Some c → IsTrue (has_parent (F.outside.state target.old).held c.place.bytes) }
    ensures beside { IsTrue (F.outside.tells target.old) → LaysBeside F.outside publisher.now (names_of contents.now) target.old target.new }
    ensures safe { IsTrue (F.outside.tells target.old) → OnOk result (IsSettled (F.outside.state target.new)) }
    ensures intact { IsTrue (F.outside.tells target.old) → OnOk result (AreAllIntact publisher.now (F.outside.state target.new).held (names_of contents.now)) }
    ensures kept { IsTrue (S.outside.tells proto.old) → AreThere (S.outside.state proto.old).held contents.now → IsLost result → ⊥ }
    ensures reads_proto { Reads S.outside proto.old proto.new (result ≡ Err (Bad fault.SourceFault)) }
    ensures cause { HasCause (F.outside.faults target.old) (F.outside.faults target.new) (result ≡ Err (Bad fault.FolderFault)) }
    ensures same_kind { F.outside.tells target.new ≡ F.outside.tells target.old }
    ensures changes { F.outside.changes target.old ≤ F.outside.changes target.new }
{
    match lay(alloc, publisher, contents, proto, target) {
        Ok(()) => {}
        Err(why) => return Err(unlaid(alloc, contents, why)),
    }
    match target.sync() {
        Ok(()) => Ok(()),
        Err(Failed) => Err(Or::Bad(BesideFault::FolderFault)),
    }
}

// Why contents aren't laid.
fn unlaid(alloc: Global, contents: &[Content], why: Or<LayFault>) -> Or<BesideFault>
    requires { IsCountedFault (length contents.now) why }
    ensures { SaysUnlaid why result }
{
    match why {
        Or::Bad(LayFault::Missing { at }) => lost(alloc, &contents[at as usize]),
        Or::Bad(LayFault::SourceFault) => Or::Bad(BesideFault::SourceFault),
        Or::Bad(LayFault::FolderFault) => { Or::Bad(BesideFault::FolderFault) }
        Or::OutOfMemory => Or::OutOfMemory,
    }
}

// The content is lost.
fn lost(alloc: Global, content: &Content) -> Or<BesideFault>
    ensures { SaysLost result }
{
    let Ok(text) = str::from_utf8(content.path.bytes()) else {
        unreachable!()
    };
    match Text::new(alloc, text) {
        Ok(text) => Or::Bad(BesideFault::Lost { text }),
        Err(AllocError) => Or::OutOfMemory,
    }
}
