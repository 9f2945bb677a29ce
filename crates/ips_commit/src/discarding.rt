//! A staged change taken away, unused.

ghost use Rattle.std.specs.Prelude.{◌≡◌, ◌⊎◌, ◌≤◌, [], Option, None, false, IsTrue, IsErr, OnOk, OnErr};
ghost use Rattle.ips_outside.specs.Image.{Image};
ghost use Rattle.ips_outside.specs.State.{IsSettled, nowhere};
ghost use Rattle.ips_outside.specs.Outside.{HasCause, Rose};
ghost use Rattle.ips_folder.specs.Calls.{ChangesOnly, Throughout};
ghost use Rattle.ips_steps.specs.Private.{gate_name, visible};
ghost use Rattle.ips_steps.specs.Owed.{FolderOwes};
ghost use Rattle.ips_journal.specs.Text.{journal_text};
ghost use Rattle.ips_commit.specs.Pending.{HasNoOtherMark, is_swept};
ghost use Rattle.ips_commit.specs.Staging.{IsCleared, NothingReady};

use crate::ready::Ready;
use crate::sweeping::sweep;
use ips_folder::Folder;
use ips_outside::{Failed, Source};

/// Takes away what `stage` left, which isn't to be committed: the journal, and then the stage. Nothing may stand at the names of
/// marks, as `stage` left it. What is seen stays as it is.
///
/// # Errors
///
/// A call on the folder failed. Something may be left behind the closed gate, where `recover` takes it away.
pub fn discard<F: Folder>(ready: Ready, folder: &mut F) -> Result<(), Failed>
    requires unmarked { IsTrue (F.outside.tells folder.old) → HasNoOtherMark (F.outside.state folder.old).held [] }

    // At every moment only what staging writes is changed. So the image that was seen is owed, whatever other may be meant.
    ensures any_moment { IsTrue (F.outside.tells folder.old) → ChangesOnly F.outside is_swept nowhere folder.old folder.new }
    ensures owed { IsTrue (F.outside.tells folder.old) → IsSettled (F.outside.state folder.old) → (F.outside.state folder.old).held.look gate_name ≡ None → (a : Option Image)
        → Throughout F.outside folder.old folder.new (FolderOwes journal_text (visible (F.outside.state folder.old).held) a false) }
    ensures seen { IsTrue (F.outside.tells folder.old) → visible (F.outside.state folder.new).held ≡ visible (F.outside.state folder.old).held }

    // Done: nothing stands where staging writes. Failed: nothing has happened, or no list stands ready and safe.
    ensures cleared { IsTrue (F.outside.tells folder.old) → OnOk result (IsCleared (F.outside.state folder.new).held) }
    ensures unready { IsTrue (F.outside.tells folder.old) → OnErr result ((F.outside.state folder.new ≡ F.outside.state folder.old) ⊎ NothingReady (F.outside.state folder.new)) }

    ensures cause { HasCause (F.outside.faults folder.old) (F.outside.faults folder.new) (IsErr result) }
    ensures same_kind { F.outside.tells folder.new ≡ F.outside.tells folder.old }
    ensures changes { F.outside.changes folder.old ≤ F.outside.changes folder.new }
    ensures changed { Rose (F.outside.changes folder.old) (F.outside.changes folder.new) }
{
    sweep(folder, &ready.names, &[])
}
