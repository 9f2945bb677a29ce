//! Laws of histories, each the contract of a function that does nothing.

ghost use Rattle.std.specs.Prelude.{◌≡◌, ◌≢◌, Bool, true, List, Option, Some, None, IsTrue, IsFalse};
ghost use Rattle.ips_outside.specs.Image.{Image};
ghost use Rattle.ips_outside.specs.State.{State};
ghost use Rattle.ips_steps.specs.Private.{gate_name, visible};
ghost use Rattle.ips_steps.specs.Owed.{FolderOwes};
ghost use Rattle.ips_kinds.specs.Tallies.{Carrier};
ghost use Rattle.ips_journal.specs.Text.{journal_text};
ghost use Rattle.ips_history.specs.Due.{HasEnded};
ghost use Rattle.ips_history.specs.Directories.{creates, image_for};
ghost use Rattle.ips_history.specs.Transition.{StillOwes, IsRequestRun, Transition};
ghost use Rattle.ips_history.specs.Run.{Claim, IsRun};
ghost use Rattle.ips_history.specs.declared.effect.Effect.{Effect};
ghost use Rattle.ips_history.specs.History.{Last, LeftAt, History, IsMeantBy, IsRestored};

use ips_folder::Folder;
use ips_outside::Source;

/// What requests mean: which image may follow which.
pub trait Requests {
    ghost means: { Self → Image → Image → Type 0 };
}

/// However runs are stopped, and however often, the folder owes, and a recovery leaves, the image before the last request or the
/// one that this means. In between, part of a change may be seen.
pub fn restored<F: Folder, R: Requests>()
    ensures owed { (l : Last R) (s : State) → History F.outside R.means (Some l) s → FolderOwes journal_text l.before l.after l.due s }

    // A request begins on the image before the last request or on the one that it means.
    ensures begins { (l : Last R) (r : R) (is_done : Bool) (old at new : F) → History F.outside R.means (Some l) (F.outside.state old)
        → StillOwes F.outside old at → IsRequestRun F.outside (R.means r) is_done at new → IsRestored R.means l (visible (F.outside.state at).held) }

    // A run that keeps what is owed, and leaves nothing at the gate, leaves one of these.
    ensures recovers { (l : Last R) (old new : F) → History F.outside R.means (Some l) (F.outside.state old)
        → StillOwes F.outside old new → (F.outside.state new).held.look gate_name ≡ None → IsRestored R.means l (visible (F.outside.state new).held) }

    // One that goes forward from an open gate leaves the image that the last request means.
    ensures forward { (l : Last R) (old new : F) → History F.outside R.means (Some l) (F.outside.state old)
        → (F.outside.state old).held.look gate_name ≢ None
        → ((b a : Image) (due : Bool) → FolderOwes journal_text b (Some a) due (F.outside.state old) → HasEnded (Some a) (F.outside.state new))
        → IsMeantBy R.means l (visible (F.outside.state new).held) }
{}

/// A run that is done leaves what its command means of the image that was seen as it began, for a command that makes an image
/// with the directories of its records.
pub fn done_is_meant<F: Folder, R: Requests>()
    ensures { (r : R) (effect : Effect) (is_done : Bool) (old new : F) → Transition F.outside (R.means r) effect is_done old new
        → IsTrue is_done → R.means r (visible (image_for effect (F.outside.state old).held)) (visible (F.outside.state new).held) }
{}

/// A run behind a history. Where it is done, or says that nothing is to do, the image on which it began was restored; where it
/// recovers, the image that it leaves is; and where it recovers forward, that is the one that the last request means.
pub fn run_restores<F: Folder, R: Requests>()
    ensures done { (l : Last R) (r : R) (effect : Effect) (claim : Claim) (before now : List Carrier) (old new : F) → History F.outside R.means (Some l) (F.outside.state old)
        → IsRun F.outside (R.means r) effect claim before now old new → IsTrue claim.done → IsFalse (creates effect) → IsRestored R.means l (visible (F.outside.state old).held) }
    ensures nothing { (l : Last R) (r : R) (effect : Effect) (claim : Claim) (before now : List Carrier) (old new : F) → History F.outside R.means (Some l) (F.outside.state old)
        → IsRun F.outside (R.means r) effect claim before now old new → IsTrue claim.nothing → IsRestored R.means l (visible (F.outside.state old).held) }
    ensures recovered { (l : Last R) (r : R) (effect : Effect) (claim : Claim) (before now : List Carrier) (old new : F) → History F.outside R.means (Some l) (F.outside.state old)
        → IsRun F.outside (R.means r) effect claim before now old new → (forward : Bool) → claim.recovered ≡ Some forward → IsRestored R.means l (visible (F.outside.state new).held) }
    ensures forward { (l : Last R) (r : R) (effect : Effect) (claim : Claim) (before now : List Carrier) (old new : F) → History F.outside R.means (Some l) (F.outside.state old)
        → IsRun F.outside (R.means r) effect claim before now old new → claim.recovered ≡ Some true → IsMeantBy R.means l (visible (F.outside.state new).held) }
{}

/// Each moment of a run is one at which a history may be left.
pub fn each_moment_is_left<F: Folder, R: Requests>()
    ensures { (r : R) (effect : Effect) (is_done : Bool) (old new : F) (t : Transition F.outside (R.means r) effect is_done old new) (w : Option (Last R)) (s : State)
        → F.outside.states new (F.outside.clock old) s → (now : Option (Last R)) × LeftAt F.outside (R.means r) effect is_done r old new t w s now }
{}
