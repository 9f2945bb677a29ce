//! What is to be done to an image.

ghost use Rattle.std.specs.Prelude.{◌≡◌, ◌≢◌, Bool, IsTrue, None, Err, IfOk};
ghost use Rattle.ips_text.specs.declared.refusal.Or.TheVariants.{Bad};
ghost use Rattle.ips_outside.specs.Image.{Image, is_dir};
ghost use Rattle.ips_outside.specs.Outside.{Reads};
ghost use Rattle.ips_steps.specs.Private.{records_name, gate_name};
ghost use Rattle.ips_history.specs.Directories.{shows, creates};
ghost use Rattle.ips_history.specs.declared.effect.Effect.{Effect};
ghost use Rattle.ips_run.specs.declared.operation.Decision.{Decision};
ghost use Rattle.ips_run.specs.Planned.{IfChange, CanBeListed, IsPlanned, IsOfEffect};
ghost use Rattle.ips_run.specs.declared.operation.DecideFault.TheVariants as fault;

use ips_actuate::Words;
use ips_folder::Folder;
use ips_history::Effect;
use ips_journal::Staged;
use ips_outside::Source;
use ips_steps::Step;
use ips_text::{Or, Text};
use std::alloc::Global;

/// A change of the image that was decided on.
#[derive(Drop)]
pub struct Change<T> {
    /// Whose payloads are put.
    pub publisher: Text,
    /// The steps, as the journal lists them.
    pub steps: Vec<Step>,
    /// What they put, in order.
    pub staged: Vec<Staged>,
    /// The actuators that are run before the commit.
    pub before: Vec<Words>,
    /// Those that are run after it.
    pub after: Vec<Words>,
    /// What is told where the change is done.
    pub told: T,
}

/// What an operation decides.
#[derive(Drop)]
pub enum Decision<T> {
    /// The image is to be changed.
    Change(Change<T>),
    /// There is nothing to change.
    Nothing,
    /// This is to be shown.
    Shown(T),
    /// The operation refuses.
    Refused(T),
}

/// Why nothing is decided.
#[derive(Clone, Copy, Drop)]
pub enum DecideFault {
    /// A call on the image failed.
    FolderFault,
    /// A call on the repository failed.
    SourceFault,
}

/// What is to be done to an image, as a command asks for it.
pub trait Operation<T> {
    /// What it does to an image.
    ghost effect: { Self → Effect };

    /// What it decides, with a repository that tells what it holds or doesn't, and holds this, on this image.
    ghost decides: { Self → Bool → Image → Image → Decision T → Type 0 };

    /// What it means: with such a repository that image is followed by this.
    ghost means: { Self → Bool → Image → Image → Image → Type 0 };

    /// What its decisions are like, whatever folder and repository tell.
    ghost says: { Self → Decision T → Type 0 };

    fn effect(&self) -> Effect
        ensures { result ≡ effect self.now };

    /// Decides on a change, or on what is to be shown. Nothing is written. The gate has to be closed, and for one that makes an image
    /// the folder of its records has to stand.
    fn decide<S: Source, F: Folder>(
        &self,
        alloc: Global,
        source: &mut S,
        folder: &mut F,
    ) -> Result<Decision<T>, Or<DecideFault>>
        requires shut { IsTrue (F.outside.tells folder.old) → (F.outside.state folder.old).held.look gate_name ≡ None }
        requires records { IsTrue (F.outside.tells folder.old) → IsTrue (creates (effect self.now)) → IsTrue (is_dir ((F.outside.state folder.old).held.look records_name)) }
        ensures decided { IsTrue (F.outside.tells folder.old)
            → IfOk result (decides self.now (S.outside.tells source.old) (S.outside.state source.old).held (F.outside.state folder.old).held) }
        ensures of_effect { IfOk result (IsOfEffect (effect self.now)) }
        ensures says { IfOk result (says self.now) }
        ensures lists { IfOk result (IfChange CanBeListed) }
        ensures planned { IsTrue (F.outside.tells folder.old)
            → IfOk result (IfChange (IsPlanned (means self.now) (S.outside.tells source.old) (S.outside.state source.old).held (F.outside.state folder.old).held)) }
        ensures source_unasked { IsTrue (shows (effect self.now)) → result ≢ Err (Bad fault.SourceFault) }
        ensures reads { Reads F.outside folder.old folder.new (result ≡ Err (Bad fault.FolderFault)) }
        ensures source { Reads S.outside source.old source.new (result ≡ Err (Bad fault.SourceFault)) };
}
