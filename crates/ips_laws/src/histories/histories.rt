//! Laws over histories of runs, each the contract of a function that does nothing.

ghost use Rattle.std.specs.Prelude.{ℕ, Bool, true, Some, IsTrue, IsFalse};
ghost use Rattle.ips_steps.specs.Private.{visible};
ghost use Rattle.ips_operations.specs.creating.Creations.{makes_image};
ghost use Rattle.ips_history.specs.Directories.{creates};
ghost use Rattle.ips_history.specs.History.{History, IsMeantBy, IsRestored, Last};
ghost use Rattle.ips_history.specs.Run.{IsRun};
ghost use Rattle.ips_history.specs.declared.effect.Effect.{Effect};
ghost use Rattle.ips_report.specs.declared.outcome.Outcome.{Outcome};
ghost use Rattle.ips_report.specs.declared.outcome.Outcome.TheVariants as outcome;
ghost use Rattle.ips_tell.specs.told.Told.{claimed, claims_done, manner_of};
ghost use Rattle.ips_words.specs.declared.command.Command.{Command};
ghost use Rattle.ips_laws.specs.histories.Histories.{Means, Requested};
ghost use Rattle.ips_tell.specs.performing.Performed.{At};
ghost use Rattle.ips_top.specs.Runs.{Does, goes_by_image};

use ips_folder::Folder;
use ips_outside::{Source, Spawner};

/// A command that goes by the image is a run of a history: what it does to what the folder owes, what it recovers, and what its outcome claims. It is one that makes an
/// image only where the command does.
pub fn commands_are_runs<S: Source, F: Folder, P: Spawner>()
    ensures { (c : Command) (moment : ℕ) (old new : At F S P) (told : Outcome) → Does F.outside S.outside P.running c moment old new told → IsTrue (goes_by_image c.what) → IsTrue (F.outside.tells old.folder)
        → (effect : Effect) × (IsTrue (creates effect) → IsTrue (makes_image c.what)) × IsRun F.outside (Means (record { command = c; moment = moment; tells = S.outside.tells old.source; repository = (S.outside.state old.source).held })) effect (claimed (manner_of told)) old.counted new.counted old.folder new.folder }
{}

/// However runs were stopped, and however often: where a run of a command recovers, the image that it leaves is the one before the last request or the one that this means,
/// and the latter where something stood at the gate; and where nothing is to do, or a change is done, the image on which it began was one of these.
pub fn histories_are_restored<S: Source, F: Folder, P: Spawner>()
    ensures recovered { (l : Last Requested) (c : Command) (moment : ℕ) (old new : At F S P) (forward : Bool) → History F.outside Means (Some l) (F.outside.state old.folder)
        → Does F.outside S.outside P.running c moment old new (outcome.Recovered forward) → IsTrue (F.outside.tells old.folder) → IsRestored Means l (visible (F.outside.state new.folder).held) }
    ensures forward { (l : Last Requested) (c : Command) (moment : ℕ) (old new : At F S P) → History F.outside Means (Some l) (F.outside.state old.folder)
        → Does F.outside S.outside P.running c moment old new (outcome.Recovered true) → IsTrue (F.outside.tells old.folder) → IsMeantBy Means l (visible (F.outside.state new.folder).held) }
    ensures nothing { (l : Last Requested) (c : Command) (moment : ℕ) (old new : At F S P) → History F.outside Means (Some l) (F.outside.state old.folder)
        → Does F.outside S.outside P.running c moment old new outcome.NothingToDo → IsTrue (F.outside.tells old.folder) → IsRestored Means l (visible (F.outside.state old.folder).held) }
    ensures done { (l : Last Requested) (c : Command) (moment : ℕ) (old new : At F S P) (told : Outcome) → History F.outside Means (Some l) (F.outside.state old.folder)
        → Does F.outside S.outside P.running c moment old new told → IsTrue (claims_done (manner_of told)) → IsTrue (goes_by_image c.what) → IsFalse (makes_image c.what)
        → IsTrue (F.outside.tells old.folder) → IsRestored Means l (visible (F.outside.state old.folder).held) }
{}
