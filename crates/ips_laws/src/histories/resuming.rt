//! Laws of what a fix lays, each the contract of a function that does nothing.

ghost use Rattle.std.specs.Prelude.{ℕ, true, IsTrue};
ghost use Rattle.ips_report.specs.declared.outcome.Outcome.{Outcome};
ghost use Rattle.ips_report.specs.declared.outcome.Outcome.TheVariants as outcome;
ghost use Rattle.ips_tell.specs.told.Told.{claims_unfinished, manner_of};
ghost use Rattle.ips_words.specs.declared.command.Command.{Command};
ghost use Rattle.ips_tell.specs.performing.Performed.{At};
ghost use Rattle.ips_trial.specs.Counted.{TakeAll};
ghost use Rattle.ips_laws.specs.histories.Resumed.{IsLeftToFix, LaysWhatIsLeft};
ghost use Rattle.ips_top.specs.Runs.{Does, goes_by_image};

use ips_folder::Folder;
use ips_outside::{Source, Spawner};

/// A command that recovers forward lays just the steps that the marks leave: the tallies of the kinds rise by the steps of the journal, less a thousand for each mark.
pub fn fixes_lay_what_is_left<S: Source, F: Folder, P: Spawner>()
    ensures { (c : Command) (moment : ℕ) (old new : At F S P) → Does F.outside S.outside P.running c moment old new (outcome.Recovered true) → IsTrue (F.outside.tells old.folder) → TakeAll old.counted
        → LaysWhatIsLeft (F.outside.state old.folder).held old.counted new.counted }
{}

/// Where a command leaves something unfinished, a fix lays no more than a thousand of its steps again.
pub fn fixes_lay_few_again<S: Source, F: Folder, P: Spawner>()
    ensures { (c : Command) (moment : ℕ) (old new : At F S P) (told : Outcome) → Does F.outside S.outside P.running c moment old new told → IsTrue (goes_by_image c.what) → IsTrue (claims_unfinished (manner_of told))
        → IsTrue (F.outside.tells old.folder) → TakeAll old.counted → IsLeftToFix F.outside old.counted new.counted old.folder new.folder }
{}
