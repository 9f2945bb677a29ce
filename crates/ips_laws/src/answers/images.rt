//! Laws of what is seen behind a command, each the contract of a function that does nothing.

ghost use Rattle.std.specs.Prelude.{◌≡◌, ℕ, IsTrue};
ghost use Rattle.ips_outside.specs.Image.{Image};
ghost use Rattle.ips_steps.specs.Private.{visible};
ghost use Rattle.ips_report.specs.declared.outcome.Outcome.{Outcome};
ghost use Rattle.ips_tell.specs.told.Told.{claims_done, manner_of};
ghost use Rattle.ips_words.specs.declared.command.Command.{Command};
ghost use Rattle.ips_operations.specs.changing.Leads.{Leads};
ghost use Rattle.ips_operations.specs.creating.Creations.{Creation};
ghost use Rattle.ips_operations.specs.creating.Decides.{MakesImage};
ghost use Rattle.ips_operations.specs.fixing.Fixes.{Repairing};
ghost use Rattle.ips_operations.specs.fixing.Decides.{RepairsImage};
ghost use Rattle.ips_tell.specs.performing.Performed.{At};
ghost use Rattle.ips_top.specs.Runs.{Does};

use crate::plan_laws::{image_after_is_one, repaired_image_is_one};
use ips_account_files::due_files_are_proper;
use ips_folder::Folder;
use ips_outside::{Source, Spawner};

/// What is seen behind a changing command is one: the command, the moment, the repository and what was seen leave no choice, whatever stood at the updater's own names.
pub fn image_led_to_is_one()
    ensures { (c : Command) (moment : ℕ) (repository before a b : Image) → Leads c moment repository before a → Leads c moment repository before b → a ≡ b }
{
    due_files_are_proper();
    image_after_is_one();
}

/// So is what is seen behind a repair.
pub fn mended_image_is_one()
    ensures { (a : Repairing) (repository before u v : Image) → RepairsImage a repository before u → RepairsImage a repository before v → u ≡ v }
{
    repaired_image_is_one();
}

/// And what is seen behind the making of an image.
pub fn made_image_is_one()
    ensures { (a : Creation) (before u v : Image) → MakesImage a before u → MakesImage a before v → u ≡ v }
{}

/// Two runs of one command at one moment that tell a change as done leave images that are seen the same, where those before are and the repositories hold the same.
pub fn image_left_is_one<S: Source, F: Folder, P: Spawner>()
    ensures { (c : Command) (moment : ℕ) (old new other next : At F S P) (told said : Outcome) → Does F.outside S.outside P.running c moment old new told → Does F.outside S.outside P.running c moment other next said
        → IsTrue (F.outside.tells old.folder) → IsTrue (S.outside.tells old.source) → IsTrue (F.outside.tells other.folder) → IsTrue (S.outside.tells other.source)
        → visible (F.outside.state old.folder).held ≡ visible (F.outside.state other.folder).held → (S.outside.state old.source).held ≡ (S.outside.state other.source).held
        → IsTrue (claims_done (manner_of told)) → IsTrue (claims_done (manner_of said)) → visible (F.outside.state new.folder).held ≡ visible (F.outside.state next.folder).held }
{
    image_led_to_is_one();
    mended_image_is_one();
    made_image_is_one();
}
