//! The law of repairs, the contract of a function that does nothing.

ghost use Rattle.std.specs.Prelude.{◌≡◌, ℕ, List, [], IsTrue};
ghost use Rattle.ips_steps.specs.Private.{visible};
ghost use Rattle.ips_meaning.specs.declared.entry.Entry.{Entry};
ghost use Rattle.ips_after.specs.Findings.{findings};
ghost use Rattle.ips_after.specs.Repaired.{HasOneMode};
ghost use Rattle.ips_change.specs.wanted.Named.{is_payload_of};
ghost use Rattle.ips_change.specs.wanted.Wanted.{want_of};
ghost use Rattle.ips_plan.specs.image_plan.Meaning.{StateMeans};
ghost use Rattle.ips_report.specs.declared.outcome.Outcome.{Outcome};
ghost use Rattle.ips_tell.specs.told.Told.{claims_done, manner_of};
ghost use Rattle.ips_words.specs.declared.command.Command.{Command};
ghost use Rattle.ips_operations.specs.fixing.Decides.{Told};
ghost use Rattle.ips_operations.specs.fixing.Fixes.{repairs};
ghost use Rattle.ips_tell.specs.performing.Performed.{At};
ghost use Rattle.ips_top.specs.Runs.{Does};

use ips_change::wanted::names_are_digests;
use ips_folder::Folder;
use ips_outside::{Source, Spawner};
use ips_request_due::repairs::{
    findings_are_of_the_visible_image, repairs_are_lawful, repairs_hang_together,
};

/// Where a repair is told as done, nothing is found any more against what the packages of the image mean, if no two wanted files of different modes shared a node.
pub fn repairs_leave_no_finding<S: Source, F: Folder, P: Spawner>()
    ensures { (c : Command) (moment : ℕ) (old new : At F S P) (told : Outcome) → Does F.outside S.outside P.running c moment old new told → IsTrue (repairs c.what) → IsTrue (claims_done (manner_of told))
        → IsTrue (F.outside.tells old.folder) → IsTrue (S.outside.tells old.source) → (known : Told (F.outside.state old.folder).held) (want : List (List ℕ × Entry)) → StateMeans known.state want
        → HasOneMode (want_of want) (visible (F.outside.state old.folder).held) → findings is_payload_of (want_of want) (visible (F.outside.state new.folder).held) ≡ [] }
{
    names_are_digests();
    repairs_hang_together();
    repairs_are_lawful();
    findings_are_of_the_visible_image();
}
