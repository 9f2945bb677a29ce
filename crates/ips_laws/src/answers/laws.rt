//! Laws of answers, each the contract of a function that does nothing.

ghost use Rattle.std.specs.Prelude.{ℕ, IsTrue};
ghost use Rattle.ips_tell.specs.told.Told.{claims_done, manner_of};
ghost use Rattle.ips_report.specs.declared.outcome.Outcome.{Outcome};
ghost use Rattle.ips_words.specs.declared.command.Command.{Command};
ghost use Rattle.ips_tell.specs.performing.Performed.{At};
ghost use Rattle.ips_top.specs.Runs.{Does};
ghost use Rattle.ips_laws.specs.answers.Causes.{CauseStands, IsHindered};
ghost use Rattle.ips_laws.specs.answers.Same.{IsFixed, SayTheSame};

use crate::next_laws::{causes_are_one, next_excludes_causes};
use crate::plan_laws::{
    creation_excludes_causes, creation_steps_are_one, plan_excludes_causes, plans_are_one,
    repair_excludes_causes, repair_steps_are_one, uncreated_is_one, unmeant_is_one,
    unplanned_is_one, unrepaired_is_one, want_is_one, want_or_fault,
};
use ips_folder::Folder;
use ips_outside::{Source, Spawner};

/// Each run tells an outcome whose cause stands; and where the cause of an outcome stands, a run says nothing else.
pub fn cause_is_answered<S: Source, F: Folder, P: Spawner>()
    ensures caused { (c : Command) (moment : ℕ) (old new : At F S P) (told : Outcome) → Does F.outside S.outside P.running c moment old new told → IsTrue (F.outside.tells old.folder) → IsTrue (S.outside.tells old.source)
        → CauseStands c moment (S.outside.state old.source).held (F.outside.state old.folder).held told }
    ensures answered { (c : Command) (moment : ℕ) (old new : At F S P) (outcome told : Outcome) → CauseStands c moment (S.outside.state old.source).held (F.outside.state old.folder).held outcome → Does F.outside S.outside P.running c moment old new told
        → IsTrue (F.outside.tells old.folder) → IsTrue (S.outside.tells old.source) → IsFixed outcome → IsFixed told → SayTheSame outcome told }
{
    causes_are_one();
    next_excludes_causes();
    plans_are_one();
    unplanned_is_one();
    plan_excludes_causes();
    want_is_one();
    unmeant_is_one();
    want_or_fault();
    repair_steps_are_one();
    unrepaired_is_one();
    repair_excludes_causes();
    creation_steps_are_one();
    uncreated_is_one();
    creation_excludes_causes();
}

/// Two runs of one command from one moment on say the same: they end the program with one number and print one report, the refutation of 'no solution' aside.
pub fn answer_is_one<S: Source, F: Folder, P: Spawner>()
    ensures { (c : Command) (moment : ℕ) (old a b : At F S P) (told other : Outcome) → Does F.outside S.outside P.running c moment old a told → Does F.outside S.outside P.running c moment old b other
        → IsTrue (F.outside.tells old.folder) → IsTrue (S.outside.tells old.source) → IsFixed told → IsFixed other → SayTheSame told other }
{
    cause_is_answered::<S, F, P>();
}

/// The law of completeness: where nothing hinders a command, and no call, program, memory or search failed, it is told as done.
pub fn unhindered_is_done<S: Source, F: Folder, P: Spawner>()
    ensures { (c : Command) (moment : ℕ) (old new : At F S P) (told : Outcome) → Does F.outside S.outside P.running c moment old new told → IsTrue (F.outside.tells old.folder) → IsTrue (S.outside.tells old.source)
        → (IsHindered c moment (S.outside.state old.source).held (F.outside.state old.folder).held → ⊥) → IsFixed told → IsTrue (claims_done (manner_of told)) }
{
    cause_is_answered::<S, F, P>();
}
