//! A journal written step by step, through a buffer.

ghost use Rattle.std.specs.Prelude.{◌≡◌, ◌∷◌, ◌++◌, ◌+◌, ◌<◌, ◌≤◌, ◌^◌, [], ℕ, List, Some, IsTrue, IsErr, IfOk, OnOk, length, vec_len, vec_capacity};
ghost use Rattle.ips_text.specs.Ancestry.{covers};
ghost use Rattle.ips_outside.specs.Image.{Image, file_bytes};
ghost use Rattle.ips_outside.specs.State.{nowhere};
ghost use Rattle.ips_outside.specs.Outside.{HasCause};
ghost use Rattle.ips_folder.specs.Calls.{IsSole, ChangesOnly};
ghost use Rattle.ips_steps.specs.Steps.{Step as StepMeant};
ghost use Rattle.ips_steps.specs.Private.{journal_name};
ghost use Rattle.ips_steps.specs.View.{step_of};
ghost use Rattle.ips_journal.specs.Text.{journal_text};
ghost use Rattle.ips_journal.specs.Writing.{IsWritten, KeepsTouched};

use crate::writer::JournalWriter;
use crate::writing::{LINE_BYTES, put_end, put_line};
use ips_folder::Folder;
use ips_outside::Failed;
use ips_steps::Step;
use ips_text::RelPath;
use std::alloc::{AllocError, Global};

// As many bytes as are gathered before they are put into the file.
const GATHERED_BYTES: usize = 65_536;

impl JournalWriter {
    /// A writer for an empty file at the journal's place, which has no other name.
    #[tactic(auto, unfolding(ips_steps::specs::Private::journal_name))]
    pub fn new(alloc: Global) -> Result<JournalWriter, AllocError>
        ensures start { IfOk result (λ w. (t : Image) → IsSole t journal_name → file_bytes (t.look journal_name) ≡ Some [] → IsWritten w t []) }
    {
        let Ok(journal) = RelPath::parse(alloc, b"var/pkg/journal") else {
            return Err(AllocError);
        };
        let mut gathered = Vec::with_capacity(alloc, GATHERED_BYTES)?;
        gathered.extend_from_slice(b"journal 1\n")?;
        Ok(JournalWriter {
            journal,
            gathered,
            steps: 0,
        })
    }

    /// Writes the line of a step. After a failure what stands at the journal's place is open.
    pub fn step<F: Folder>(&mut self, folder: &mut F, step: &Step) -> Result<(), Failed>
        requires { IsTrue (F.outside.tells folder.old) → IsSole (F.outside.state folder.old).held journal_name }
        ensures written { IsTrue (F.outside.tells folder.old) → (steps : List StepMeant) → IsWritten self.old (F.outside.state folder.old).held steps
            → OnOk result (IsWritten self.new (F.outside.state folder.new).held (steps ++ step_of step.now ∷ [])) }
        ensures any_moment { IsTrue (F.outside.tells folder.old) → ChangesOnly F.outside (covers journal_name) nowhere folder.old folder.new }
        ensures touched { IsTrue (F.outside.tells folder.old) → KeepsTouched (F.outside.state folder.old) (F.outside.state folder.new) }
        ensures cause { HasCause (F.outside.faults folder.old) (F.outside.faults folder.new) (IsErr result) }
        ensures same_kind { F.outside.tells folder.new ≡ F.outside.tells folder.old }
        ensures changes { F.outside.changes folder.old ≤ F.outside.changes folder.new }
    {
        self.make_room(folder)?;
        put_line(&mut self.gathered, step);
        self.steps = self.steps.saturating_add(1);
        Ok(())
    }

    /// Writes the last line, and appends what is gathered: the file is then the text of the journal.
    pub fn finish<F: Folder>(&mut self, folder: &mut F) -> Result<(), Failed>
        requires { IsTrue (F.outside.tells folder.old) → IsSole (F.outside.state folder.old).held journal_name }
        ensures written { IsTrue (F.outside.tells folder.old) → (steps : List StepMeant) → IsWritten self.old (F.outside.state folder.old).held steps → length steps < 2 ^ 64
            → OnOk result (file_bytes ((F.outside.state folder.new).held.look journal_name) ≡ Some (journal_text steps)) }
        ensures any_moment { IsTrue (F.outside.tells folder.old) → ChangesOnly F.outside (covers journal_name) nowhere folder.old folder.new }
        ensures touched { IsTrue (F.outside.tells folder.old) → KeepsTouched (F.outside.state folder.old) (F.outside.state folder.new) }
        ensures cause { HasCause (F.outside.faults folder.old) (F.outside.faults folder.new) (IsErr result) }
        ensures same_kind { F.outside.tells folder.new ≡ F.outside.tells folder.old }
        ensures changes { F.outside.changes folder.old ≤ F.outside.changes folder.new }
    {
        self.make_room(folder)?;
        put_end(&mut self.gathered, self.steps);
        folder.append(&self.journal, &self.gathered)?;
        Ok(())
    }

    // Sees that another line fits what is gathered.
    fn make_room<F: Folder>(&mut self, folder: &mut F) -> Result<(), Failed>
        requires { IsTrue (F.outside.tells folder.old) → IsSole (F.outside.state folder.old).held journal_name }
        ensures room { OnOk result (vec_len self.new.gathered + 16384 ≤ 65536) }
        ensures written { IsTrue (F.outside.tells folder.old) → (steps : List StepMeant) → IsWritten self.old (F.outside.state folder.old).held steps
            → OnOk result (IsWritten self.new (F.outside.state folder.new).held steps) }
        ensures sole { IsTrue (F.outside.tells folder.old) → OnOk result (IsSole (F.outside.state folder.new).held journal_name) }
        ensures any_moment { IsTrue (F.outside.tells folder.old) → ChangesOnly F.outside (covers journal_name) nowhere folder.old folder.new }
        ensures touched { IsTrue (F.outside.tells folder.old) → KeepsTouched (F.outside.state folder.old) (F.outside.state folder.new) }
        ensures cause { HasCause (F.outside.faults folder.old) (F.outside.faults folder.new) (IsErr result) }
        ensures same_kind { F.outside.tells folder.new ≡ F.outside.tells folder.old }
        ensures changes { F.outside.changes folder.old ≤ F.outside.changes folder.new }
    {
        if self.gathered.len() + LINE_BYTES <= GATHERED_BYTES {
            return Ok(());
        }
        folder.append(&self.journal, &self.gathered)?;
        self.gathered.clear();
        Ok(())
    }
}
