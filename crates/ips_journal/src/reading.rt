//! Reading on in a journal, line by line.

ghost use Rattle.std.specs.Prelude.{◌≡◌, ◌+◌, ◌<◌, ◌≤◌, ◌^◌, ◌∷◌, [], ℕ, List, true, false, IsTrue, IsFalse, None, IfOk, IfErr, IfSome, IfNone, OnOk, OnErr, Err, is_some, length as list_length, take, drop};
ghost use Rattle.ips_outside.specs.Outside.{Reads};
ghost use Rattle.ips_steps.specs.Steps.{Step};
ghost use Rattle.ips_journal.specs.Text.{head_line, end_line};
ghost use Rattle.ips_journal.specs.Reading.{Stands, IsJournalFault, TellsLine, text_from, journal_of, puts_in};
ghost use Rattle.ips_journal.specs.Holding.{HaveRoom, IsBehindHead, IsFresh, IsHeaded, IsMoved, IsNextFault, IsSafe, IsStepLine, IsStill, ReadMeans, SameCounts, TellsMore, clipped, seen, step_by};
ghost use Rattle.ips_journal.specs.declared.parts.Parts.{Parts as PartsMeant};
ghost use Rattle.ips_journal.specs.declared.fault.StepFault.TheVariants as fault;

use crate::ahead::Ahead;
use crate::cursor::Cursor;
use crate::fault::StepFault;
use crate::lines::size_of;
use crate::parts::Parts;
use crate::words::{behind_word, sort_of_line};
use ips_folder::Folder;
use ips_steps::Sort;
use ips_text::{RelPath, decimal};
use std::alloc::{AllocError, Global};

/// As many bytes as the longest field says.
const FIELD_BYTES: usize = 4_095;

impl Cursor {
    /// A cursor at the front.
    #[tactic(auto, unfolding(ips_steps::specs::Private::journal_name))]
    pub fn new(alloc: Global) -> Result<Cursor, AllocError>
        ensures { IfOk result IsFresh }
    {
        let Ok(journal) = RelPath::parse(alloc, b"var/pkg/journal") else {
            return Err(AllocError);
        };
        let ahead = Ahead::new(alloc)?;
        let decoded = vec![in alloc; 0u8; FIELD_BYTES]?;
        Ok(Cursor {
            journal,
            ahead,
            decoded,
            place: 0,
            steps: 0,
            puts: 0,
            line: 0,
            is_open: true,
        })
    }

    /// Goes back to the front.
    pub fn rewind(&mut self)
        ensures { IsFresh self.new }
    {
        self.ahead.clear();
        self.place = 0;
        self.steps = 0;
        self.puts = 0;
        self.line = 0;
        self.is_open = true;
    }

    /// Reads the next step into the parts and answers its sort, or None at the end.
    pub fn read<F: Folder>(
        &mut self,
        parts: &mut Parts,
        folder: &mut F,
    ) -> Result<Option<Sort>, StepFault>
        requires { HaveRoom parts.old }
        ensures room { HaveRoom parts.new }
        ensures means { IsTrue (F.outside.tells folder.old) → (front : List Step) → Stands (text_from front) (journal_of (F.outside.state folder.old).held) front (seen self.old None)
            → ReadMeans (journal_of (F.outside.state folder.old).held) front self.new parts.new result }
        ensures safe { IfOk result (λ found. IfSome found (λ sort. IsSafe (step_by sort parts.new))) }
        ensures open { IfOk result (λ found. self.new.is_open ≡ is_some found) }
        ensures closed { OnErr result (self.new.is_open ≡ false) }
        ensures line { IfErr result (TellsLine self.new.line) }
        ensures reads { Reads F.outside folder.old folder.new (result ≡ Err fault.FolderFault) }
    {
        self.is_open = false;
        self.go_behind_head(folder)?;
        let found = self.read_entry(parts, folder)?;
        Ok(found)
    }

    // Goes behind the first line, where it isn't there yet.
    fn go_behind_head<F: Folder>(&mut self, folder: &mut F) -> Result<(), StepFault>
        ensures behind { IsTrue (F.outside.tells folder.old) → (front : List Step) → Stands (text_from front) (journal_of (F.outside.state folder.old).held) front (seen self.old None)
            → OnOk result (IsBehindHead (journal_of (F.outside.state folder.old).held) front self.new) }
        ensures bad { IsTrue (F.outside.tells folder.old) → (front : List Step) → Stands (text_from front) (journal_of (F.outside.state folder.old).held) front (seen self.old None)
            → IfErr result (IsNextFault (journal_of (F.outside.state folder.old).held) front) }
        ensures as_open { self.new.is_open ≡ self.old.is_open }
        ensures line { IfErr result (TellsLine self.new.line) }
        ensures reads { Reads F.outside folder.old folder.new (result ≡ Err fault.FolderFault) }
    {
        if self.steps > 0 {
            return Ok(());
        }
        self.read_head(folder)
    }

    // Reads the first line. A look tells before that the file has fewer than 2^64 bytes.
    fn read_head<F: Folder>(&mut self, folder: &mut F) -> Result<(), StepFault>
        ensures head { IsTrue (F.outside.tells folder.old) → OnOk result (IsHeaded (journal_of (F.outside.state folder.old).held) self.new.place self.new.ahead) }
        ensures bad { IsTrue (F.outside.tells folder.old) → IfErr result (IsJournalFault (journal_of (F.outside.state folder.old).held)) }
        ensures first { IfErr result (TellsLine 1) }
        ensures counts { SameCounts self.old self.new }
        ensures line { IfErr result (TellsLine self.new.line) }
        ensures reads { Reads F.outside folder.old folder.new (result ≡ Err fault.FolderFault) }
    {
        self.line = 1;
        let _size = size_of(folder, &self.journal)?;
        self.ahead.clear();
        let found = self.ahead.find_line(folder, &self.journal, 0)?;
        let Some(length) = found else {
            return Err(StepFault::BadJournal { line: 1 });
        };
        if !is_head(&self.ahead.bytes()[..length]) {
            return Err(StepFault::BadJournal { line: 1 });
        }
        self.ahead.skip(length + 1);
        self.place = 10;
        Ok(())
    }

    // Reads a line behind the first.
    fn read_entry<F: Folder>(
        &mut self,
        parts: &mut Parts,
        folder: &mut F,
    ) -> Result<Option<Sort>, StepFault>
        requires room { HaveRoom parts.old }
        requires closed { self.old.is_open ≡ false }
        ensures room { HaveRoom parts.new }
        ensures means { IsTrue (F.outside.tells folder.old) → (front : List Step) → IsBehindHead (journal_of (F.outside.state folder.old).held) front self.old
            → ReadMeans (journal_of (F.outside.state folder.old).held) front self.new parts.new result }
        ensures safe { IfOk result (λ found. IfSome found (λ sort. IsSafe (step_by sort parts.new))) }
        ensures open { IfOk result (λ found. self.new.is_open ≡ is_some found) }
        ensures closed { OnErr result (self.new.is_open ≡ false) }
        ensures line { IfErr result (TellsLine self.new.line) }
        ensures reads { Reads F.outside folder.old folder.new (result ≡ Err fault.FolderFault) }
    {
        self.line = self.steps.saturating_add(2);
        let found = self.ahead.find_line(folder, &self.journal, self.place)?;
        let Some(length) = found else {
            return Err(StepFault::BadJournal { line: self.line });
        };
        if let Some(sort) = self.take_step(parts, length) {
            return Ok(Some(sort));
        }
        if !self.is_at_end(length) {
            return Err(StepFault::BadJournal { line: self.line });
        }
        self.check_end(length, folder)?;
        Ok(None)
    }

    // Takes the step of the line that comes first ahead, and goes behind that.
    fn take_step(&mut self, parts: &mut Parts, length: usize) -> Option<Sort>
        requires room { HaveRoom parts.old }
        requires length { length < list_length self.old.ahead }
        ensures room { HaveRoom parts.new }
        ensures taken { IfSome result (λ sort. IsStepLine (take length self.old.ahead) self.old.puts (step_by sort parts.new)) }
        ensures moved { IfSome result (λ sort. IsMoved (step_by sort parts.new) length self.old self.new) }
        ensures none { IfNone result ((s : Step) → IsStepLine (take length self.old.ahead) self.old.puts s → ⊥) }
        ensures still { IfNone result (IsStill self.old self.new) }
    {
        let sort = read_step(
            parts,
            self.decoded.as_mut_slice(),
            &self.ahead.bytes()[..length],
            self.puts,
        )?;
        self.ahead.skip(length + 1);
        self.puts = self.puts.saturating_add(puts_of(sort));
        self.place = self.place.saturating_add(length as u64 + 1);
        self.steps = self.steps.saturating_add(1);
        self.is_open = true;
        Some(sort)
    }

    // Whether the line that comes first ahead is the last of a journal of just the steps that were read.
    fn is_at_end(&self, length: usize) -> bool
        requires { length < list_length self.now.ahead }
        ensures found { IsTrue result → take length self.now.ahead ≡ end_line self.now.steps }
        ensures none { IsFalse result → take length self.now.ahead ≡ end_line self.now.steps → ⊥ }
    {
        tells_end(&self.ahead.bytes()[..length], self.steps)
    }

    // Sees that nothing stands behind the last line, which has this length.
    fn check_end<F: Folder>(&mut self, length: usize, folder: &mut F) -> Result<(), StepFault>
        ensures end { IsTrue (F.outside.tells folder.old) → self.old.place + (length + 1) < 2 ^ 64
            → OnOk result (list_length (journal_of (F.outside.state folder.old).held) ≤ self.old.place + (length + 1)) }
        ensures more { IsTrue (F.outside.tells folder.old) → self.old.place + (length + 1) < 2 ^ 64
            → IfErr result (TellsMore (clipped self.old.line 1) (self.old.place + (length + 1)) (journal_of (F.outside.state folder.old).held)) }
        ensures as_open { self.new.is_open ≡ self.old.is_open }
        ensures line { IfErr result (TellsLine self.new.line) }
        ensures reads { Reads F.outside folder.old folder.new (result ≡ Err fault.FolderFault) }
    {
        let end = self.place.saturating_add(length as u64).saturating_add(1);
        let mut more = [0u8; 1];
        let count = folder.read(&self.journal, end, &mut more)?;
        if count > 0 {
            self.line = self.line.saturating_add(1);
            return Err(StepFault::BadJournal { line: self.line });
        }
        Ok(())
    }
}

// Whether this is the first line of a journal.
fn is_head(line: &[u8]) -> bool
    ensures found { IsTrue result → line.now ≡ head_line }
    ensures none { IsFalse result → line.now ≡ head_line → ⊥ }
{
    line == b"journal 1".as_slice()
}

// Whether this is the last line of a journal of so many steps.
fn tells_end(line: &[u8], steps: u64) -> bool
    ensures found { IsTrue result → line.now ≡ end_line steps }
    ensures none { IsFalse result → line.now ≡ end_line steps → ⊥ }
{
    let Some(digits) = behind_word(b"end ", line) else {
        return false;
    };
    match decimal(digits) {
        Some(count) => count == steps,
        None => false,
    }
}

// How many contents a step of this sort puts.
fn puts_of(sort: Sort) -> u64
    ensures { (parts : PartsMeant) → result ≡ puts_in (step_by sort parts ∷ []) }
{
    match sort {
        Sort::Put => 1,
        Sort::Gone | Sort::Fresh | Sort::Mode | Sort::Link | Sort::Hard => 0,
    }
}

// Reads a step from its line into the parts, where it may stand behind so many contents.
fn read_step(parts: &mut Parts, decoded: &mut [u8], line: &[u8], puts: u64) -> Option<Sort>
    requires room { HaveRoom parts.old }
    requires decoded { 4095 ≤ list_length decoded.old }
    ensures room { HaveRoom parts.new }
    ensures taken { IfSome result (λ sort. IsStepLine line.now puts (step_by sort parts.new)) }
    ensures none { IfNone result ((s : Step) → IsStepLine line.now puts s → ⊥) }
{
    let (sort, fields) = sort_of_line(line)?;
    if !parts.read(sort, decoded, fields) {
        return None;
    }
    if !parts.are_allowed(sort) {
        return None;
    }
    if !parts.are_next(sort, puts) {
        return None;
    }
    Some(sort)
}
