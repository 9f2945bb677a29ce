//! The reader of a journal.

ghost use Rattle.std.specs.Prelude.{◌≡◌, true, false, [], IsTrue, List, ℕ, Option, Some, None, IfOk, OnErr, IfErr, MatchOption, Err, is_some, IsSome};
ghost use Rattle.ips_outside.specs.Outside.{Reads};
ghost use Rattle.ips_steps.specs.Steps.{Step as StepMeant, path_of};
ghost use Rattle.ips_steps.specs.Journal.{IsProper, step_allowed};
ghost use Rattle.ips_steps.specs.View.{step_of};
ghost use Rattle.ips_journal.specs.Reading.{IsAt, NextAnswers, TellsLine, TellsNext, journal_of, parent_in, stage_in};
ghost use Rattle.ips_journal.specs.declared.fault.StepFault.TheVariants as fault;

use crate::beside::Beside;
use crate::cursor::Cursor;
use crate::fault::StepFault;
use crate::held::{Held, hold};
use ips_folder::Folder;
use ips_steps::Step;
use ips_text::RelPath;
use std::alloc::{AllocError, Global};
use std::marker::Model;
use std::mem;

/// A reader of the steps of the journal in a folder, which it lends one by one. It has all the memory that it needs from the
/// start. Contracts see where it stands, and the step that it lends.
#[derive(Drop)]
pub struct StepReader {
    cursor: Cursor,
    held: Held,
    beside: Beside,
}

impl Model for StepReader {
    ghost use Rattle.ips_journal.specs.Reading.{ReaderState};
    ghost use Rattle.ips_journal.specs.Holding.{seen, step_in, IsReader};

    ghost Value = { ReaderState };

    ghost view = { λ r. seen r.cursor (step_in r.held) };

    ghost invariant = { λ r. IsReader r.held r.beside };
}

impl StepReader {
    /// A reader before the first line, with all the memory that reading needs.
    pub fn new(alloc: Global) -> Result<StepReader, AllocError>
        ensures start { IfOk result (λ r. (text : List ℕ) → IsAt text [] r) }
        ensures line { IfOk result (λ r. r.line ≡ 0) }
        ensures no_step { IfOk result (λ r. r.step ≡ None) }
    {
        let cursor = Cursor::new(alloc)?;
        let held = Held::new(alloc)?;
        let beside = Beside::new(alloc)?;
        Ok(StepReader {
            cursor,
            held,
            beside,
        })
    }

    /// Goes back to the front of the journal, also after a fault or the end.
    pub fn rewind(&mut self)
        ensures start { (text : List ℕ) → IsAt text [] self.new }
        ensures line { self.new.line ≡ 0 }
        ensures no_step { self.new.step ≡ None }
    {
        self.cursor.rewind();
        let parts = self.held.release();
        self.held = Held::Spare(parts);
    }

    /// Reads the next step of the journal in the folder. It answers true where there is one, which is then lent by `step`,
    /// and false at the end. `BadJournal` tells the first line that isn't of the grammar, where that comes next; 1 for an empty
    /// text. After the end and after a fault the reader only goes back.
    pub fn next<F: Folder>(&mut self, folder: &mut F) -> Result<bool, StepFault>
        requires { IsTrue self.old.is_open }
        ensures means { IsTrue (F.outside.tells folder.old) → (front : List StepMeant) → IsAt (journal_of (F.outside.state folder.old).held) front self.old
            → NextAnswers (journal_of (F.outside.state folder.old).held) front self.new result }
        ensures next { IsTrue (F.outside.tells folder.old) → (front : List StepMeant) → IsAt (journal_of (F.outside.state folder.old).held) front self.old
            → IfErr result (TellsNext (journal_of (F.outside.state folder.old).held) front) }
        ensures lends { IfOk result (λ more. (is_some self.new.step ≡ more) × (self.new.is_open ≡ more)) }
        ensures fault { OnErr result ((self.new.step ≡ None) × (self.new.is_open ≡ false)) }
        ensures line { IfErr result (TellsLine self.new.line) }
        ensures reads { Reads F.outside folder.old folder.new (result ≡ Err fault.FolderFault) }
    {
        let mut parts = self.held.release();
        let found = self.cursor.read(&mut parts, folder);
        self.held = hold(&found, parts, &mut self.beside);
        match found {
            Ok(sort) => Ok(sort.is_some()),
            Err(fault) => Err(fault),
        }
    }

    /// The step that was read last; the last `next` has to have answered true.
    pub fn step(&self) -> &Step
        requires { IsSome self.now.step }
        ensures step { self.now.step ≡ Some (step_of result.now) }
        ensures proper { IsProper (step_of result.now) }
        ensures allowed { IsTrue (step_allowed (step_of result.now)) }
    {
        match &self.held {
            Held::Lent(step, _) => step,
            _ => unreachable!(),
        }
    }

    /// The number of the line that was read last, and 0 at the start; after a fault that of the faulty line.
    pub fn line(&self) -> u64
        ensures { result ≡ self.now.line }
    {
        self.cursor.line
    }

    /// The parent of the step's path; None where the path has one part, and where no step is lent.
    pub fn parent(&self) -> Option<&RelPath>
        ensures { MatchOption result (parent_in self.now.step ≡ None) (λ dir. parent_in self.now.step ≡ Some dir.now.bytes) }
    {
        self.beside.parent(&self.held)
    }

    /// The path of the file in the stage, where the step puts a content; else None.
    pub fn staged(&self) -> Option<&RelPath>
        ensures { MatchOption result (stage_in self.now.step ≡ None) (λ file. stage_in self.now.step ≡ Some file.now.bytes) }
    {
        self.beside.staged(&self.held)
    }
}
