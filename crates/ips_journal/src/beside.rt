//! Paths that go with a step: its parent, and the file of its content.

ghost use Rattle.std.specs.Prelude.{◌≡◌, ◌++◌, ◌≤◌, ◌<◌, ◌^◌, Some, None, IfOk, MatchOption, length, take};
ghost use Rattle.ips_text.specs.Ancestry as ancestry;
ghost use Rattle.ips_text.specs.Path.{IsPath};
ghost use Rattle.ips_steps.specs.Steps.{path_of, stage_path as stage_path_of};
ghost use Rattle.ips_steps.specs.View.{step_of};
ghost use Rattle.ips_journal.specs.Reading.{parent_in, stage_for, stage_in};
ghost use Rattle.ips_journal.specs.Holding.{HasPlace, IsNamed, step_in};

use crate::held::Held;
use ips_steps::Step;
use ips_text::{RelPath, parent};
use itoa::Buffer;
use std::alloc::{AllocError, Global};

/// The paths that go with the step that is lent.
#[derive(Drop)]
pub struct Beside {
    /// The parent of the step's path, where it has one.
    pub above: RelPath,
    /// The file of the content that the step puts.
    pub file: RelPath,
}

impl Beside {
    /// Two paths with room for every path.
    pub fn new(alloc: Global) -> Result<Beside, AllocError>
        ensures { IfOk result HasPlace }
    {
        match (
            RelPath::with_room(alloc, b"a"),
            RelPath::with_room(alloc, b"a"),
        ) {
            (Ok(above), Ok(file)) => Ok(Beside { above, file }),
            _ => Err(AllocError),
        }
    }

    /// Goes to this step.
    pub fn go_to(&mut self, step: &Step)
        requires { HasPlace self.old }
        ensures room { HasPlace self.new }
        ensures above { IsNamed (ancestry.parent (path_of (step_of step.now))) self.new.above.bytes }
        ensures file { IsNamed (stage_for (step_of step.now)) self.new.file.bytes }
    {
        set_parent(&mut self.above, step.path());
        if let Step::Put { stage, .. } = step {
            set_stage_path(&mut self.file, *stage);
        }
    }

    /// The parent of the path of the step that is held, where it has one.
    pub fn parent(&self, held: &Held) -> Option<&RelPath>
        requires { IsNamed (parent_in (step_in held.now)) self.now.above.bytes }
        ensures { MatchOption result (parent_in (step_in held.now) ≡ None) (λ dir. parent_in (step_in held.now) ≡ Some dir.now.bytes) }
    {
        let Held::Lent(step, _) = held else {
            return None;
        };
        match parent(step.path().bytes()) {
            Some(_) => Some(&self.above),
            None => None,
        }
    }

    /// The file of the content that the step puts, where it puts one.
    pub fn staged(&self, held: &Held) -> Option<&RelPath>
        requires { IsNamed (stage_in (step_in held.now)) self.now.file.bytes }
        ensures { MatchOption result (stage_in (step_in held.now) ≡ None) (λ file. stage_in (step_in held.now) ≡ Some file.now.bytes) }
    {
        match held {
            Held::Lent(Step::Put { .. }, _) => Some(&self.file),
            _ => None,
        }
    }
}

// Sets the path to the parent of another, where that has one.
fn set_parent(above: &mut RelPath, path: &RelPath)
    requires { 1023 ≤ above.old.room }
    ensures room { 1023 ≤ above.new.room }
    ensures named { IsNamed (ancestry.parent path.now.bytes) above.new.bytes }
{
    let Some(dir) = parent(path.bytes()) else {
        return;
    };
    set_to(above, dir);
}

// Sets the path to the file of a content.
fn set_stage_path(file: &mut RelPath, number: u64)
    requires { 1023 ≤ file.old.room }
    ensures room { 1023 ≤ file.new.room }
    ensures named { file.new.bytes ≡ stage_path_of number }
{
    let mut bytes = [0u8; 40];
    let count = stage_path(number, &mut bytes);
    set_to(file, &bytes[..count]);
}

// Writes the path of a content's file to the front of the bytes.
fn stage_path(number: u64, bytes: &mut [u8]) -> usize
    requires { length bytes.old ≡ 40 }
    ensures fits { result ≤ 40 }
    ensures written { take result bytes.new ≡ stage_path_of number }
{
    let mut buffer = Buffer::new();
    let digits = buffer.format(number).as_bytes();
    let end = 14 + digits.len();
    bytes[..14].copy_from_slice(b"var/pkg/stage/");
    bytes[14..end].copy_from_slice(digits);
    end
}

// Sets a path to bytes that are one.
fn set_to(path: &mut RelPath, bytes: &[u8])
    requires room { 1023 ≤ path.old.room }
    requires path { IsPath bytes.now }
    ensures room { 1023 ≤ path.new.room }
    ensures written { path.new.bytes ≡ bytes.now }
{
    match path.set(bytes) {
        Ok(()) => {}
        Err(_) => unreachable!(),
    }
}
