//! The parts of a step, read from its line without memory.

ghost use Rattle.std.specs.Prelude.{◌≡◌, ◌∷◌, ◌++◌, ◌<◌, ◌≤◌, ◌^◌, ◌&&◌, ◌==◌, [], ℕ, List, IsTrue, IsFalse, IfNone, IfSome, IfOk, length};
ghost use Rattle.std.specs.Fmt.{decimal as decimal_text};
ghost use Rattle.ips_text.specs.Path.{IsPath};
ghost use Rattle.ips_text.specs.Quote.{AreBytes, quoted, shown};
ghost use Rattle.ips_steps.specs.Steps.{Step};
ghost use Rattle.ips_steps.specs.Targets.{IsTarget};
ghost use Rattle.ips_steps.specs.Journal.{IsProper, step_allowed, numbered};
ghost use Rattle.ips_steps.specs.View.{sort_of};
ghost use Rattle.ips_journal.specs.Text.{mode_text, fields_of};
ghost use Rattle.ips_journal.specs.Holding.{HaveRoom, IsNumberSmall, step_by};

use crate::fields::{cut, decode, mode_of};
use crate::names::{is_private, may_name};
use ips_steps::{Sort, Target};
use ips_text::{RelPath, decimal};
use std::alloc::{AllocError, Global};

/// What a step is made of.
#[derive(Drop)]
pub struct Parts {
    pub path: RelPath,
    /// What a hard link leads to.
    pub to: RelPath,
    /// What a symbolic link says.
    pub target: Target,
    pub mode: u16,
    /// The number of a content.
    pub stage: u64,
}

impl Parts {
    /// Parts with room for whatever a line can say.
    pub fn new(alloc: Global) -> Result<Parts, AllocError>
        ensures { IfOk result HaveRoom }
    {
        match (
            RelPath::with_room(alloc, b"a"),
            RelPath::with_room(alloc, b"a"),
            Target::with_room(alloc, b"a"),
        ) {
            (Ok(path), Ok(to), Ok(target)) => Ok(Parts {
                path,
                to,
                target,
                mode: 0,
                stage: 0,
            }),
            _ => Err(AllocError),
        }
    }

    /// Whether the step of this sort may name its paths.
    pub fn are_allowed(&self, sort: Sort) -> bool
        ensures { result ≡ step_allowed (step_by sort self.now) }
    {
        match sort {
            Sort::Mode => !is_private(self.path.bytes()),
            Sort::Hard => may_name(self.path.bytes()) && may_name(self.to.bytes()),
            Sort::Gone | Sort::Fresh | Sort::Put | Sort::Link => may_name(self.path.bytes()),
        }
    }

    /// Whether the step of this sort may stand where so many contents were put.
    pub fn are_next(&self, sort: Sort, puts: u64) -> bool
        ensures { result ≡ numbered puts (step_by sort self.now ∷ []) }
    {
        match sort {
            Sort::Put => self.stage == puts,
            Sort::Gone | Sort::Fresh | Sort::Mode | Sort::Link | Sort::Hard => true,
        }
    }

    /// Reads the fields of a line of this sort; false where they are those of no step. It decodes into the buffer.
    pub fn read(&mut self, sort: Sort, buffer: &mut [u8], fields: &[u8]) -> bool
        requires room { HaveRoom self.old }
        requires buffer { 4095 ≤ length buffer.old }
        ensures room { HaveRoom self.new }
        ensures found { IsTrue result → IsProper (step_by sort self.new) × (fields.now ≡ fields_of (step_by sort self.new)) }
        ensures small { IsTrue result → IsNumberSmall (step_by sort self.new) }
        ensures none { IsFalse result → (s : Step) → sort_of s ≡ sort → IsProper s → IsNumberSmall s → fields.now ≡ fields_of s → ⊥ }
    {
        match sort {
            Sort::Gone => read_path(&mut self.path, buffer, fields),
            Sort::Fresh | Sort::Mode => self.read_moded(buffer, fields),
            Sort::Put => self.read_put(buffer, fields),
            Sort::Link => self.read_link(buffer, fields),
            Sort::Hard => self.read_hard(buffer, fields),
        }
    }

    // A mode and a path.
    fn read_moded(&mut self, buffer: &mut [u8], fields: &[u8]) -> bool
        requires room { HaveRoom self.old }
        requires buffer { 4095 ≤ length buffer.old }
        ensures room { HaveRoom self.new }
        ensures path { IsTrue result → IsPath self.new.path.bytes }
        ensures mode { IsTrue result → self.new.mode < 4096 }
        ensures found { IsTrue result → fields.now ≡ mode_text self.new.mode ++ 32 ∷ shown self.new.path.bytes }
        ensures stage { self.new.stage ≡ self.old.stage }
        ensures none { IsFalse result → (m : ℕ) (p : List ℕ) → m < 4096 → IsPath p → fields.now ≡ mode_text m ++ 32 ∷ shown p → ⊥ }
    {
        let Some((first, second)) = cut(fields) else {
            return false;
        };
        let Some(mode) = mode_of(first) else {
            return false;
        };
        self.mode = mode;
        read_path(&mut self.path, buffer, second)
    }

    // The number of a content, a mode and a path.
    fn read_put(&mut self, buffer: &mut [u8], fields: &[u8]) -> bool
        requires room { HaveRoom self.old }
        requires buffer { 4095 ≤ length buffer.old }
        ensures room { HaveRoom self.new }
        ensures path { IsTrue result → IsPath self.new.path.bytes }
        ensures mode { IsTrue result → self.new.mode < 4096 }
        ensures small { IsTrue result → self.new.stage < 2 ^ 64 }
        ensures found { IsTrue result → fields.now ≡ decimal_text self.new.stage ++ 32 ∷ (mode_text self.new.mode ++ 32 ∷ shown self.new.path.bytes) }
        ensures none { IsFalse result → (n m : ℕ) (p : List ℕ) → n < 2 ^ 64 → m < 4096 → IsPath p
            → fields.now ≡ decimal_text n ++ 32 ∷ (mode_text m ++ 32 ∷ shown p) → ⊥ }
    {
        let Some((first, second)) = cut(fields) else {
            return false;
        };
        let Some(stage) = decimal(first) else {
            return false;
        };
        self.stage = stage;
        self.read_moded(buffer, second)
    }

    // A path and a quoted target.
    fn read_link(&mut self, buffer: &mut [u8], fields: &[u8]) -> bool
        requires room { HaveRoom self.old }
        requires buffer { 4095 ≤ length buffer.old }
        ensures room { HaveRoom self.new }
        ensures path { IsTrue result → IsPath self.new.path.bytes }
        ensures target { IsTrue result → IsTarget self.new.target.bytes × AreBytes self.new.target.bytes }
        ensures found { IsTrue result → fields.now ≡ shown self.new.path.bytes ++ 32 ∷ quoted self.new.target.bytes }
        ensures none { IsFalse result → (p target : List ℕ) → IsPath p → IsTarget target → AreBytes target → fields.now ≡ shown p ++ 32 ∷ quoted target → ⊥ }
    {
        let Some((first, second)) = cut(fields) else {
            return false;
        };
        if !read_path(&mut self.path, buffer, first) {
            return false;
        }
        read_target(&mut self.target, buffer, second)
    }

    // Two paths.
    fn read_hard(&mut self, buffer: &mut [u8], fields: &[u8]) -> bool
        requires room { HaveRoom self.old }
        requires buffer { 4095 ≤ length buffer.old }
        ensures room { HaveRoom self.new }
        ensures path { IsTrue result → IsPath self.new.path.bytes }
        ensures to { IsTrue result → IsPath self.new.to.bytes }
        ensures found { IsTrue result → fields.now ≡ shown self.new.path.bytes ++ 32 ∷ shown self.new.to.bytes }
        ensures none { IsFalse result → (p to : List ℕ) → IsPath p → IsPath to → fields.now ≡ shown p ++ 32 ∷ shown to → ⊥ }
    {
        let Some((first, second)) = cut(fields) else {
            return false;
        };
        if !read_path(&mut self.path, buffer, first) {
            return false;
        }
        read_path(&mut self.to, buffer, second)
    }
}

// The path that is shown so.
fn read_path(path: &mut RelPath, buffer: &mut [u8], bytes: &[u8]) -> bool
    requires room { 1023 ≤ path.old.room }
    requires buffer { 4095 ≤ length buffer.old }
    ensures room { 1023 ≤ path.new.room }
    ensures path { IsTrue result → IsPath path.new.bytes }
    ensures found { IsTrue result → bytes.now ≡ shown path.new.bytes }
    ensures none { IsFalse result → (p : List ℕ) → IsPath p → bytes.now ≡ shown p → ⊥ }
{
    let Some(count) = decode(true, bytes, buffer) else {
        return false;
    };
    path.set(&buffer[..count]).is_ok()
}

// The target that is quoted so.
fn read_target(target: &mut Target, buffer: &mut [u8], bytes: &[u8]) -> bool
    requires room { 4095 ≤ target.old.room }
    requires buffer { 4095 ≤ length buffer.old }
    ensures room { 4095 ≤ target.new.room }
    ensures target { IsTrue result → IsTarget target.new.bytes × AreBytes target.new.bytes }
    ensures found { IsTrue result → bytes.now ≡ quoted target.new.bytes }
    ensures none { IsFalse result → (list : List ℕ) → IsTarget list → AreBytes list → bytes.now ≡ quoted list → ⊥ }
{
    let Some(count) = decode(false, bytes, buffer) else {
        return false;
    };
    target.set(&buffer[..count]).is_ok()
}
