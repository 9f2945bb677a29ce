//! Steps, one after another.

ghost use Rattle.std.specs.Prelude.{◌≡◌, ◌++◌, ◌∷◌, [], ℕ, List, OnOk, IfOk, length, map};
ghost use Rattle.ips_outside.specs.Image.{File, Image, Link};
ghost use Rattle.ips_steps.specs.Steps as steps;
ghost use Rattle.ips_steps.specs.Targets.{IsTarget};
ghost use Rattle.ips_steps.specs.View.{step_of};
ghost use Rattle.ips_after.specs.Change.{Laid};
ghost use Rattle.ips_change.specs.Told.{change_told};
ghost use Rattle.ips_emit.specs.Emitted.{FromFile, HasPut, HasStep, HasTarget, IsEmitted, Provenance, OwnBytes, Turn, bytes_at, provenances_told};

use ips_change::Change;
use ips_journal::Staged;
use ips_steps::{Step, Target};
use ips_text::{Or, RelPath, Text};
use std::alloc::{AllocError, Global};

/// Steps, and what is staged for those that put a file, in their order.
#[derive(Drop)]
pub struct Emitted {
    /// The steps.
    pub steps: Vec<Step>,
    /// The contents.
    pub staged: Vec<Staged>,
}

impl Emitted {
    /// No steps.
    pub fn new(alloc: Global) -> Emitted
        ensures { (bytes : List ℕ → List ℕ) (t : Image) → IsEmitted bytes t [] [] result }
    {
        Emitted {
            steps: Vec::new(alloc),
            staged: Vec::new(alloc),
        }
    }

    /// Adds the step of what becomes of a path, if it has one.
    pub fn push(
        &mut self,
        alloc: Global,
        path: &RelPath,
        change: Change<'_>,
    ) -> Result<(), AllocError>
        requires { HasTarget change }
        ensures { OnOk result ((bytes : List ℕ → List ℕ) (t : Image) (turns : List Turn) (provenances : List Provenance) → IsEmitted bytes t turns provenances self.old → IsEmitted bytes t (turns ++ (path.now.bytes, change_told bytes change.entry) ∷ []) (provenances ++ provenances_told change.entry) self.new) }
    {
        let path = path.copy(alloc)?;
        match change {
            Change::Kept => Ok(()),
            Change::Removed => self.add(Step::Gone { path }),
            Change::Dir { mode } => self.add(Step::Fresh { path, mode }),
            Change::File { payload, mode } => self.add_put(path, mode, Staged::Payload(*payload)),
            Change::Link { target } => self.add_text_link(alloc, path, target),
            Change::Hard { to } => self.add_hard(alloc, path, to),
            Change::Mode { mode } => self.add(Step::Mode { path, mode }),
        }
    }

    /// Adds the step of a file with these bytes.
    pub fn push_text(
        &mut self,
        alloc: Global,
        path: &RelPath,
        mode: u16,
        text: Vec<u8>,
    ) -> Result<(), AllocError>
        ensures { OnOk result ((bytes : List ℕ → List ℕ) (t : Image) (turns : List Turn) (provenances : List Provenance) → IsEmitted bytes t turns provenances self.old → IsEmitted bytes t (turns ++ (path.now.bytes, Laid (File mode text.items)) ∷ []) (provenances ++ OwnBytes text.items ∷ []) self.new) }
    {
        let path = path.copy(alloc)?;
        self.add_put(path, mode, Staged::Bytes(text))
    }

    /// Adds the step of a file with the bytes of the one that stands at another path.
    pub fn push_standing(
        &mut self,
        alloc: Global,
        path: &RelPath,
        mode: u16,
        from: &RelPath,
    ) -> Result<(), AllocError>
        ensures { OnOk result ((bytes : List ℕ → List ℕ) (t : Image) (turns : List Turn) (provenances : List Provenance) → IsEmitted bytes t turns provenances self.old → IsEmitted bytes t (turns ++ (path.now.bytes, Laid (File mode (bytes_at t from.now.bytes))) ∷ []) (provenances ++ FromFile from.now.bytes ∷ []) self.new) }
    {
        let path = path.copy(alloc)?;
        let from = from.copy(alloc)?;
        self.add_put(path, mode, Staged::Standing(from))
    }

    /// Adds the step of a symbolic link that says this, as one that is salvaged does, whose target may be any bytes.
    pub fn push_link(
        &mut self,
        alloc: Global,
        path: &RelPath,
        target: &[u8],
    ) -> Result<(), AllocError>
        requires { IsTarget target.now }
        ensures { OnOk result ((bytes : List ℕ → List ℕ) (t : Image) (turns : List Turn) (provenances : List Provenance) → IsEmitted bytes t turns provenances self.old → IsEmitted bytes t (turns ++ (path.now.bytes, Laid (Link target.now)) ∷ []) provenances self.new) }
    {
        let path = path.copy(alloc)?;
        self.add_link(alloc, path, target)
    }

    // Adds a step that puts no file.
    fn add(&mut self, step: Step) -> Result<(), AllocError>
        ensures { OnOk result (HasStep self.old self.new (step_of step)) }
    {
        match self.steps.push(step) {
            Ok(()) => Ok(()),
            Err(_) => Err(AllocError),
        }
    }

    // Adds a step that puts a file with this content.
    fn add_put(&mut self, path: RelPath, mode: u16, content: Staged) -> Result<(), AllocError>
        ensures { OnOk result (HasPut self.old self.new mode path.bytes content) }
    {
        let stage = self.staged.len() as u64;
        match self.staged.push(content) {
            Ok(()) => self.add(Step::Put { path, mode, stage }),
            Err(_) => Err(AllocError),
        }
    }

    // Adds a symbolic link that says a text.
    fn add_text_link(
        &mut self,
        alloc: Global,
        path: RelPath,
        target: &Text,
    ) -> Result<(), AllocError>
        requires { IsTarget target.now }
        ensures { OnOk result (HasStep self.old self.new (steps.Symlink path.bytes target.now)) }
    {
        self.add_link(alloc, path, target.as_str().as_bytes())
    }

    // Adds a symbolic link.
    fn add_link(&mut self, alloc: Global, path: RelPath, target: &[u8]) -> Result<(), AllocError>
        requires { IsTarget target.now }
        ensures { OnOk result (HasStep self.old self.new (steps.Symlink path.bytes target.now)) }
    {
        match Target::parse(alloc, target) {
            Ok(target) => self.add(Step::Link { path, target }),
            Err(Or::OutOfMemory) => Err(AllocError),
            Err(Or::Bad(_)) => unreachable!(),
        }
    }

    // Adds one more name of a file.
    fn add_hard(&mut self, alloc: Global, path: RelPath, to: &RelPath) -> Result<(), AllocError>
        ensures { OnOk result (HasStep self.old self.new (steps.Hard path.bytes to.now.bytes)) }
    {
        match to.copy(alloc) {
            Ok(to) => self.add(Step::Hard { path, to }),
            Err(_) => Err(AllocError),
        }
    }
}
