//! The step that a reader lends, made of parts that keep their room.

ghost use Rattle.std.specs.Prelude.{◌≡◌, None, IfOk, IfSome};
ghost use Rattle.ips_steps.specs.View.{step_of};
ghost use Rattle.ips_journal.specs.Holding.{HaveRoom, HasPlace, Fits, IsReader, IsReady, IsSafe, found_step, step_by, step_in};

use crate::beside::Beside;
use crate::fault::StepFault;
use crate::parts::Parts;
use ips_steps::{Sort, Step, Target};
use ips_text::RelPath;
use std::alloc::{AllocError, Global};
use std::mem;

/// What a step leaves of the parts that it was made of.
#[derive(Drop)]
pub enum Left {
    OfPath(RelPath, Target),
    OfLink(RelPath),
    OfHard(Target),
}

/// The parts, or a step that was made of them.
#[derive(Drop)]
pub enum Held {
    Spare(Parts),
    Lent(Step, Left),
    /// While the parts are handed over.
    Moving,
}

impl Held {
    /// Parts with room for whatever a line can say.
    pub fn new(alloc: Global) -> Result<Held, AllocError>
        ensures ready { IfOk result IsReady }
        ensures none_lent { IfOk result (λ held. step_in held ≡ None) }
    {
        let parts = Parts::new(alloc)?;
        Ok(Held::Spare(parts))
    }

    /// The parts; the step isn't lent any more.
    pub fn release(&mut self) -> Parts
        requires { IsReady self.old }
        ensures room { HaveRoom result }
        ensures none_lent { step_in self.new ≡ None }
    {
        match mem::replace(self, Held::Moving) {
            Held::Spare(parts) => parts,
            Held::Lent(step, left) => parts_of(step, left),
            Held::Moving => unreachable!(),
        }
    }
}

/// What is held behind a reading into the parts: the step that was found, with the paths that go with it, or the parts.
pub fn hold(found: &Result<Option<Sort>, StepFault>, parts: Parts, beside: &mut Beside) -> Held
    requires room { HaveRoom parts }
    requires place { HasPlace beside.old }
    requires safe { IfOk found.now (λ x. IfSome x (λ sort. IsSafe (step_by sort parts))) }
    ensures reader { IsReader result beside.new }
    ensures lent { step_in result ≡ found_step found.now parts }
{
    let Ok(Some(sort)) = found else {
        return Held::Spare(parts);
    };
    let (step, left) = step_from(*sort, parts);
    beside.go_to(&step);
    Held::Lent(step, left)
}

// The parts that a step and what it left were made of.
fn parts_of(step: Step, left: Left) -> Parts
    requires { Fits step left }
    ensures { HaveRoom result }
{
    match (step, left) {
        (Step::Gone { path }, Left::OfPath(to, target)) => parts(path, to, target),
        (Step::Fresh { path, .. }, Left::OfPath(to, target)) => parts(path, to, target),
        (Step::Mode { path, .. }, Left::OfPath(to, target)) => parts(path, to, target),
        (Step::Put { path, .. }, Left::OfPath(to, target)) => parts(path, to, target),
        (Step::Link { path, target }, Left::OfLink(to)) => parts(path, to, target),
        (Step::Hard { path, to }, Left::OfHard(target)) => parts(path, to, target),
        _ => unreachable!(),
    }
}

fn parts(path: RelPath, to: RelPath, target: Target) -> Parts
    ensures path { result.path ≡ path }
    ensures to { result.to ≡ to }
    ensures target { result.target ≡ target }
{
    Parts {
        path,
        to,
        target,
        mode: 0,
        stage: 0,
    }
}

/// The step of this sort that the parts make, and what is left of them.
pub fn step_from(sort: Sort, parts: Parts) -> (Step, Left)
    requires { HaveRoom parts }
    ensures fits { Fits result.0 result.1 }
    ensures made { step_of result.0 ≡ step_by sort parts }
{
    let Parts {
        path,
        to,
        target,
        mode,
        stage,
    } = parts;
    match sort {
        Sort::Gone => (Step::Gone { path }, Left::OfPath(to, target)),
        Sort::Fresh => (Step::Fresh { path, mode }, Left::OfPath(to, target)),
        Sort::Mode => (Step::Mode { path, mode }, Left::OfPath(to, target)),
        Sort::Put => (Step::Put { path, mode, stage }, Left::OfPath(to, target)),
        Sort::Link => (Step::Link { path, target }, Left::OfLink(to)),
        Sort::Hard => (Step::Hard { path, to }, Left::OfHard(target)),
    }
}
