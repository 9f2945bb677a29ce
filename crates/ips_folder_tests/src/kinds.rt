//! Kinds of steps, and which of a list carries a step out.

ghost use Rattle.std.specs.Prelude.{◌≡◌, ◌||◌, IsTrue};
ghost use Rattle.ips_steps.specs.View.{step_of, sort_of};
ghost use Rattle.ips_steps.specs.declared.step.Sort.TheVariants as of_sort;
ghost use Rattle.ips_kinds.specs.Acts.{same_sort};

use crate::script::{Player, play, told};
use crate::steps::read_step;
use ips_kinds::{Act, FreshKind, GoneKind, HardKind, Kind, LinkKind, ModeKind, PutKind};
use ips_steps::{Sort, Step};
use std::alloc::{AllocError, Global};
use std::process::Abort;

// A kind that takes two sorts.
#[derive(Drop)]
struct DirKind {
    tally: u64,
}

impl Kind for DirKind {
    ghost sorts = { λ k s. same_sort of_sort.Gone s || same_sort of_sort.Fresh s };

    ghost finished = { λ k. k.tally };

    fn takes(&self, step: &Step) -> bool {
        matches!(step, Step::Gone { .. } | Step::Fresh { .. })
    }

    fn next(&mut self, step: &Step, turn: u8) -> Act {
        match (step.sort(), turn) {
            (_, 0) => Act::Clear,
            (Sort::Fresh, 1) => Act::MakeDir,
            _ => {
                self.tally = self.tally.saturating_add(1);
                Act::Finished
            }
        }
    }

    fn tally(&self) -> u64 {
        self.tally
    }
}

// The act's word.
fn act_word(act: Act) -> &'static str {
    match act {
        Act::Clear => "Clear",
        Act::MakeDir => "MakeDir",
        Act::MakeLink => "MakeLink",
        Act::MakeHard => "MakeHard",
        Act::SetMode => "SetMode",
        Act::Finished => "Finished",
    }
}

// The words of all acts of a step, with a blank behind each.
fn acts_of(alloc: Global, kind: &mut Box<dyn Kind>, step: &Step) -> Result<String, AllocError>
    requires { IsTrue (sorts kind.old (sort_of (step_of step.now))) }
{
    let mut acts = String::new(alloc);
    let mut turn = 0;
    loop {
        let act = kind.next(step, turn);
        acts.push_str(act_word(act))?;
        if matches!(act, Act::Finished) {
            return Ok(acts);
        }
        acts.push_str(" ")?;
        turn += 1;
    }
}

// The acts of a step, by the first kind that takes it.
fn carried_out(
    rt: &impl Abort,
    alloc: Global,
    kinds: &mut Vec<Box<dyn Kind>>,
    step: &Step,
) -> Vec<u8> {
    for kind in kinds.iter_mut() {
        if kind.takes(step) {
            return acts_of(alloc, kind, step).expect(rt, "memory").into_bytes();
        }
    }
    told(rt, alloc, b"no kind")
}

// How many steps each kind has finished, one after another.
fn tallies(rt: &impl Abort, alloc: Global, kinds: &Vec<Box<dyn Kind>>) -> Vec<u8> {
    let mut all = String::new(alloc);
    for kind in kinds {
        write!(all, "{};", kind.tally()).expect(rt, "memory");
    }
    all.into_bytes()
}

// What the list does with the step, or how many steps its kinds have finished.
impl Player for Vec<Box<dyn Kind>> {
    fn answer<R: Abort>(&mut self, rt: &R, alloc: Global, call: &str) -> Vec<u8> {
        if call == "tallies" {
            return tallies(rt, alloc, self);
        }
        carried_out(rt, alloc, self, &read_step(rt, alloc, call))
    }
}

// The first kind that takes a step carries it out: kinds of gone and fresh, and of gone.
const FIRST: &str = "
gone usr/bin -> Clear Finished
fresh 0755 usr/bin -> Clear MakeDir Finished
# no kind takes it
mode 0700 usr/bin -> no kind
tallies -> 2;0;
";

// One kind of each sort: of fresh, mode and gone, and of put, link and hard.
const ALL: &str = "
gone usr/bin -> Clear Finished
fresh 0755 usr/bin -> Clear MakeDir Finished
mode 0700 usr/bin -> SetMode Finished
tallies -> 1;1;1;0;0;0;
put 0 0644 usr/bin -> Clear MakeHard Finished
link usr/bin ../sbin -> Clear MakeLink Finished
hard usr/bin usr/sbin -> Clear MakeHard Finished
tallies -> 1;1;1;1;1;1;
";

#[test]
fn the_first_kind_that_takes_a_step_carries_it_out(rt: HostRuntime) {
    let alloc = rt.alloc();
    let dirs: Box<dyn Kind> = Box::new(alloc, DirKind { tally: 0 }).expect(&rt, "memory");
    let gone: Box<dyn Kind> = Box::new(alloc, GoneKind::new()).expect(&rt, "memory");
    let mut kinds: Vec<Box<dyn Kind>> = vec![in alloc; dirs, gone].expect(&rt, "memory");
    play(&rt, alloc, &mut kinds, FIRST, 4);
}

#[test]
fn each_sort_has_its_kind(rt: HostRuntime) {
    let alloc = rt.alloc();
    let fresh: Box<dyn Kind> = Box::new(alloc, FreshKind::new()).expect(&rt, "memory");
    let mode: Box<dyn Kind> = Box::new(alloc, ModeKind::new()).expect(&rt, "memory");
    let gone: Box<dyn Kind> = Box::new(alloc, GoneKind::new()).expect(&rt, "memory");
    let put: Box<dyn Kind> = Box::new(alloc, PutKind::new()).expect(&rt, "memory");
    let link: Box<dyn Kind> = Box::new(alloc, LinkKind::new()).expect(&rt, "memory");
    let hard: Box<dyn Kind> = Box::new(alloc, HardKind::new()).expect(&rt, "memory");
    let mut kinds = vec![in alloc; fresh, mode, gone, put, link, hard].expect(&rt, "memory");
    play(&rt, alloc, &mut kinds, ALL, 8);
}
