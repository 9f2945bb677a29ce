//! Steps and the targets of links.

ghost use Rattle.std.specs.Prelude.{◌≤◌};

use crate::script::{Player, bytes, first, number, path, play, told, words};
use ips_steps::{Sort, Step, Target, TargetFault};
use ips_text::{Or, octal};
use std::alloc::Global;
use std::process::Abort;

/// The step that a line of a journal is, but that its path is not quoted; the bytes of a target are spelled.
pub fn read_step(rt: &impl Abort, alloc: Global, line: &str) -> Step {
    let [name, first, second, third] = words(line);
    let mode = octal(first.as_bytes()).unwrap_or(0);
    match name {
        "gone" => Step::Gone {
            path: path(rt, alloc, first),
        },
        "fresh" => Step::Fresh {
            path: path(rt, alloc, second),
            mode,
        },
        "mode" => Step::Mode {
            path: path(rt, alloc, second),
            mode,
        },
        "put" => Step::Put {
            path: path(rt, alloc, third),
            mode: octal(second.as_bytes()).unwrap_or(0),
            stage: number(rt, first),
        },
        "link" => Step::Link {
            path: path(rt, alloc, first),
            target: target(rt, alloc, second),
        },
        _ => Step::Hard {
            path: path(rt, alloc, first),
            to: path(rt, alloc, second),
        },
    }
}

// The target whose bytes are spelled so.
fn target(rt: &impl Abort, alloc: Global, text: &str) -> Target {
    Target::parse(alloc, &bytes(rt, alloc, text))
        .ok()
        .expect(rt, "a target")
}

/// The sort's word.
pub fn sort_word(sort: Sort) -> &'static str {
    match sort {
        Sort::Gone => "Gone",
        Sort::Fresh => "Fresh",
        Sort::Mode => "Mode",
        Sort::Put => "Put",
        Sort::Link => "Link",
        Sort::Hard => "Hard",
    }
}

// The sort of a step of the path `usr/bin`.
fn step_told(step: &Step) -> &'static str {
    if step.path().bytes() == b"usr/bin".as_slice() {
        sort_word(step.sort())
    } else {
        "another path"
    }
}

// So many bytes `x`, and these behind them.
fn long(rt: &impl Abort, alloc: Global, count: u64, behind: &str) -> Vec<u8> {
    let mut long = Vec::new(alloc);
    for _ in 0..count {
        long.push(b'x').expect(rt, "memory");
    }
    long.extend_from_slice(&bytes(rt, alloc, behind))
        .expect(rt, "memory");
    long
}

// Whether the target holds these bytes, or why there is none.
fn held(target: Result<Target, Or<TargetFault>>, bytes: &[u8]) -> &'static str {
    match target {
        Ok(target) if target.bytes() == bytes => "these bytes",
        Ok(_) => "other bytes",
        Err(Or::Bad(TargetFault::Empty)) => "empty",
        Err(Or::Bad(TargetFault::TooLong)) => "too long",
        Err(Or::Bad(TargetFault::Nul)) => "nul",
        Err(Or::OutOfMemory) => "out of memory",
    }
}

// A copy of the target that keeps room.
fn with_room(alloc: Global, bytes: &[u8]) -> Result<Target, Or<TargetFault>> {
    let target = Target::with_room(alloc, bytes)?;
    Ok(target.copy(alloc)?)
}

// What comes of the bytes as a target, and as one that keeps room.
fn target_told(alloc: Global, bytes: &[u8]) -> &'static str {
    let word = held(Target::parse(alloc, bytes), bytes);
    if held(with_room(alloc, bytes), bytes) == word {
        word
    } else {
        "they differ"
    }
}

// Steps of the path `usr/bin`.
#[derive(Drop)]
struct Steps;

impl Player for Steps {
    fn answer<R: Abort>(&mut self, rt: &R, alloc: Global, call: &str) -> Vec<u8> {
        told(rt, alloc, step_told(&read_step(rt, alloc, call)).as_bytes())
    }
}

// Targets: how many `x` stand before which bytes.
#[derive(Drop)]
struct Targets;

impl Player for Targets {
    fn answer<R: Abort>(&mut self, rt: &R, alloc: Global, call: &str) -> Vec<u8> {
        let (count, behind) = first(call);
        let bytes = long(rt, alloc, number(rt, count), behind);
        told(rt, alloc, target_told(alloc, &bytes).as_bytes())
    }
}

const STEPS: &str = "
gone usr/bin -> Gone
fresh 0755 usr/bin -> Fresh
mode 0700 usr/bin -> Mode
put 0 0644 usr/bin -> Put
link usr/bin ../sbin -> Link
hard usr/bin usr/sbin -> Hard
";

const TARGETS: &str = "
0 ../lib/libc.so.1 -> these bytes
0 / -> these bytes
0 . -> these bytes
# no UTF-8
0 %ff%01 -> these bytes
0 nothing -> empty
# a NUL, which a folder can hold and no system takes
0 %00 -> nul
0 a%00 -> nul
# the longest
4095 nothing -> these bytes
4096 nothing -> too long
4095 %00 -> too long
";

#[test]
fn steps_tell_their_path_and_sort(rt: HostRuntime) {
    play(&rt, rt.alloc(), &mut Steps, STEPS, 6);
}

#[test]
fn reads_targets_and_tells_the_first_fault(rt: HostRuntime) {
    play(&rt, rt.alloc(), &mut Targets, TARGETS, 10);
}

// Sets a target again and again; where that fails it stays as it was.
fn set(rt: &impl Abort, target: &mut Target, longest: &[u8])
    requires { 4095 ≤ target.old.room }
{
    assert!(rt; target.set(longest).is_ok());
    assert!(rt; target.bytes() == longest);
    assert!(rt; target.set(b"c").is_ok());
    assert!(rt; matches!(target.set(b"d\0"), Err(TargetFault::Nul)));
    assert!(rt; target.bytes() == b"c".as_slice());
    assert!(rt; matches!(target.set(b""), Err(TargetFault::Empty)));
    assert!(rt; target.bytes() == b"c".as_slice());
}

#[test]
fn sets_a_target_that_keeps_room(rt: HostRuntime) {
    let alloc = rt.alloc();
    let longest = long(&rt, alloc, 4095, "nothing");
    let mut target = Target::with_room(alloc, b"a").ok().expect(&rt, "no fault");
    set(&rt, &mut target, &longest);
}
