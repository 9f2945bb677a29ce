//! What a table asks of its rows: each is asked of the world that the rows above it left.

use crate::rows::{bytes_of, column, number, row_of};
use crate::world::*;
use ips_folder::{Choice, Stop};
use ips_outside::Tree;
use std::alloc::Global;
use std::process::Abort;

// The number of a run's status, and its report; `part` tells that the report isn't told whole.
fn run_told(rt: &impl Abort, alloc: Global, ended: Run) -> String {
    let whole = if ended.is_told { "" } else { "part " };
    let (number, taken) = (ended.number, ended.taken.as_str());
    format!(in alloc; "{number} {whole}{taken:?}").expect(rt, "memory")
}

/// Words that send this from the folder of what is published to the repository.
pub fn line_of(rt: &impl Abort, alloc: Global, request: &str) -> String {
    format!(in alloc; "send -s r -d p {request}").expect(rt, "memory")
}

// What is told of a request, to which this happens.
fn sent_told(
    rt: &impl Abort,
    alloc: Global,
    world: &mut World,
    request: &str,
    mishap: Mishap,
) -> String {
    let line = line_of(rt, alloc, request);
    let ended = send_line(rt, alloc, world, line.as_str(), mishap);
    run_told(rt, alloc, ended)
}

// The number of the status of a command on the image, and the last line of its report.
fn done_told(rt: &impl Abort, alloc: Global, world: &mut World, command: &str) -> String {
    let line = format!(in alloc; "-R i -s r {command}").expect(rt, "memory");
    let ended = run_line(rt, alloc, world, line.as_str());
    let last = ended.taken.as_str().lines().last().unwrap_or("nothing");
    let number = ended.number;
    format!(in alloc; "{number} {last}").expect(rt, "memory")
}

/// The stop of this number, counted from 0: five are at each call, of which the first leaves what the last sync made sure of.
pub fn stop_of(number: u64) -> Mishap {
    let choice = match number % 5 {
        0 => Choice::Before,
        1 => Choice::After,
        2 => Choice::Gone,
        3 => Choice::Junk,
        _ => Choice::Torn,
    };
    let call = (number / 5).saturating_add(1);
    Mishap {
        stop: Some(Stop { call, choice }),
        ..NONE
    }
}

// What happens to a run: the word tells to what.
fn mishap_of(rt: &impl Abort, word: &str, call: u64) -> Mishap {
    match word {
        "source" => Mishap {
            source: call,
            ..NONE
        },
        "folder" => Mishap {
            folder: call,
            ..NONE
        },
        "sink" => Mishap { sink: call, ..NONE },
        _ => panic!(rt; "no mishap"),
    }
}

/// What is told of a row: of a run, to which nothing or something happens, or of what stands at a path; or nothing, where something is put somewhere or taken away.
pub fn told(rt: &impl Abort, alloc: Global, world: &mut World, row: &str) -> String {
    let first = column(row, 1);
    let second = column(row, 2);
    match column(row, 0) {
        "words" => {
            let ended = send_line(rt, alloc, world, first, NONE);
            run_told(rt, alloc, ended)
        }
        "send" => sent_told(rt, alloc, world, first, NONE),
        "with" => {
            let (word, call) = second.split_once(' ').expect(rt, "a call");
            let mishap = mishap_of(rt, word, number(rt, call));
            sent_told(rt, alloc, world, first, mishap)
        }
        "does" => done_told(rt, alloc, world, first),
        "look" => look_told(rt, alloc, &world.repo, first),
        "held" => held_told(rt, alloc, &world.repo, first),
        "image" => look_told(rt, alloc, &world.image, first),
        question => {
            change(rt, alloc, world, question, first, second);
            String::new(alloc)
        }
    }
}

// Changes the world as a row says.
fn change(
    rt: &impl Abort,
    alloc: Global,
    world: &mut World,
    question: &str,
    first: &str,
    second: &str,
) {
    match question {
        "begin" => world.repo = Tree::new(alloc),
        "proto" => {
            let bytes = bytes_of(rt, alloc, second);
            put(rt, alloc, &mut world.proto, first, &bytes);
        }
        "lose" => remove(rt, alloc, &mut world.proto, first),
        "swell" => {
            let count = usize::try_from(number(rt, second))
                .ok()
                .expect(rt, "a size");
            let bytes = vec![in alloc; b'#'; count].expect(rt, "memory");
            put(rt, alloc, &mut world.proto, first, &bytes);
        }
        "put" => {
            let bytes = bytes_of(rt, alloc, second);
            put(rt, alloc, &mut world.repo, first, &bytes);
        }
        "link" => put_link(rt, alloc, &mut world.repo, first),
        "remove" => remove(rt, alloc, &mut world.repo, first),
        _ => panic!(rt; "no question"),
    }
}

/// How many rows a table has, each of which is told as it says.
pub fn rows_told(rt: &impl Abort, alloc: Global, world: &mut World, table: &str) -> u32 {
    let mut rows = 0u32;
    for line in table.lines() {
        if let Some((row, want)) = row_of(line) {
            let told = told(rt, alloc, world, row);
            assert!(rt; told.as_str() == want, "{row}: {told}, and not {want}");
            rows = rows.saturating_add(1);
        }
    }
    rows
}
