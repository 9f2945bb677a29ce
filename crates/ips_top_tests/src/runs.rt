//! What a table asks of its rows: each is asked of the world that the rows above it left.

use crate::rows::{column, expanded, number, row_of};
use crate::world::*;
use ips_folder::{Choice, Stop};
use std::alloc::Global;
use std::process::Abort;

// The number of a run's status, and its report; `part` tells that the report isn't told whole.
fn run_told(
    rt: &impl Abort,
    alloc: Global,
    world: &mut World,
    line: &str,
    mishap: Mishap,
) -> String {
    let ended = run_line(rt, alloc, world, line, mishap);
    let whole = if ended.is_told { "" } else { "part " };
    let (number, taken) = (ended.number, ended.taken.as_str());
    format!(in alloc; "{number} {whole}{taken:?}").expect(rt, "memory")
}

// The number of the status of a run on the image `i` and the repository `r`, and the last line of its report.
fn done_told(rt: &impl Abort, alloc: Global, world: &mut World, command: &str) -> String {
    let line = format!(in alloc; "-R i -s r {command}").expect(rt, "memory");
    let ended = run_line(rt, alloc, world, line.as_str(), NONE);
    let last = ended.taken.as_str().lines().last().unwrap_or("nothing");
    let number = ended.number;
    format!(in alloc; "{number} {last}").expect(rt, "memory")
}

// What is left of the names that a stopped run touched.
fn choice_of(rt: &impl Abort, word: &str) -> Choice {
    match word {
        "before" => Choice::Before,
        "after" => Choice::After,
        "gone" => Choice::Gone,
        "junk" => Choice::Junk,
        "torn" => Choice::Torn,
        _ => panic!(rt; "no choice"),
    }
}

/// What happens to a run: the word tells to what.
pub fn mishap_of(rt: &impl Abort, word: &str, call: u64) -> Mishap {
    match word {
        "source" => Mishap {
            source: call,
            ..NONE
        },
        "folder" => Mishap {
            folder: call,
            ..NONE
        },
        "spawner" => Mishap {
            spawner: call,
            ..NONE
        },
        "sink" => Mishap { sink: call, ..NONE },
        choice => Mishap {
            stop: Some(Stop {
                call,
                choice: choice_of(rt, choice),
            }),
            ..NONE
        },
    }
}

/// What is told of a row: of a run, to which nothing or something happens, of what it ran or how many steps it laid, or of what stands at a path; or nothing, where
/// something is put into the repository or the image or taken away, or an actuator's status is set.
pub fn told(rt: &impl Abort, alloc: Global, world: &mut World, row: &str) -> String {
    let first = column(row, 1);
    let second = column(row, 2);
    match column(row, 0) {
        "run" => run_told(rt, alloc, world, first, NONE),
        "does" => done_told(rt, alloc, world, first),
        "with" => {
            let (word, call) = second.split_once(' ').expect(rt, "a call");
            run_told(
                rt,
                alloc,
                world,
                first,
                mishap_of(rt, word, number(rt, call)),
            )
        }
        "ran" => ran_told(rt, alloc, world),
        "laid" => {
            let laid = world.laid();
            format!(in alloc; "{laid}").expect(rt, "memory")
        }
        "look" => look_told(rt, alloc, world, first),
        "same" => same_told(rt, alloc, world, first, second),
        question => {
            change(rt, alloc, world, question, first, second);
            String::new(alloc)
        }
    }
}

// Changes the world as a row says.
fn change(
    rt: &impl Abort,
    alloc: Global,
    world: &mut World,
    question: &str,
    first: &str,
    second: &str,
) {
    match question {
        "begin" => begin(rt, alloc, world),
        "package" => put_package(rt, alloc, world, first, second),
        "many" => put_many(rt, alloc, world, first, number(rt, second)),
        "catalog" => put_catalog(rt, alloc, world, first),
        "crowd" => crowd(rt, alloc, world, number(rt, first)),
        "stock" => stock(rt, alloc, world, first, second),
        "swell" => swell(rt, alloc, world, first, number(rt, second)),
        "lose" => lose(rt, alloc, world, first),
        "put" => put(rt, alloc, world, first, second),
        "link" => put_link(rt, alloc, world, first, second),
        "hard" => put_hard(rt, alloc, world, first, second),
        "dir" => put_dir(rt, alloc, world, first),
        "other" => put_other(rt, alloc, world, first),
        "mode" => put_mode(rt, alloc, world, first, second),
        "foreign" => mark(rt, alloc, world, first),
        "remove" => remove(rt, alloc, world, first),
        "status" => set_status(
            world,
            u8::try_from(number(rt, first)).ok().expect(rt, "a status"),
        ),
        _ => panic!(rt; "no question"),
    }
}

/// How many rows a table has, each of which is told as it says.
pub fn rows_told(rt: &impl Abort, alloc: Global, world: &mut World, table: &str) -> u32 {
    let mut rows = 0u32;
    for line in table.lines() {
        let line = expanded(rt, alloc, line);
        if let Some((row, want)) = row_of(line.as_str()) {
            let told = told(rt, alloc, world, row);
            assert!(rt; told.as_str() == want, "{row}: {told}, and not {want}");
            rows = rows.saturating_add(1);
        }
    }
    rows
}
