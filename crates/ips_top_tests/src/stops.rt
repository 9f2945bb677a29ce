//! Commands that are stopped at each call, with each choice of what is left, and the fixes behind them.

use crate::faults::{before, is_open, stop_of};
use crate::packages::bare;
use crate::rows::{column, row_of};
use crate::runs::rows_told;
use crate::world::*;
use std::alloc::Global;
use std::process::Abort;

// A row has a command, a path, and what is told before the command, of the list of packages and of the path; behind `->` stands what is told of them
// behind it.

const CHANGES: &str = r#"
install hello | usr/share/hello | "x@1\n" absent -> "hello@1.0,5.11-1:20240102T030405Z\nx@1\n" file 644 "abc"
uninstall x | bin/a | "x@1\n" file 644 "abc" -> "" absent
uninstall x | bin/b | "x@1\n" file 644 "abc" -> "" absent
"#;

// A damage, which the last fix repairs where the one that was stopped didn't.
const REPAIRS: &str = r#"
fix | bin/a | "x@1\n" file 644 "abc" -> "x@1\n" file 644 "abc"
"#;

const FORMATS: &str = r#"
update-format | var/pkg/image | "a@1\n" file 644 "image 1\npublisher test\n" -> "a@1\n" file 644 "image 2\npublisher test\n"
"#;

/// An image whose records are of the first format.
pub const FIRST_FORMAT: &str = "
put | var/pkg/image | image 1%0apublisher test%0a ->
put | var/pkg/installed | a@1%0a ->
put | var/pkg/manifests/a | dir group=bin mode=0755 owner=root path=a%0a ->
put | var/pkg/avoid | ->
put | var/pkg/freeze | ->
put | var/pkg/mediators | ->
put | var/pkg/history | ->
put | var/pkg/owners | 0 2 root bin a%0a ->
put | var/pkg/drivers | ->
dir | a ->";

/// The report of a command.
pub fn report(rt: &impl Abort, alloc: Global, world: &mut World, command: &str) -> String {
    let line = format!(in alloc; "-R i -s r {command}").expect(rt, "memory");
    run_line(rt, alloc, world, line.as_str(), NONE).taken
}

// Whether the command of a row is stopped by the stop of this number.
fn is_stopped(rt: &impl Abort, alloc: Global, world: &mut World, row: &str, number: u64) -> bool {
    let command = column(row, 0);
    let line = format!(in alloc; "-R i -s r {command}").expect(rt, "memory");
    run_line(rt, alloc, world, line.as_str(), stop_of(number)).number != 0
}

// What was stopped is fixed twice, where a fix can be: the first goes forward exactly from an open gate, and leaves the second nothing to do. The image is that behind the
// command, or, where that isn't due and the gate was closed, that before it.
fn check_end(
    rt: &impl Abort,
    alloc: Global,
    world: &mut World,
    row: &str,
    want: &str,
    is_due: bool,
) {
    let is_open = is_open(rt, alloc, world);
    let fixed = report(rt, alloc, world, "fix");
    assert!(rt;
        is_open == (fixed.as_str() == "recovered: new image\n"),
        "{row}: {fixed}"
    );
    let again = report(rt, alloc, world, "fix");
    assert!(rt;
        !is_open || again.as_str() == "nothing to do\n",
        "{row}: {again}"
    );
    let list = report(rt, alloc, world, "list");
    let verify = report(rt, alloc, world, "verify");
    assert!(rt; verify.as_str() == "ok\n", "{row}: {verify}");
    let look = look_told(rt, alloc, world, column(row, 1));
    let told = format!(in alloc; "{list:?} {look}").expect(rt, "memory");
    let is_old = !is_due && !is_open && told.as_str() == column(row, 2);
    assert!(rt; is_old || told.as_str() == want, "{row}: {told}");
}

// How often the command of a row is stopped: at each call, with each choice. What it means is due from the first stop on that leaves a gate which was made sure of.
fn stops(rt: &impl Abort, alloc: Global, world: &mut World, row: &str, want: &str) -> u64 {
    let image = held(rt, alloc, world);
    let mut is_due = false;
    for number in 0..1000u64 {
        restore(rt, alloc, world, &image);
        if !is_stopped(rt, alloc, world, row, number) {
            restore(rt, alloc, world, &image);
            assert!(rt; is_due, "{row}: never due");
            return number;
        }
        is_due = is_due || number % 5 == 0 && is_open(rt, alloc, world);
        check_end(rt, alloc, world, row, want, is_due);
    }
    0
}

// How many rows a table has, whose commands are stopped more than three hundred times.
fn rows_stopped(rt: &impl Abort, alloc: Global, world: &mut World, table: &str) -> u32 {
    let mut rows = 0u32;
    for line in table.lines() {
        if let Some((row, want)) = row_of(line) {
            let number = stops(rt, alloc, world, row, want);
            assert!(rt; number > 300, "{row}: {number} stops");
            rows = rows.saturating_add(1);
        }
    }
    rows
}

#[test]
fn a_stopped_command_is_undone_or_done(rt: HostRuntime) {
    let alloc = rt.alloc();
    let mut world = before(&rt, alloc);
    let rows = rows_stopped(&rt, alloc, &mut world, CHANGES);
    assert!(rt; rows == 3, "{rows} rows");
}

#[test]
fn a_stopped_repair_is_repeated(rt: HostRuntime) {
    let alloc = rt.alloc();
    let mut world = before(&rt, alloc);
    remove(&rt, alloc, &mut world, "bin/a");
    let rows = rows_stopped(&rt, alloc, &mut world, REPAIRS);
    assert!(rt; rows == 1, "{rows} rows");
}

#[test]
fn a_stopped_change_of_format_is_undone_or_done(rt: HostRuntime) {
    let alloc = rt.alloc();
    let mut world = World::new(alloc, bare(&rt, alloc));
    let rows = rows_told(&rt, alloc, &mut world, FIRST_FORMAT);
    assert!(rt; rows == 10, "{rows} rows");
    let rows = rows_stopped(&rt, alloc, &mut world, FORMATS);
    assert!(rt; rows == 1, "{rows} rows");
}
