//! Commands of which one call fails: each call on the image, on the repository, on the spawner and on the sink, alone; and the fixes behind it.

use crate::faults::{is_open, report_of};
use crate::packages::bare;
use crate::rows::{column, row_of};
use crate::runs::{mishap_of, rows_told};
use crate::stops::{FIRST_FORMAT, report};
use crate::world::*;
use std::alloc::Global;
use std::process::Abort;

// An image with a package of each sort of actuator, one that a facet and a variant change, and a line in each list.
const IMAGE: &str = "
does | image-create -p test --actuator run -> 0 done
package | p@1 | file $abc path=p $file; driver name=p1 disable_fmri=svc:/a ->
package | p@2 | file $none path=p $file; driver name=p2 restart_fmri=svc:/b ->
package | q@1 | file $abc path=q $file ->
package | r@1 | file $abc path=r facet.doc=true $file; file $none path=s variant.arch=sparc $file ->
catalog | p 1 2; q 1; r 1 ->
put | var/pkg/image | image 2%0apublisher test%0aactuator run%0avariant variant.arch i386%0a ->
does | install p@1 r -> 0 done
does | avoid w -> 0 done
does | freeze f@1 -> 0 done
does | set-mediator -V 3 m -> 0 done
does | set-publisher b -> 0 done";

// A row has a command, a path, and what is told before the command, of the list of packages and of the path; behind `->` stands what is told of them
// behind it.

const PACKAGES: &str = r#"
install q | q | "p@1\nr@1\n" absent -> "p@1\nq@1\nr@1\n" file 644 "abc"
update | p | "p@1\nr@1\n" file 644 "abc" -> "p@2\nr@1\n" file 644 ""
uninstall p | p | "p@1\nr@1\n" file 644 "abc" -> "r@1\n" absent
change-facet facet.doc=false | r | "p@1\nr@1\n" file 644 "abc" -> "p@1\nr@1\n" absent
change-variant variant.arch=sparc | s | "p@1\nr@1\n" absent -> "p@1\nr@1\n" file 644 ""
"#;

const LISTS: &str = r#"
avoid v | var/pkg/avoid | "p@1\nr@1\n" file 644 "w\n" -> "p@1\nr@1\n" file 644 "v\nw\n"
unavoid w | var/pkg/avoid | "p@1\nr@1\n" file 644 "w\n" -> "p@1\nr@1\n" file 644 ""
freeze g@1 | var/pkg/freeze | "p@1\nr@1\n" file 644 "f@1\n" -> "p@1\nr@1\n" file 644 "f@1\ng@1\n"
unfreeze f | var/pkg/freeze | "p@1\nr@1\n" file 644 "f@1\n" -> "p@1\nr@1\n" file 644 ""
set-mediator -V 4 m | var/pkg/mediators | "p@1\nr@1\n" file 644 "m 3 -\n" -> "p@1\nr@1\n" file 644 "m 4 -\n"
unset-mediator m | var/pkg/mediators | "p@1\nr@1\n" file 644 "m 3 -\n" -> "p@1\nr@1\n" file 644 ""
set-publisher c | var/pkg/image | "p@1\nr@1\n" file 644 "image 2\npublisher test\norigin test sticky\norigin b sticky\nactuator run\nvariant variant.arch i386\n" -> "p@1\nr@1\n" file 644 "image 2\npublisher test\norigin test sticky\norigin b sticky\norigin c sticky\nactuator run\nvariant variant.arch i386\n"
unset-publisher b | var/pkg/image | "p@1\nr@1\n" file 644 "image 2\npublisher test\norigin test sticky\norigin b sticky\nactuator run\nvariant variant.arch i386\n" -> "p@1\nr@1\n" file 644 "image 2\npublisher test\norigin test sticky\nactuator run\nvariant variant.arch i386\n"
rebuild-index | var/pkg/index | "p@1\nr@1\n" absent -> "p@1\nr@1\n" file 644 "index 1\na9993e364706816aba3e25717850c26c9cd0d89d payload file a9993e364706816aba3e25717850c26c9cd0d89d p\na9993e364706816aba3e25717850c26c9cd0d89d payload file a9993e364706816aba3e25717850c26c9cd0d89d r\nda39a3ee5e6b4b0d3255bfef95601890afd80709 payload file da39a3ee5e6b4b0d3255bfef95601890afd80709 r\np path file p p\np1 name driver p1 p\nr path file r r\ns path file s r\n"
"#;

// A damage, which the last fix repairs where the one that fails didn't.
const REPAIRS: &str = r#"
fix | q | "q@1\n" file 644 "abc" -> "q@1\n" file 644 "abc"
"#;

const FORMATS: &str = r#"
update-format | var/pkg/image | "a@1\n" file 644 "image 1\npublisher test\n" -> "a@1\n" file 644 "image 2\npublisher test\n"
"#;

// What a run may tell that changed nothing.
const UNCHANGED: [&str; 4] = [
    "folder fault: unchanged\n",
    "folder fault: unfinished\n",
    "source fault\n",
    "spawn fault before\n",
];

// What one may tell that changed all that it was to change, before the fixes or by them; `part` where the report isn't told whole.
const CHANGED: [&str; 3] = ["folder fault: unfinished\n", "spawn fault after\n", "part"];

// What is told of the image of a row: its packages, and what stands at the row's path.
fn seen(rt: &impl Abort, alloc: Global, world: &mut World, row: &str) -> String {
    let list = report(rt, alloc, world, "list");
    let look = look_told(rt, alloc, world, column(row, 1));
    format!(in alloc; "{list:?} {look}").expect(rt, "memory")
}

fn is_one_of(told: &str, known: &[&str]) -> bool {
    known.iter().any(|it| told == *it)
}

// Behind two fixes the image of a row is that from before the command or that behind it, as the fault tells; exactly an open gate leads the first fix to the latter.
fn check_fault(
    rt: &impl Abort,
    alloc: Global,
    world: &mut World,
    row: &str,
    want: &str,
    fault: &str,
) {
    let is_open = is_open(rt, alloc, world);
    let fixed = report(rt, alloc, world, "fix");
    assert!(rt;
        is_open == (fixed.as_str() == "recovered: new image\n"),
        "{row}: {fault}: {fixed}"
    );
    let _ = report(rt, alloc, world, "fix");
    let verify = report(rt, alloc, world, "verify");
    assert!(rt; verify.as_str() == "ok\n", "{row}: {fault}: {verify}");
    let seen = seen(rt, alloc, world, row);
    let is_old = !is_open && is_one_of(fault, &UNCHANGED) && seen.as_str() == column(row, 2);
    let is_new = is_one_of(fault, &CHANGED) && seen.as_str() == want;
    assert!(rt; is_old || is_new, "{row}: {fault}: {seen}");
}

// Whether the call of this mishap was made by the command of a row, and failed.
fn is_failed(
    rt: &impl Abort,
    alloc: Global,
    world: &mut World,
    row: &str,
    want: &str,
    mishap: Mishap,
) -> bool {
    let command = column(row, 0);
    let line = format!(in alloc; "-R i -s r {command}").expect(rt, "memory");
    let run = run_line(rt, alloc, world, line.as_str(), mishap);
    if run.number == 0 {
        let seen = seen(rt, alloc, world, row);
        assert!(rt; seen.as_str() == want, "{row}: {seen}");
        return false;
    }
    check_fault(rt, alloc, world, row, want, report_of(&run));
    true
}

// The first call on this thing that the command of a row doesn't make; each before it is made to fail, alone.
fn failed(
    rt: &impl Abort,
    alloc: Global,
    world: &mut World,
    row: &str,
    want: &str,
    thing: &str,
) -> u64 {
    let image = held(rt, alloc, world);
    for call in 1..300u64 {
        let is_failed = is_failed(rt, alloc, world, row, want, mishap_of(rt, thing, call));
        restore(rt, alloc, world, &image);
        if !is_failed {
            return call;
        }
    }
    0
}

// Each call of the command of a row is made to fail; each command makes some on the image, and one on the sink.
fn check_calls(rt: &impl Abort, alloc: Global, world: &mut World, row: &str, want: &str) {
    for (thing, least) in [
        ("folder", 30u64),
        ("source", 0),
        ("spawner", 0),
        ("sink", 1),
    ] {
        let calls = failed(rt, alloc, world, row, want, thing);
        assert!(rt; calls > least, "{row}: {calls} calls on the {thing}");
    }
}

// How many rows a table has, each call of whose commands is made to fail.
fn rows_failed(rt: &impl Abort, alloc: Global, world: &mut World, table: &str) -> u32 {
    let mut rows = 0u32;
    for line in table.lines() {
        if let Some((row, want)) = row_of(line) {
            check_calls(rt, alloc, world, row, want);
            rows = rows.saturating_add(1);
        }
    }
    rows
}

// The image of the rows.
fn image_of(rt: &impl Abort, alloc: Global) -> World {
    let mut world = World::new(alloc, bare(rt, alloc));
    let rows = rows_told(rt, alloc, &mut world, IMAGE);
    assert!(rt; rows == 12, "{rows} rows");
    world
}

#[test]
fn each_call_of_a_change_of_packages_fails_alone(rt: HostRuntime) {
    let alloc = rt.alloc();
    let mut world = image_of(&rt, alloc);
    let rows = rows_failed(&rt, alloc, &mut world, PACKAGES);
    assert!(rt; rows == 5, "{rows} rows");
}

#[test]
fn each_call_of_a_change_of_lists_fails_alone(rt: HostRuntime) {
    let alloc = rt.alloc();
    let mut world = image_of(&rt, alloc);
    let rows = rows_failed(&rt, alloc, &mut world, LISTS);
    assert!(rt; rows == 9, "{rows} rows");
}

#[test]
fn each_call_of_a_repair_fails_alone(rt: HostRuntime) {
    let alloc = rt.alloc();
    let mut world = image_of(&rt, alloc);
    for command in ["uninstall p r", "install q"] {
        let _ = report(&rt, alloc, &mut world, command);
    }
    remove(&rt, alloc, &mut world, "q");
    let rows = rows_failed(&rt, alloc, &mut world, REPAIRS);
    assert!(rt; rows == 1, "{rows} rows");
}

#[test]
fn each_call_of_a_change_of_format_fails_alone(rt: HostRuntime) {
    let alloc = rt.alloc();
    let mut world = World::new(alloc, bare(&rt, alloc));
    let rows = rows_told(&rt, alloc, &mut world, FIRST_FORMAT);
    assert!(rt; rows == 10, "{rows} rows");
    let rows = rows_failed(&rt, alloc, &mut world, FORMATS);
    assert!(rt; rows == 1, "{rows} rows");
}
