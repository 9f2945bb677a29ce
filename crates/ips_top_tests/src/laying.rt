//! Journals behind an open gate, laid by a fix: each sort of step at each sort of entry.

use crate::packages::bare;
use crate::rows::{column, row_of};
use crate::runs::{mishap_of, rows_told};
use crate::world::*;
use std::alloc::Global;
use std::process::Abort;

// A directory with a file below it, a file with a second name, a symbolic link, something else, and one content.
const STANDING: &str = "
dir | d ->
put | d/f | f ->
put | x | old ->
mode | x | 600 ->
hard | y | x ->
link | l | t ->
other | o ->
put | var/pkg/stage/0 | hello ->
put | var/pkg/gate | 1 ->";

// The steps of a journal and some paths: how a fix ends, how many steps it lays, and what then stands at the paths.
const LAID: &str = r#"
# each sort of step takes the place of each entry: what stands afterwards, whatever stood there, and the file `y`
gone d | d y -> 0 recovered: new image, 1 laid; absent; file 600 "old"
fresh 0750 d | d y -> 0 recovered: new image, 1 laid; dir 750; file 600 "old"
put 0 0640 d | d y -> 0 recovered: new image, 1 laid; file 640 "hello"; file 600 "old"
link d t | d y -> 0 recovered: new image, 1 laid; link "t"; file 600 "old"
hard d y | d y -> 0 recovered: new image, 1 laid; file 600 "old"; file 600 "old"
gone x | x y -> 0 recovered: new image, 1 laid; absent; file 600 "old"
fresh 0750 x | x y -> 0 recovered: new image, 1 laid; dir 750; file 600 "old"
put 0 0640 x | x y -> 0 recovered: new image, 1 laid; file 640 "hello"; file 600 "old"
link x t | x y -> 0 recovered: new image, 1 laid; link "t"; file 600 "old"
hard x y | x y -> 0 recovered: new image, 1 laid; file 600 "old"; file 600 "old"
gone l | l y -> 0 recovered: new image, 1 laid; absent; file 600 "old"
fresh 0750 l | l y -> 0 recovered: new image, 1 laid; dir 750; file 600 "old"
put 0 0640 l | l y -> 0 recovered: new image, 1 laid; file 640 "hello"; file 600 "old"
link l t | l y -> 0 recovered: new image, 1 laid; link "t"; file 600 "old"
hard l y | l y -> 0 recovered: new image, 1 laid; file 600 "old"; file 600 "old"
gone o | o y -> 0 recovered: new image, 1 laid; absent; file 600 "old"
fresh 0750 o | o y -> 0 recovered: new image, 1 laid; dir 750; file 600 "old"
put 0 0640 o | o y -> 0 recovered: new image, 1 laid; file 640 "hello"; file 600 "old"
link o t | o y -> 0 recovered: new image, 1 laid; link "t"; file 600 "old"
hard o y | o y -> 0 recovered: new image, 1 laid; file 600 "old"; file 600 "old"
gone n | n y -> 0 recovered: new image, 1 laid; absent; file 600 "old"
fresh 0750 n | n y -> 0 recovered: new image, 1 laid; dir 750; file 600 "old"
put 0 0640 n | n y -> 0 recovered: new image, 1 laid; file 640 "hello"; file 600 "old"
link n t | n y -> 0 recovered: new image, 1 laid; link "t"; file 600 "old"
hard n y | n y -> 0 recovered: new image, 1 laid; file 600 "old"; file 600 "old"
# an impossible step ends the run and changes nothing, and the steps before it are finished
# nothing, a file and a link stand above
gone o, fresh 0750 n/a, gone l | o l -> 1 bad journal line 3, 1 laid; absent; link "t"
gone o, link x/a t, gone l | o l -> 1 bad journal line 3, 1 laid; absent; link "t"
gone o, mode 0711 l/a, gone l | o l -> 1 bad journal line 3, 1 laid; absent; link "t"
# nothing stands at the target
gone o, hard m n, gone l | o l -> 1 bad journal line 3, 1 laid; absent; link "t"
# the target is no file
gone o, hard m d, gone l | o l -> 1 bad journal line 3, 1 laid; absent; link "t"
# the target goes with what stands at the path
gone o, hard d d/f, gone l | o l -> 1 bad journal line 3, 1 laid; absent; link "t"
# a mode is set where one stands, also at the other name of a file, and nothing is made again
mode 0711 d | d y d/f -> 0 recovered: new image, 1 laid; dir 711; file 600 "old"; file 644 "f"
mode 0711 x | x y d/f -> 0 recovered: new image, 1 laid; file 711 "old"; file 711 "old"; file 644 "f"
mode 0711 l | l y d/f -> 0 recovered: new image, 1 laid; link "t"; file 600 "old"; file 644 "f"
mode 0711 o | o y d/f -> 0 recovered: new image, 1 laid; other; file 600 "old"; file 644 "f"
mode 0711 n | n y d/f -> 0 recovered: new image, 1 laid; absent; file 600 "old"; file 644 "f"
# a hard link whose target is laid before it; the first kind that takes the put counts it
put 0 0640 y, hard x y | x -> 0 recovered: new image, 2 laid; file 640 "hello"
"#;

// A list with a step of each sort, and some paths: what the fix leaves that isn't stopped, behind one of which a call fails.
const FAILING: &str = r#"
gone d, fresh 0750 e, mode 0711 x, put 0 0640 o, link n t, hard l y | o l x d -> file 640 "hello"; file 711 "old"; file 711 "old"; absent
"#;

// Puts what stands, and the journal of these steps.
fn put_standing(rt: &impl Abort, alloc: Global, world: &mut World, steps: &str) {
    begin(rt, alloc, world);
    let _ = rows_told(rt, alloc, world, STANDING);
    let mut text = String::from_str(alloc, "journal 1%0a").expect(rt, "memory");
    let mut count = 0u64;
    for step in steps.split(", ") {
        write!(text, "{step}%0a").expect(rt, "memory");
        count = count.saturating_add(1);
    }
    write!(text, "end {count}%0a").expect(rt, "memory");
    put(rt, alloc, world, "var/pkg/journal", text.as_str());
}

// What stands at the paths.
fn looks(rt: &impl Abort, alloc: Global, world: &World, paths: &str) -> String {
    let mut told = String::new(alloc);
    for path in paths.split(' ') {
        let between = if told.is_empty() { "" } else { "; " };
        let look = look_told(rt, alloc, world, path);
        write!(told, "{between}{look}").expect(rt, "memory");
    }
    told
}

// How a fix ends to which this happens, and how many steps it lays.
fn fix_told(rt: &impl Abort, alloc: Global, world: &mut World, mishap: Mishap) -> String {
    let fix = run_line(rt, alloc, world, "-R i -s r fix", mishap);
    let (number, last, laid) = (
        fix.number,
        fix.taken.as_str().lines().last().unwrap_or("nothing"),
        world.laid(),
    );
    format!(in alloc; "{number} {last}, {laid} laid").expect(rt, "memory")
}

#[test]
fn each_sort_of_step_is_laid_at_each_entry(rt: HostRuntime) {
    let alloc = rt.alloc();
    let mut world = World::new(alloc, bare(&rt, alloc));
    let mut rows = 0u32;
    for line in LAID.lines() {
        if let Some((row, want)) = row_of(line) {
            put_standing(&rt, alloc, &mut world, column(row, 0));
            let fix = fix_told(&rt, alloc, &mut world, NONE);
            let looks = looks(&rt, alloc, &world, column(row, 1));
            let told = format!(in alloc; "{fix}; {looks}").expect(&rt, "memory");
            assert!(rt; told.as_str() == want, "{row}: {told}, and not {want}");
            rows = rows.saturating_add(1);
        }
    }
    assert!(rt; rows == 37, "{rows} rows");
}

// How often a fix of a row fails, at each of its calls: the fix behind it goes forward or clears what is left, or finds nothing pending, and so no image to repair;
// the image is the one that is meant. The journal is read first, so nothing is changed or laid where one of the first calls fails.
fn fails(rt: &impl Abort, alloc: Global, world: &mut World, row: &str, want: &str) -> u64 {
    let mut unchanged = 0u64;
    for call in 1..100u64 {
        put_standing(rt, alloc, world, column(row, 0));
        let first = fix_told(rt, alloc, world, mishap_of(rt, "folder", call));
        if first.as_str() == "1 folder fault: unchanged, 0 laid" {
            unchanged = unchanged.saturating_add(1);
            assert!(rt; unchanged == call, "{row}, call {call}: {first}");
        }
        let is_done = first.as_str() == "0 recovered: new image, 6 laid";
        let next = fix_told(rt, alloc, world, NONE);
        let is_behind = next.as_str().starts_with("0 recovered: ")
            || next.as_str() == "1 no image, 0 laid";
        let looks = looks(rt, alloc, world, column(row, 1));
        assert!(rt;
            is_behind && looks.as_str() == want,
            "{row}, call {call}: {first}, {next}, {looks}"
        );
        if is_done {
            assert!(rt;
                unchanged > 8,
                "{row}: {unchanged} calls before its first change"
            );
            return call;
        }
    }
    0
}

#[test]
fn a_journal_is_laid_again_behind_a_call_that_fails(rt: HostRuntime) {
    let alloc = rt.alloc();
    let mut world = World::new(alloc, bare(&rt, alloc));
    for line in FAILING.lines() {
        if let Some((row, want)) = row_of(line) {
            let calls = fails(&rt, alloc, &mut world, row, want);
            assert!(rt; calls > 21, "{row}: {calls} calls");
        }
    }
}
