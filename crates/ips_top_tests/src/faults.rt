//! Runs that are stopped, and runs in which a call fails, and the fixes behind them.

use crate::packages::{bare, repository};
use crate::runs::{mishap_of, rows_told};
use crate::world::*;
use ips_folder::{Choice, Stop};
use std::alloc::Global;
use std::process::Abort;

const FIX: &str = "-R i -s r fix";

const UPDATE: &str = "-R i -s r update";

/// An image with the first version of `x`, where the second is offered.
pub fn before(rt: &impl Abort, alloc: Global) -> World {
    let mut world = World::new(alloc, repository(rt, alloc));
    let _ = run_line(
        rt,
        alloc,
        &mut world,
        "-R i -s r image-create -p test",
        NONE,
    );
    let _ = run_line(rt, alloc, &mut world, "-R i -s r install x@1", NONE);
    world
}

// What is left of the names that a stop touches.
fn choice_at(number: u64) -> Choice {
    match number % 5 {
        0 => Choice::Before,
        1 => Choice::After,
        2 => Choice::Gone,
        3 => Choice::Junk,
        _ => Choice::Torn,
    }
}

// A stop at this call.
fn stopped(call: u64, choice: Choice) -> Mishap {
    Mishap {
        stop: Some(Stop { call, choice }),
        ..NONE
    }
}

/// The stop of this number, counted from 0: five are at each call, of which the first leaves what the last sync made sure of.
pub fn stop_of(number: u64) -> Mishap {
    stopped((number / 5).saturating_add(1), choice_at(number))
}

// What is seen of all that an update of `x` changes: its file, one more name of it, whether they are one, its record, and whether the history tells of it.
fn seen(rt: &impl Abort, alloc: Global, world: &World) -> String {
    let file = look_told(rt, alloc, world, "bin/a");
    let other = look_told(rt, alloc, world, "bin/b");
    let same = same_told(rt, alloc, world, "bin/a", "bin/b");
    let record = look_told(rt, alloc, world, "var/pkg/packages/x");
    let front = record.as_str().split("\\n").nth(1).unwrap_or("none");
    let history = look_told(rt, alloc, world, "var/pkg/history");
    let is_written = history.as_str().contains(" update");
    format!(in alloc; "{file} {other} {same} {front} {is_written}").expect(rt, "memory")
}

// A fix, and one more: how they end, and what is then seen.
fn fixed(rt: &impl Abort, alloc: Global, world: &mut World) -> String {
    let fix = run_line(rt, alloc, world, FIX, NONE);
    let again = run_line(rt, alloc, world, FIX, NONE);
    let (seen, first, last) = (
        seen(rt, alloc, world),
        fix.taken.as_str(),
        again.taken.as_str(),
    );
    format!(in alloc; "{seen} {first:?} {last:?}").expect(rt, "memory")
}

// How a story may end.
const ENDINGS: [&str; 5] = [
    r#"file 644 "abc" file 644 "abc" true version 1 false "nothing to do\n" "nothing to do\n""#,
    r#"file 644 "abc" file 644 "abc" true version 1 false "recovered: leftovers cleared\n" "nothing to do\n""#,
    r#"file 644 "" file 644 "" true version 2 true "recovered: new image\n" "nothing to do\n""#,
    r#"file 644 "" file 644 "" true version 2 true "recovered: leftovers cleared\n" "nothing to do\n""#,
    r#"file 644 "" file 644 "" true version 2 true "nothing to do\n" "nothing to do\n""#,
];

/// Whether something stands at the gate.
pub fn is_open(rt: &impl Abort, alloc: Global, world: &World) -> bool {
    look_told(rt, alloc, world, "var/pkg/gate").as_str() != "absent"
}

// The fixes behind a stop end as they may: at the new image where that is due, and exactly an open gate tells so.
fn check_end(rt: &impl Abort, alloc: Global, world: &mut World, is_due: bool) {
    let is_open = is_open(rt, alloc, world);
    let ended = fixed(rt, alloc, world);
    let least = if is_due { 2 } else { 0 };
    let is_known = ENDINGS
        .iter()
        .skip(least)
        .any(|ending| ended.as_str() == *ending);
    assert!(rt; is_known, "{ended}");
    let is_told = ended.as_str().contains("new image");
    assert!(rt; is_open == is_told, "{ended}");
}

// The new image is due from the first stop on that leaves a gate which was made sure of.
#[test]
fn a_stopped_update_is_undone_or_done(rt: HostRuntime) {
    let alloc = rt.alloc();
    let mut world = before(&rt, alloc);
    let image = held(&rt, alloc, &world);
    let mut is_due = false;
    for number in 0..1000u64 {
        restore(&rt, alloc, &mut world, &image);
        if run_line(&rt, alloc, &mut world, UPDATE, stop_of(number)).number == 0 {
            assert!(rt; number > 300 && is_due, "{number} stops");
            return;
        }
        is_due = is_due || number % 5 == 0 && is_open(&rt, alloc, &world);
        check_end(&rt, alloc, &mut world, is_due);
    }
    panic!(rt; "each call is stopped");
}

// A fix is stopped at this call, and so are two more, each with another choice, where they come so far; the fourth isn't. False where the first wasn't stopped.
fn is_fix_stopped_at(
    rt: &impl Abort,
    alloc: Global,
    world: &mut World,
    call: u64,
    is_due: bool,
) -> bool {
    if run_line(rt, alloc, world, FIX, stopped(call, Choice::Gone)).number != 1 {
        return false;
    }
    let _ = run_line(rt, alloc, world, FIX, stopped(call, Choice::Torn));
    let _ = run_line(rt, alloc, world, FIX, stopped(call, Choice::Junk));
    check_end(rt, alloc, world, is_due);
    true
}

// The fixes behind what was stopped are stopped at each of their calls. Answers the first call that a fix doesn't make.
fn fixed_in(rt: &impl Abort, alloc: Global, world: &mut World, is_due: bool) -> u64 {
    let image = held(rt, alloc, world);
    for call in 1..200u64 {
        restore(rt, alloc, world, &image);
        if !is_fix_stopped_at(rt, alloc, world, call, is_due) {
            return call;
        }
    }
    0
}

// The update is stopped at each call, and the fixes behind it at each of theirs. The new image is due where the gate is open.
#[test]
fn a_fix_may_be_stopped_too(rt: HostRuntime) {
    let alloc = rt.alloc();
    let mut world = before(&rt, alloc);
    let image = held(&rt, alloc, &world);
    for call in 1..200u64 {
        restore(&rt, alloc, &mut world, &image);
        let stop = stopped(call, choice_at(call));
        if run_line(&rt, alloc, &mut world, UPDATE, stop).number == 0 {
            assert!(rt; call > 60, "{call} calls");
            return;
        }
        let is_open = is_open(&rt, alloc, &world);
        let calls = fixed_in(&rt, alloc, &mut world, is_open);
        assert!(rt; calls > if is_open { 30 } else { 3 }, "{calls} calls");
    }
    panic!(rt; "each call is stopped");
}

// A call that fails, and a stop at the next one: at each call five, with each choice of what is left.
fn failing(number: u64) -> Mishap {
    let call = (number / 5).saturating_add(1);
    Mishap {
        folder: call,
        ..stopped(call.saturating_add(1), choice_at(number))
    }
}

const UNINSTALL: &str = "-R i -s r uninstall x";

// Behind an update of which a call fails, the first call of an uninstallation fails too: it is told that nothing is changed, and the fixes behind it end
// in one of the ways in which they may behind the update.
#[test]
fn a_run_that_fails_at_once_asks_for_nothing(rt: HostRuntime) {
    let alloc = rt.alloc();
    let mut world = before(&rt, alloc);
    let image = held(&rt, alloc, &world);
    for number in 0..1000u64 {
        restore(&rt, alloc, &mut world, &image);
        let mishap = failing(number);
        let (first, told) = run_both(&rt, alloc, &mut world, UPDATE, UNINSTALL, mishap);
        if first == 0 {
            assert!(rt; number > 300, "{number} calls");
            return;
        }
        assert!(rt; told.as_str() == "folder fault: unchanged\n", "{told}");
        check_end(&rt, alloc, &mut world, false);
    }
    panic!(rt; "each call fails");
}

// What an update may tell in which a call fails, `part` where the report isn't told whole, and how the fixes behind it end: what is refused leaves nothing
// that a fix would clear.
const TOLD: [&str; 6] = [
    r#""source fault\n" file 644 "abc" file 644 "abc" true version 1 false "nothing to do\n" "nothing to do\n""#,
    r#""folder fault: unchanged\n" file 644 "abc" file 644 "abc" true version 1 false "nothing to do\n" "nothing to do\n""#,
    r#""folder fault: unfinished\n" file 644 "" file 644 "" true version 2 true "recovered: new image\n" "nothing to do\n""#,
    r#""folder fault: unfinished\n" file 644 "" file 644 "" true version 2 true "recovered: leftovers cleared\n" "nothing to do\n""#,
    r#""folder fault: unfinished\n" file 644 "" file 644 "" true version 2 true "nothing to do\n" "nothing to do\n""#,
    r#""part" file 644 "" file 644 "" true version 2 true "nothing to do\n" "nothing to do\n""#,
];

/// What a run reported, or `part`.
pub fn report_of(run: &Run) -> &str {
    if run.is_told {
        return run.taken.as_str();
    }
    "part"
}

// Whether the call of this mishap was made by the update, and failed.
fn is_failed_by(rt: &impl Abort, alloc: Global, world: &mut World, mishap: Mishap) -> bool {
    let update = run_line(rt, alloc, world, UPDATE, mishap);
    if update.number == 0 {
        return false;
    }
    let taken = report_of(&update);
    let ended = fixed(rt, alloc, world);
    let ended = ended.as_str();
    let told = format!(in alloc; "{taken:?} {ended}").expect(rt, "memory");
    let is_known = TOLD.iter().any(|known| told.as_str() == *known);
    assert!(rt; is_known, "{told}");
    true
}

// The first call on this thing that an update doesn't make; each before it is made to fail, alone.
fn failed(rt: &impl Abort, alloc: Global, thing: &str) -> u64 {
    let mut world = before(rt, alloc);
    let image = held(rt, alloc, &world);
    for call in 1..200u64 {
        restore(rt, alloc, &mut world, &image);
        if !is_failed_by(rt, alloc, &mut world, mishap_of(rt, thing, call)) {
            return call;
        }
    }
    0
}

#[test]
fn each_call_on_the_image_that_fails_is_told(rt: HostRuntime) {
    let alloc = rt.alloc();
    let calls = failed(&rt, alloc, "folder");
    assert!(rt; calls > 60, "{calls} calls");
}

#[test]
fn each_other_call_that_fails_is_told(rt: HostRuntime) {
    let alloc = rt.alloc();
    for (thing, least) in [("source", 5u64), ("sink", 1u64)] {
        let calls = failed(&rt, alloc, thing);
        assert!(rt; calls > least, "{calls} calls on the {thing}");
    }
}

// A package of three thousand directories, in three thousand and four steps. After each thousand a mark is made.

// An installation that is stopped at the first call on step 2,301, or as the third mark is made, which is left.
const MARKED: &str = r#"
does | image-create -p test -> 0 done
catalog | many 1 ->
many | many@1 | 3000 ->
with | -R i -s r install many | before 7689 -> 1 "folder fault: unfinished\n"
laid -> 2300
look | var/pkg/done.2 -> file 600 ""
look | var/pkg/done.3 -> absent
does | fix -> 0 recovered: new image
laid -> 1004
look | var/pkg/done.1 -> absent
look | var/pkg/done.2 -> absent
look | d/2999 -> dir 755
begin ->
does | image-create -p test -> 0 done
catalog | many 1 ->
many | many@1 | 3000 ->
with | -R i -s r install many | after 9092 -> 1 "folder fault: unfinished\n"
laid -> 3000
look | var/pkg/done.3 -> file 600 ""
does | fix -> 0 recovered: new image
laid -> 4
"#;

// One of which the third mark isn't left, and one where another mark is found that doesn't follow the first.
const UNMARKED: &str = r#"
does | image-create -p test -> 0 done
catalog | many 1 ->
many | many@1 | 3000 ->
with | -R i -s r install many | gone 9092 -> 1 "folder fault: unfinished\n"
laid -> 3000
look | var/pkg/done.2 -> file 600 ""
look | var/pkg/done.3 -> absent
does | fix -> 0 recovered: new image
laid -> 1004
begin ->
does | image-create -p test -> 0 done
catalog | many 1 ->
many | many@1 | 3000 ->
with | -R i -s r install many | before 6085 -> 1 "folder fault: unfinished\n"
laid -> 1500
look | var/pkg/done.1 -> file 600 ""
put | var/pkg/done.3 | ->
# it is taken away, and that is made sure of, before the second mark is
with | -R i -s r fix | before 1500 -> 1 "folder fault: unfinished\n"
look | var/pkg/done.1 -> file 600 ""
look | var/pkg/done.2 -> absent
look | var/pkg/done.3 -> absent
does | fix -> 0 recovered: new image
laid -> 2004
look | var/pkg/done.3 -> absent
look | d/2999 -> dir 755
"#;

#[test]
fn a_fix_goes_on_behind_the_marks(rt: HostRuntime) {
    let alloc = rt.alloc();
    let mut world = World::new(alloc, bare(&rt, alloc));
    let rows = rows_told(&rt, alloc, &mut world, MARKED);
    assert!(rt; rows == 21, "{rows} rows");
}

#[test]
fn a_fix_goes_by_the_marks_that_stand(rt: HostRuntime) {
    let alloc = rt.alloc();
    let mut world = World::new(alloc, bare(&rt, alloc));
    let rows = rows_told(&rt, alloc, &mut world, UNMARKED);
    assert!(rt; rows == 25, "{rows} rows");
}
