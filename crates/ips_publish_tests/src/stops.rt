//! Runs that are stopped at each call, with each choice of what is left, and sent again.

use crate::runs::{line_of, rows_told, stop_of};
use crate::world::*;
use std::alloc::Global;
use std::process::Abort;

const CREATE: &str = "create test";

const PUBLISH: &str = "publish pkg://test/hello@1.0,5.11-1 hello.p5m";

// What is published, and an image.
const FILES: &str = r#"
proto | hello.p5m | file usr/share/hello path=usr/share/hello mode=0644 owner=root group=bin%0a ->
proto | usr/share/hello | abc ->
does | image-create -p test -> 0 done
"#;

// The same of other contents, of which one is shared.
const OTHER_FILES: &str = r#"
proto | hello.p5m | file usr/share/hello path=usr/share/hello mode=0644 owner=root group=bin%0afile b path=b mode=0644 owner=root group=bin%0a ->
proto | b | other ->
"#;

// A repository without packages.
const MADE: &str = r#"
held | pkg5.repository -> file "version=4\n"
held | publisher/test/catalog/catalog.base.C -> file "{\"test\":{}}"
held | publisher/test/pkg -> dir
held | publisher/test/file -> dir
"#;

// One with the package.
const WHOLE: &str = r#"
held | publisher/test/catalog/catalog.base.C -> file "{\"test\":{\"hello\":[{\"version\":\"1.0,5.11-1:20240102T030405Z\"}]}}"
held | publisher/test/file/a9/a9993e364706816aba3e25717850c26c9cd0d89d -> file "abc"
look | var/pkg/stage -> absent
look | var/pkg/gate -> absent
"#;

// The package is installed from it.
const INSTALLED: &str = r#"
does | install hello -> 0 done
image | usr/share/hello -> file 644 "abc"
"#;

// What is told of a request, to which this happens.
fn sent(rt: &impl Abort, alloc: Global, world: &mut World, request: &str, mishap: Mishap) -> Run {
    let line = line_of(rt, alloc, request);
    send_line(rt, alloc, world, line.as_str(), mishap)
}

// The request is sent again behind a stop: it is done now, or was before.
fn send_again(rt: &impl Abort, alloc: Global, world: &mut World, request: &str, done: &str) {
    let again = sent(rt, alloc, world, request, NONE);
    let taken = again.taken.as_str();
    assert!(rt;
        taken.starts_with(done) || taken == "exists\n",
        "{request}: {taken}"
    );
}

// How often a request is stopped: at each call, with each choice. Each time it is sent again, and then is what the table says; and behind some what the other one says.
fn stops(
    rt: &impl Abort,
    alloc: Global,
    world: &mut World,
    request: &str,
    done: &str,
    table: &str,
    behind: &str,
) -> u64 {
    let repo = copied(rt, alloc, &world.repo);
    let image = copied(rt, alloc, &world.image);
    for number in 0..1000u64 {
        world.repo = copied(rt, alloc, &repo);
        world.image = copied(rt, alloc, &image);
        let stopped = sent(rt, alloc, world, request, stop_of(number));
        let is_done = stopped.number == 0;
        send_again(rt, alloc, world, request, done);
        let rows = rows_told(rt, alloc, world, table);
        assert!(rt; rows == 4, "{rows} rows");
        if is_done {
            return number;
        }
        // Behind some of the stops, of each choice, the package is installed.
        if number % 6 == 0 {
            let rows = rows_told(rt, alloc, world, behind);
            assert!(rt; rows == 0 || rows == 2, "{rows} rows");
        }
    }
    0
}

// A world with what is published, an image, and a repository without packages.
fn made(rt: &impl Abort, alloc: Global) -> World {
    let mut world = World::new(alloc);
    let rows = rows_told(rt, alloc, &mut world, FILES);
    assert!(rt; rows == 3, "{rows} rows");
    let ended = sent(rt, alloc, &mut world, CREATE, NONE);
    assert!(rt; ended.number == 0, "a repository");
    world
}

#[test]
fn a_stopped_create_is_done_again(rt: HostRuntime) {
    let alloc = rt.alloc();
    let mut world = World::new(alloc);
    let number = stops(&rt, alloc, &mut world, CREATE, "created ", MADE, "");
    assert!(rt; number > 40, "{number} stops");
}

#[test]
fn a_stopped_publication_is_whole_or_out(rt: HostRuntime) {
    let alloc = rt.alloc();
    let mut world = made(&rt, alloc);
    let number = stops(
        &rt,
        alloc,
        &mut world,
        PUBLISH,
        "published ",
        WHOLE,
        INSTALLED,
    );
    assert!(rt; number > 100, "{number} stops");
}

// One publication of a version is stopped, and then one of other contents is sent: one of both is whole.
#[test]
fn of_two_publications_one_is_whole(rt: HostRuntime) {
    let alloc = rt.alloc();
    let mut world = made(&rt, alloc);
    let repo = copied(&rt, alloc, &world.repo);
    let proto = copied(&rt, alloc, &world.proto);
    let image = copied(&rt, alloc, &world.image);
    // Each third stop, so that all choices come.
    for turn in 0..500u64 {
        let number = turn.saturating_mul(3);
        world.repo = copied(&rt, alloc, &repo);
        world.proto = copied(&rt, alloc, &proto);
        world.image = copied(&rt, alloc, &image);
        let stopped = sent(&rt, alloc, &mut world, PUBLISH, stop_of(number));
        let rows = rows_told(&rt, alloc, &mut world, OTHER_FILES);
        assert!(rt; rows == 2, "{rows} rows");
        send_again(&rt, alloc, &mut world, PUBLISH, "published ");
        let rows = rows_told(&rt, alloc, &mut world, WHOLE);
        assert!(rt; rows == 4, "{rows} rows");
        if stopped.number == 0 {
            assert!(rt; number > 100, "{number} stops");
            return;
        }
    }
    panic!(rt; "each call is stopped");
}
