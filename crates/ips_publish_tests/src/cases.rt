//! What is made and published, and how each refusal is told.

use crate::runs::rows_told;
use crate::world::World;

// A repository that is made, and a package that is published in it and installed from it.
const PUBLISHED: &str = r#"
# a repository
send | create test -> 0 "created test\n"
look | pkg5.repository -> file 644 "version=4\n"
look | publisher/test/catalog/catalog.base.C -> file 644 "{\"test\":{}}"
look | publisher/test/pkg -> dir 755
look | publisher/test/file -> dir 755
look | var/pkg -> dir 755
# a package
proto | hello.p5m | file usr/share/hello path=usr/share/hello mode=0644 owner=root group=bin%0a ->
proto | usr/share/hello | abc ->
send | publish pkg://test/hello@1.0,5.11-1 hello.p5m -> 0 "published pkg://test/hello@1.0,5.11-1:20240102T030405Z\n"
look | publisher/test/catalog/catalog.base.C -> file 644 "{\"test\":{\"hello\":[{\"version\":\"1.0,5.11-1:20240102T030405Z\"}]}}"
look | publisher/test/pkg/hello/1.0%2C5.11-1%3A20240102T030405Z -> file 644 "set name=pkg.fmri value=pkg://test/hello@1.0,5.11-1:20240102T030405Z\nfile a9993e364706816aba3e25717850c26c9cd0d89d group=bin mode=0644 owner=root path=usr/share/hello\n"
look | publisher/test/file/a9/a9993e364706816aba3e25717850c26c9cd0d89d -> file 644 "abc"
look | publisher/test/file/a9 -> dir 755
look | var/pkg/stage -> absent
look | var/pkg/journal -> absent
look | var/pkg/gate -> absent
# the same again at that moment
send | publish pkg://test/hello@1.0,5.11-1 hello.p5m -> 1 "exists\n"
send | publish pkg://test/hello@1.0,5.11-1:20240102T030405Z hello.p5m -> 1 "exists\n"
send | create test -> 1 "exists\n"
# it is installed
does | image-create -p test -> 0 done
does | install hello -> 0 done
image | usr/share/hello -> file 644 "abc"
# an older version stands before it in the list, and another stem behind it
send | publish pkg://test/hello@0.9,5.11-1:20240101T000000Z hello.p5m -> 0 "published pkg://test/hello@0.9,5.11-1:20240101T000000Z\n"
send | publish pkg://test/x/y@1:20240101T000000Z hello.p5m -> 0 "published pkg://test/x/y@1:20240101T000000Z\n"
look | publisher/test/catalog/catalog.base.C -> file 644 "{\"test\":{\"hello\":[{\"version\":\"0.9,5.11-1:20240101T000000Z\"},{\"version\":\"1.0,5.11-1:20240102T030405Z\"}],\"x/y\":[{\"version\":\"1:20240101T000000Z\"}]}}"
look | publisher/test/pkg/x%2Fy/1%3A20240101T000000Z -> file 644 "set name=pkg.fmri value=pkg://test/x/y@1:20240101T000000Z\nfile a9993e364706816aba3e25717850c26c9cd0d89d group=bin mode=0644 owner=root path=usr/share/hello\n"
does | update -> 4 nothing to do
"#;

// Which content a line has, and what a manifest tells of its name.
const CONTENTS: &str = r#"
send | create test -> 0 "created test\n"
# none and `NOHASH` mean the action's path, of a license its name; any other word is a path; what has no content stays
proto | m | set name=pkg.fmri value=pkg://other/a@1%0adir path=d mode=0755 owner=root group=bin%0afile path=a mode=0644 owner=root group=bin%0afile NOHASH path=b mode=0644 owner=root group=bin%0afile d/c path=c mode=0600 owner=root group=bin%0alicense license=L%0alicense l license=M must-accept=true%0a ->
proto | a | abc ->
proto | b | ->
proto | d/c | abc ->
proto | L | ->
proto | l | new ->
send | publish pkg://test/a@1:20240101T000000Z m -> 0 "published pkg://test/a@1:20240101T000000Z\n"
look | publisher/test/pkg/a/1%3A20240101T000000Z -> file 644 "set name=pkg.fmri value=pkg://other/a@1\ndir group=bin mode=0755 owner=root path=d\nfile a9993e364706816aba3e25717850c26c9cd0d89d group=bin mode=0644 owner=root path=a\nfile da39a3ee5e6b4b0d3255bfef95601890afd80709 group=bin mode=0644 owner=root path=b\nfile a9993e364706816aba3e25717850c26c9cd0d89d group=bin mode=0600 owner=root path=c\nlicense da39a3ee5e6b4b0d3255bfef95601890afd80709 license=L\nlicense c2a6b03f190dfb2b4aa91f8af8d477a9bc3401dc license=M must-accept=true\n"
look | publisher/test/file/da/da39a3ee5e6b4b0d3255bfef95601890afd80709 -> file 644 ""
look | publisher/test/file/c2/c2a6b03f190dfb2b4aa91f8af8d477a9bc3401dc -> file 644 "new"
# a content that is damaged is written again
put | publisher/test/file/c2/c2a6b03f190dfb2b4aa91f8af8d477a9bc3401dc | ne ->
send | publish pkg://test/a@2:20240101T000000Z m -> 0 "published pkg://test/a@2:20240101T000000Z\n"
look | publisher/test/file/c2/c2a6b03f190dfb2b4aa91f8af8d477a9bc3401dc -> file 644 "new"
# a manifest of no lines
proto | n | ->
send | publish pkg://test/n@1:20240101T000000Z n -> 0 "published pkg://test/n@1:20240101T000000Z\n"
look | publisher/test/pkg/n/1%3A20240101T000000Z -> file 644 "set name=pkg.fmri value=pkg://test/n@1:20240101T000000Z\n"
"#;

// Each refusal, behind those that are told before it.
const REFUSED: &str = r#"
# words that are none ask nothing of the target
words | -> 2 "usage: word 0: missing\n"
words | send -s r -d p destroy -> 2 "usage: word 5: unknown\n"
words | send -s r -d p create -> 2 "usage: word 6: missing\n"
words | send -s r -d p create te/st -> 2 "usage: word 6: bad value\n"
words | send -s r -d p create test more -> 2 "usage: word 7: extra\n"
words | send -s r -d p publish pkg:/hello@1 m -> 2 "usage: word 6: bad value\n"
words | send -s r -d p publish pkg://test/hello m -> 2 "usage: word 6: bad value\n"
words | send -s r -d p publish pkg://test/hello@1 -f -> 2 "usage: word 7: unknown\n"
# behind an open gate stands no journal
put | var/pkg/gate | ->
send | create test -> 1 "bad journal line 1\n"
remove | var/pkg/gate ->
# something is in the way of a directory: the least such path is told
put | publisher/test/pkg | x ->
put | publisher/test/catalog | x ->
send | create test -> 1 "blocked publisher/test/catalog\n"
begin | ->
link | publisher ->
send | create test -> 1 "blocked publisher\n"
begin | ->
# no repository
send | publish pkg://test/hello@1 m -> 1 "no repository\n"
put | pkg5.repository | version=3%0a ->
send | publish pkg://test/hello@1 m -> 1 "no repository\n"
begin | ->
# no catalog
put | pkg5.repository | version=4%0a ->
put | publisher/test/catalog/catalog.base.C | { ->
send | publish pkg://test/hello@1 m -> 1 "bad catalog\n"
begin | ->
send | create test -> 0 "created test\n"
# no manifest
send | publish pkg://test/hello@1 m -> 1 "no manifest\n"
swell | m | 16777217 ->
send | publish pkg://test/hello@1 m -> 1 "too large: 16777217\n"
proto | m | dir path=d mode=0755 owner=root group=bin%0afrob a=b%0a ->
send | publish pkg://test/hello@1 m -> 1 "bad manifest line 2\n"
# no content
proto | m | file path=a mode=0644 owner=root group=bin%0afile NOHASH path=b%25c mode=0644 owner=root group=bin%0a ->
send | publish pkg://test/hello@1 m -> 1 "content missing a\n"
proto | a | abc ->
send | publish pkg://test/hello@1 m -> 1 "content missing b%25c\n"
proto | m | file path=a mode=0644 owner=root group=bin%0a ->
# it is listed already
send | publish pkg://test/hello@1:20240101T000000Z m -> 0 "published pkg://test/hello@1:20240101T000000Z\n"
put | publisher/test/pkg/x | x ->
send | publish pkg://test/hello@1:20240101T000000Z m -> 1 "exists\n"
# something is in the way
send | publish pkg://test/x@1:20240101T000000Z m -> 1 "blocked publisher/test/pkg/x\n"
proto | b | ->
proto | m | file path=a mode=0644 owner=root group=bin%0afile path=b mode=0644 owner=root group=bin%0a ->
put | publisher/test/file/da | x ->
send | publish pkg://test/x@1:20240101T000000Z m -> 1 "blocked publisher/test/file/da\n"
# an empty file gives way, as a crash may leave one in the place of a directory; elsewhere than below `publisher` none does
put | publisher/test/pkg/x | ->
put | publisher/test/file/da | ->
send | publish pkg://test/x@1:20240101T000000Z m -> 0 "published pkg://test/x@1:20240101T000000Z\n"
look | publisher/test/pkg/x -> dir 755
look | publisher/test/file/da -> dir 755
look | publisher/test/file/da/da39a3ee5e6b4b0d3255bfef95601890afd80709 -> file 644 ""
begin | ->
put | publisher | ->
send | create test -> 0 "created test\n"
look | publisher -> dir 755
begin | ->
put | var | ->
send | create test -> 1 "blocked var\n"
"#;

// Calls that fail.
const FAULTS: &str = r#"
with | create test | folder 1 -> 1 "folder fault: unchanged\n"
look | var -> absent
with | create test | sink 1 -> 1 part ""
look | pkg5.repository -> file 644 "version=4\n"
proto | m | file path=a mode=0644 owner=root group=bin%0a ->
proto | a | abc ->
with | publish pkg://test/a@1:20240101T000000Z m | folder 1 -> 1 "folder fault: unchanged\n"
with | publish pkg://test/a@1:20240101T000000Z m | source 1 -> 1 "source fault\n"
with | publish pkg://test/a@1:20240101T000000Z m | source 3 -> 1 "source fault\n"
with | publish pkg://test/a@1:20240101T000000Z m | source 6 -> 1 "source fault\n"
look | publisher/test/catalog/catalog.base.C -> file 644 "{\"test\":{}}"
with | publish pkg://test/a@1:20240101T000000Z m | sink 2 -> 1 part "published "
look | publisher/test/catalog/catalog.base.C -> file 644 "{\"test\":{\"a\":[{\"version\":\"1:20240101T000000Z\"}]}}"
with | publish pkg://test/a@1:20240101T000000Z m | sink 1 -> 1 part ""
"#;

#[test]
fn packages_are_published_and_installed(rt: HostRuntime) {
    let alloc = rt.alloc();
    let rows = rows_told(&rt, alloc, &mut World::new(alloc), PUBLISHED);
    assert!(rt; rows == 27, "{rows} rows");
}

#[test]
fn contents_have_names(rt: HostRuntime) {
    let alloc = rt.alloc();
    let rows = rows_told(&rt, alloc, &mut World::new(alloc), CONTENTS);
    assert!(rt; rows == 17, "{rows} rows");
}

#[test]
fn each_refusal_has_its_cause(rt: HostRuntime) {
    let alloc = rt.alloc();
    let rows = rows_told(&rt, alloc, &mut World::new(alloc), REFUSED);
    assert!(rt; rows == 58, "{rows} rows");
}

#[test]
fn calls_that_fail_are_told(rt: HostRuntime) {
    let alloc = rt.alloc();
    let rows = rows_told(&rt, alloc, &mut World::new(alloc), FAULTS);
    assert!(rt; rows == 14, "{rows} rows");
}
