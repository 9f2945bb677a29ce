//! The repositories of the runs.

use crate::rows::{bytes_of, column, text_named};
use ips_outside::Tree;
use ips_text::{RelPath, quote};
use std::alloc::Global;
use std::process::Abort;

const MARK: &str = "[repository]\nversion = 4\n";

const CATALOG: &str = r#"{"test": {
    "hello": [{"version": "1.0,5.11-1:20240102T030405Z"}],
    "x": [{"version": "1"}, {"version": "2"}],
    "opt/app": [{"version": "1"}],
    "conf": [{"version": "1"}, {"version": "2"}],
    "kept": [{"version": "1"}, {"version": "2"}],
    "svc": [{"version": "1"}],
    "acts": [{"version": "1"}],
    "accounts": [{"version": "1"}], "taken": [{"version": "1"}],
    "license": [{"version": "1"}],
    "doc": [{"version": "1"}],
    "python2": [{"version": "1"}], "python3": [{"version": "1"}],
    "g": [{"version": "1"}], "y": [{"version": "1"}],
    "a": [{"version": "1"}], "b": [{"version": "1"}], "either": [{"version": "1"}],
    "one": [{"version": "1"}], "other": [{"version": "1"}],
    "reserved": [{"version": "1"}], "nobody": [{"version": "1"}],
    "lost": [{"version": "1"}], "damaged": [{"version": "1"}], "gzip": [{"version": "1"}],
    "bad": [{"version": "1"}], "absent": [{"version": "1"}]
}}"#;

// The manifests: a line has the place of each and what it is for, and the lines behind it are its own.
const MANIFESTS: &str = r#"
== publisher/test/pkg/hello/1.0%2C5.11-1%3A20240102T030405Z | two directories and a file
dir group=bin mode=0755 owner=root path=usr
dir group=bin mode=0755 owner=root path=usr/share
file a9993e364706816aba3e25717850c26c9cd0d89d group=bin mode=0644 owner=root path=usr/share/hello
== publisher/test/pkg/x/1 | a file, and one more name of it
file a9993e364706816aba3e25717850c26c9cd0d89d group=bin mode=0644 owner=root path=bin/a
hardlink path=bin/b target=a
== publisher/test/pkg/x/2 | the same with other bytes
file da39a3ee5e6b4b0d3255bfef95601890afd80709 group=bin mode=0644 owner=root path=bin/a
hardlink path=bin/b target=a
== publisher/test/pkg/opt%2Fapp/1 | a directory of its own
dir group=bin mode=0755 owner=root path=opt/app
file a9993e364706816aba3e25717850c26c9cd0d89d group=bin mode=0644 owner=root path=opt/app/a
== publisher/test/pkg/conf/1 | a file that may be edited
file a9993e364706816aba3e25717850c26c9cd0d89d group=bin mode=0644 owner=root path=etc/x.conf preserve=renamenew
== publisher/test/pkg/conf/2
file da39a3ee5e6b4b0d3255bfef95601890afd80709 group=bin mode=0644 owner=root path=etc/x.conf preserve=renamenew
== publisher/test/pkg/kept/1 | one that stays where it was edited
file a9993e364706816aba3e25717850c26c9cd0d89d group=bin mode=0644 owner=root path=etc/kept preserve=true
== publisher/test/pkg/kept/2
file da39a3ee5e6b4b0d3255bfef95601890afd80709 group=bin mode=0644 owner=root path=etc/kept preserve=true
== publisher/test/pkg/acts/1 | what an actuator is run for
file a9993e364706816aba3e25717850c26c9cd0d89d group=bin mode=0644 owner=root path=acts restart_fmri=svc:/a
== publisher/test/pkg/accounts/1 | a user and a group
group groupname=svc gid=70
user username=svc uid=70 group=svc
== publisher/test/pkg/taken/1 | a user of the same number
user username=tvc uid=70 group=svc
== publisher/test/pkg/license/1 | a license that must be accepted, and one that is shown
license da39a3ee5e6b4b0d3255bfef95601890afd80709 license=L must-accept=true
license a9993e364706816aba3e25717850c26c9cd0d89d license=CDDL must-display=true
== publisher/test/pkg/doc/1 | what a facet leaves out
file a9993e364706816aba3e25717850c26c9cd0d89d facet.doc=true group=bin mode=0644 owner=root path=doc
== publisher/test/pkg/python2/1 | a mediated link of a vendor
link mediator=python mediator-priority=vendor mediator-version=2.7 path=python target=python2.7
== publisher/test/pkg/python3/1 | one of a greater version
link mediator=python mediator-version=3.9 path=python target=python3.9
== publisher/test/pkg/g/1 | a group
depend fmri=y type=group
== publisher/test/pkg/y/1
dir group=bin mode=0755 owner=root path=y
== publisher/test/pkg/a/1 | two that exclude each other, and either of them
depend fmri=b type=exclude
== publisher/test/pkg/b/1
depend fmri=a type=exclude
== publisher/test/pkg/either/1
depend fmri=a fmri=b type=require-any
== publisher/test/pkg/one/1 | two that clash
file a9993e364706816aba3e25717850c26c9cd0d89d group=bin mode=0644 owner=root path=etc/m
== publisher/test/pkg/other/1
file da39a3ee5e6b4b0d3255bfef95601890afd80709 group=bin mode=0644 owner=root path=etc/m
== publisher/test/pkg/reserved/1 | a path that the image keeps
dir group=bin mode=0755 owner=root path=var/pkg/x
== publisher/test/pkg/nobody/1 | an owner that isn't known
dir group=bin mode=0755 owner=nobody9 path=home
== publisher/test/pkg/lost/1 | a payload that isn't in the repository
file 3333333333333333333333333333333333333333 group=bin mode=0644 owner=root path=lost
== publisher/test/pkg/damaged/1 | at this name, that of `abd`, stands `abe`
file cb4cc28df0fdbe0ecf9d9662e294b118092a5735 group=bin mode=0644 owner=root path=damaged
== publisher/test/pkg/gzip/1 | at this name stands 1f 8b 08
file 2222222222222222222222222222222222222222 group=bin mode=0644 owner=root path=gzip
== publisher/test/pkg/bad/1 | an action that isn't known, on the second line
dir group=bin mode=0755 owner=root path=bad
frob a=b
"#;

// Words of the rows: payloads, each named by its bytes, and who has a path.
const WORDS: &str = "
$old = c00dbbc9dadfbe1e232e93a729dd4752fade0abf
$new = c2a6b03f190dfb2b4aa91f8af8d477a9bc3401dc
$abc = a9993e364706816aba3e25717850c26c9cd0d89d
$long_abc = ba7816bf8f01cfea414140de5dae2223b00361a396177a9cb410ff61f20015ad
$none = da39a3ee5e6b4b0d3255bfef95601890afd80709
$damaged = cb4cc28df0fdbe0ecf9d9662e294b118092a5735
$gzip = 2222222222222222222222222222222222222222
$lost = 3333333333333333333333333333333333333333
$dir = group=bin mode=0755 owner=root
$file = group=bin mode=0644 owner=root";

// The payloads: the place of each, and its bytes as they are spelled.
const PAYLOADS: &str = "
publisher/test/file/a9/a9993e364706816aba3e25717850c26c9cd0d89d | abc
publisher/test/file/cb/cb4cc28df0fdbe0ecf9d9662e294b118092a5735 | abe
publisher/test/file/22/2222222222222222222222222222222222222222 | %1f%8b%08
publisher/test/file/c0/c00dbbc9dadfbe1e232e93a729dd4752fade0abf | old
publisher/test/file/c2/c2a6b03f190dfb2b4aa91f8af8d477a9bc3401dc | new
publisher/test/file/ba/ba7816bf8f01cfea414140de5dae2223b00361a396177a9cb410ff61f20015ad | abc
publisher/test/file/da/da39a3ee5e6b4b0d3255bfef95601890afd80709 |";

// Adds a directory; one that stands already is left.
fn add_dir(rt: &impl Abort, alloc: Global, tree: &mut Tree, place: &[u8]) {
    let path = RelPath::parse(alloc, place)
        .ok()
        .expect(rt, "what is spelled");
    let _ = tree.dir(alloc, &path, 0o755);
}

fn add_file(rt: &impl Abort, alloc: Global, tree: &mut Tree, place: &[u8], bytes: &[u8]) {
    let path = RelPath::parse(alloc, place)
        .ok()
        .expect(rt, "what is spelled");
    tree.file(alloc, &path, 0o644, bytes)
        .ok()
        .expect(rt, "no fault");
}

/// Adds a directory for each part but the last, and a file.
pub fn add(rt: &impl Abort, alloc: Global, tree: &mut Tree, place: &str, bytes: &[u8]) {
    let place = place.as_bytes();
    for (i, b) in place.iter().enumerate() {
        if *b == b'/' {
            add_dir(rt, alloc, tree, &place[..i]);
        }
    }
    add_file(rt, alloc, tree, place, bytes)
}

fn add_manifests(rt: &impl Abort, alloc: Global, tree: &mut Tree, manifests: &str) {
    for manifest in manifests.split("== ") {
        if let Some((head, lines)) = manifest.split_once('\n') {
            let place = column(head, 0);
            if !place.is_empty() {
                add(rt, alloc, tree, place, lines.as_bytes());
            }
        }
    }
}

fn add_payloads(rt: &impl Abort, alloc: Global, tree: &mut Tree) {
    for line in PAYLOADS.lines() {
        let place = column(line, 0);
        if !place.is_empty() {
            let bytes = bytes_of(rt, alloc, column(line, 1));
            add(rt, alloc, tree, place, &bytes);
        }
    }
}

const CATALOG_PLACE: &str = "publisher/test/catalog/catalog.base.C";

/// A repository of the packages above.
pub fn repository(rt: &impl Abort, alloc: Global) -> Tree {
    let mut tree = bare(rt, alloc);
    add(rt, alloc, &mut tree, CATALOG_PLACE, CATALOG.as_bytes());
    add_manifests(rt, alloc, &mut tree, MANIFESTS);
    tree
}

/// A repository of payloads, without a catalog.
pub fn bare(rt: &impl Abort, alloc: Global) -> Tree {
    let mut tree = Tree::new(alloc);
    add(rt, alloc, &mut tree, "pkg5.repository", MARK.as_bytes());
    add_payloads(rt, alloc, &mut tree);
    tree
}

/// Takes away what stands at a place, and adds a file there.
pub fn set(rt: &impl Abort, alloc: Global, tree: &mut Tree, place: &str, bytes: &[u8]) {
    let path = RelPath::parse(alloc, place.as_bytes())
        .ok()
        .expect(rt, "what is spelled");
    tree.remove(&path);
    add(rt, alloc, tree, place, bytes);
}

/// Has the catalog offer these: a stem and its versions, which blanks divide, and `;` between stems.
pub fn offer(rt: &impl Abort, alloc: Global, tree: &mut Tree, offered: &str) {
    let mut text = String::from_str(alloc, "{\"test\": {").expect(rt, "memory");
    for (number, stem) in offered.split(';').enumerate() {
        if number > 0 {
            text.push_str(", ").expect(rt, "memory");
        }
        write_stem(rt, &mut text, stem.trim());
    }
    text.push_str("}}").expect(rt, "memory");
    set(rt, alloc, tree, CATALOG_PLACE, text.as_bytes());
}

// Writes what the catalog says of a stem.
fn write_stem(rt: &impl Abort, text: &mut String, offered: &str) {
    for (number, word) in offered.split(' ').enumerate() {
        match number {
            0 => write!(text, "\"{word}\": ["),
            1 => write!(text, "{{\"version\": \"{word}\"}}"),
            _ => write!(text, ", {{\"version\": \"{word}\"}}"),
        }
        .expect(rt, "memory");
    }
    text.push_str("]").expect(rt, "memory");
}

/// Adds the manifest of a package: its stem and version, which `@` divides, and its lines, which `;` divides. A word that begins with
/// `$` is one of those above.
pub fn publish(rt: &impl Abort, alloc: Global, tree: &mut Tree, named: &str, lines: &str) {
    let (stem, version) = named.split_once('@').expect(rt, "a version");
    let stem = quote(alloc, stem.as_bytes()).expect(rt, "memory");
    let stem = stem.as_str();
    let place = format!(in alloc; "publisher/test/pkg/{stem}/{version}").expect(rt, "memory");
    let text = manifest_of(rt, alloc, lines);
    set(rt, alloc, tree, place.as_str(), text.as_bytes());
}

// The lines of a manifest.
fn manifest_of(rt: &impl Abort, alloc: Global, lines: &str) -> String {
    let mut text = String::new(alloc);
    for line in lines.split(';') {
        for word in line.trim().split(' ') {
            let word = text_named(WORDS, word).unwrap_or(word);
            write!(text, "{word} ").expect(rt, "memory");
        }
        text.push_str("\n").expect(rt, "memory");
    }
    text
}
