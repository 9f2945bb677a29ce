//! The folders that are read.

use crate::rows::{bytes_of, column};
use ips_outside::Tree;
use ips_text::RelPath;
use std::alloc::Global;
use std::process::Abort;

// A repository of three manifests; in one of them no action stands on the second line.
pub const REPOSITORY: &str = "
pkg5.repository | [repository]%0aversion = 4%0a
publisher/test/catalog/catalog.base.C | {}
publisher/test/pkg/hello/1.0%2C5.11-1%3A20240102T030405Z | set name=a value=b%0a
publisher/test/pkg/a%2Fb%2Bc/1 |
publisher/test/pkg/bad/1 | %0afrob a=b%0a";

// One that has its mark and its catalog alone.
pub const EMPTY: &str = "
pkg5.repository | [repository]%0aversion = 4%0a
publisher/test/catalog/catalog.base.C | {}";

// The mark alone.
const MARKED: &str = "pkg5.repository | [repository]%0aversion = 4%0a";

// Adds a directory; one that stands already is left.
fn add_dir(rt: &impl Abort, alloc: Global, tree: &mut Tree, place: &[u8]) {
    let path = RelPath::parse(alloc, place)
        .ok()
        .expect(rt, "what is spelled");
    let _ = tree.dir(alloc, &path, 0o755);
}

fn add_file(rt: &impl Abort, alloc: Global, tree: &mut Tree, place: &[u8], bytes: &[u8]) {
    let path = RelPath::parse(alloc, place)
        .ok()
        .expect(rt, "what is spelled");
    tree.file(alloc, &path, 0o644, bytes)
        .ok()
        .expect(rt, "no fault");
}

// Adds a directory for each part but the last, and a file.
fn add(rt: &impl Abort, alloc: Global, tree: &mut Tree, place: &str, bytes: &[u8]) {
    let place = place.as_bytes();
    for (i, b) in place.iter().enumerate() {
        if *b == b'/' {
            add_dir(rt, alloc, tree, &place[..i]);
        }
    }
    add_file(rt, alloc, tree, place, bytes)
}

// A tree with one file.
pub fn tree_of(rt: &impl Abort, alloc: Global, place: &str, bytes: &[u8]) -> Tree {
    let mut tree = Tree::new(alloc);
    add(rt, alloc, &mut tree, place, bytes);
    tree
}

// A tree of these files: a line has the place of each, and its bytes as they are spelled.
pub fn tree_of_lines(rt: &impl Abort, alloc: Global, lines: &str) -> Tree {
    let mut tree = Tree::new(alloc);
    for line in lines.lines() {
        let place = column(line, 0);
        if !place.is_empty() {
            let bytes = bytes_of(rt, alloc, column(line, 1));
            add(rt, alloc, &mut tree, place, &bytes);
        }
    }
    tree
}

// Bytes at the place of the payload of this digest.
pub fn payload_tree(rt: &impl Abort, alloc: Global, digits: &str, bytes: &[u8]) -> Tree {
    let (front, _) = digits.split_at_checked(2).expect(rt, "digits");
    let place = format!(in alloc; "publisher/test/file/{front}/{digits}").expect(rt, "memory");
    tree_of(rt, alloc, place.as_str(), bytes)
}

// A folder with this catalog of the publisher `test`, and with the mark, where it is `marked`.
pub fn catalog_tree(rt: &impl Abort, alloc: Global, mark: &str, catalog: &str) -> Tree {
    let mark = if mark == "marked" { MARKED } else { "" };
    let mut tree = tree_of_lines(rt, alloc, mark);
    let place = "publisher/test/catalog/catalog.base.C";
    add(rt, alloc, &mut tree, place, catalog.as_bytes());
    tree
}

// A repository with a manifest that is one comment of so many bytes.
pub fn large_tree(rt: &impl Abort, alloc: Global, size: usize) -> Tree {
    let mut tree = tree_of_lines(rt, alloc, EMPTY);
    let text = vec![in alloc; b'#'; size].expect(rt, "memory");
    add(rt, alloc, &mut tree, "publisher/test/pkg/hello/1", &text);
    tree
}

// The bytes of a mark line across the end of the first part that is read.
pub fn long_mark(rt: &impl Abort, alloc: Global) -> Vec<u8> {
    let mut mark = vec![in alloc; b'\n'; 65_530].expect(rt, "memory");
    mark.extend_from_slice(b" version = 4 ")
        .expect(rt, "memory");
    mark
}

// 131,073 bytes of many kinds.
pub fn many_bytes(rt: &impl Abort, alloc: Global) -> Vec<u8> {
    let mut bytes = Vec::new(alloc);
    for i in 0..131_073u32 {
        bytes.push((i % 251) as u8).expect(rt, "memory");
    }
    bytes
}
