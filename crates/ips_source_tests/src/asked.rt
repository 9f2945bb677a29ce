//! What a table asks of its rows.

use crate::answers::*;
use crate::rows::{bytes_of, column, number, row_of};
use crate::trees::*;
use ips_outside::{MemSource, Tree};
use std::alloc::Global;
use std::process::Abort;

// The SHA-1 digests of `abc` and of 200,000 letters `a`.
const ABC: &str = "a9993e364706816aba3e25717850c26c9cd0d89d";

const LETTERS: &str = "ec99adda39f462070e2c7ecbc8433e70dc9fb54c";

// What a table asks of its rows, whose columns are named behind each.
#[derive(Clone, Copy)]
pub enum Asked {
    // A payload, read in pieces of at most this length: its digest, and the bytes at its place.
    Payload { length: usize },
    // The payload of the bytes `abc`: where they stand, and the publisher.
    Place,
    // The payload of 200,000 letters: the call that fails.
    Letters,
    // The payload `abc`, in pieces of at most 2 bytes: the call that fails.
    Pieces,
    // A file of 131,073 bytes at `a/b`: the path that is read, and the limit.
    File,
    // The same at its place and limit: the call that fails.
    FileFault,
    // A repository without a catalog: its mark.
    Mark,
    // One whose mark stands behind 65,530 lines: its place, and the call that fails.
    LongMark,
    // A folder: whether it is marked, its catalog, and the publisher.
    Catalog,
    // A repository: its catalog.
    Versions,
    // A repository of an empty catalog: the call that fails.
    Opening,
    // A manifest: the stem, the version, and the call that fails.
    Manifest,
    // The manifest of `hello`: how many bytes it has.
    LargeManifest,
}

// The tree that a row is asked of, and the call on it that fails.
fn tree_asked(rt: &impl Abort, alloc: Global, asked: Asked, row: &str) -> (Tree, u64) {
    let first = column(row, 0);
    let second = column(row, 1);
    match asked {
        Asked::Payload { .. } => (
            payload_tree(rt, alloc, first, &bytes_of(rt, alloc, second)),
            0,
        ),
        Asked::Place => (tree_of(rt, alloc, first, b"abc"), 0),
        Asked::Letters => {
            let letters = vec![in alloc; b'a'; 200_000].expect(rt, "memory");
            (
                payload_tree(rt, alloc, LETTERS, &letters),
                number(rt, first),
            )
        }
        Asked::Pieces => (payload_tree(rt, alloc, ABC, b"abc"), number(rt, first)),
        Asked::File => (tree_of(rt, alloc, "a/b", &many_bytes(rt, alloc)), 0),
        Asked::FileFault => (
            tree_of(rt, alloc, "a/b", &many_bytes(rt, alloc)),
            number(rt, first),
        ),
        Asked::Mark => (
            tree_of(rt, alloc, "pkg5.repository", &bytes_of(rt, alloc, first)),
            0,
        ),
        Asked::LongMark => (
            tree_of(rt, alloc, first, &long_mark(rt, alloc)),
            number(rt, second),
        ),
        Asked::Catalog => (catalog_tree(rt, alloc, first, second), 0),
        Asked::Versions => (catalog_tree(rt, alloc, "marked", first), 0),
        Asked::Opening => (tree_of_lines(rt, alloc, EMPTY), number(rt, first)),
        Asked::Manifest => (
            tree_of_lines(rt, alloc, REPOSITORY),
            number(rt, column(row, 2)),
        ),
        Asked::LargeManifest => (large_tree(rt, alloc, number(rt, first) as usize), 0),
    }
}

fn told(rt: &impl Abort, alloc: Global, asked: Asked, row: &str) -> String {
    let (tree, fails) = tree_asked(rt, alloc, asked, row);
    let mut source = MemSource::new(tree, vec![in alloc; fails].expect(rt, "memory"));
    answer(rt, alloc, asked, &mut source, row)
}

fn answer(
    rt: &impl Abort,
    alloc: Global,
    asked: Asked,
    source: &mut MemSource,
    row: &str,
) -> String {
    let first = column(row, 0);
    let second = column(row, 1);
    match asked {
        Asked::Payload { length } => payload_told(rt, alloc, source, "test", first, length),
        Asked::Place => payload_told(rt, alloc, source, second, ABC, 64),
        Asked::Letters => payload_told(rt, alloc, source, "test", LETTERS, 100_000),
        Asked::Pieces => pieces_told(rt, alloc, source, ABC),
        Asked::File => file_told(rt, alloc, source, first, number(rt, second)),
        Asked::FileFault => file_told(rt, alloc, source, "a/b", 131_073),
        Asked::Mark => opened_told(rt, alloc, source, "test"),
        Asked::LongMark => opened_told(rt, alloc, source, "test"),
        Asked::Catalog => opened_told(rt, alloc, source, column(row, 2)),
        Asked::Versions => versions_told(rt, alloc, source),
        Asked::Opening => opened_told(rt, alloc, source, "test"),
        Asked::Manifest => manifest_told(rt, alloc, source, first, second),
        Asked::LargeManifest => manifest_told(rt, alloc, source, "hello", "1"),
    }
}

// How many rows a table has, each of which is told as it says.
pub fn rows_told(rt: &impl Abort, alloc: Global, asked: Asked, table: &str) -> u32 {
    let mut rows = 0u32;
    for line in table.lines() {
        if let Some((row, want)) = row_of(line) {
            let told = told(rt, alloc, asked, row);
            assert!(rt; told.as_str() == want, "{row}: {told}, and not {want}");
            rows = rows.saturating_add(1);
        }
    }
    rows
}
