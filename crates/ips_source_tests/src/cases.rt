//! The cases, each table behind what it shows.

use crate::asked::{Asked, rows_told};

// The digest that names a payload, the bytes at its place, and what is told of it. The names are of no bytes and of `abc`, by
// SHA-1 and by SHA-256, and of 1f 8b 08.
const PAYLOADS: &str = "
da39a3ee5e6b4b0d3255bfef95601890afd80709 | -> intact 0
a9993e364706816aba3e25717850c26c9cd0d89d | abc -> intact 3
ba7816bf8f01cfea414140de5dae2223b00361a396177a9cb410ff61f20015ad | abc -> intact 3
# one byte changed, and none there
a9993e364706816aba3e25717850c26c9cd0d89d | abd -> damaged cb4cc28df0fdbe0ecf9d9662e294b118092a5735
a9993e364706816aba3e25717850c26c9cd0d89d | -> damaged da39a3ee5e6b4b0d3255bfef95601890afd80709
# the first byte of a gzip file alone, both, and both further on
a9993e364706816aba3e25717850c26c9cd0d89d | %1f -> damaged 953efe8f531a5a87f6d2d5a65b78b05e55599abc
a9993e364706816aba3e25717850c26c9cd0d89d | %1f%8b -> compressed 7a65e9db86acc2901a90be825d1efc0990f8c020
a9993e364706816aba3e25717850c26c9cd0d89d | %1f%8b%08 -> compressed c1df680e393d04a2a3b050a06db652e9ab37f761
a9993e364706816aba3e25717850c26c9cd0d89d | a%1f%8b -> damaged b3c1f2f2321d007d5c199b85040ce43835c1f0a1
# bytes that begin as a gzip file does, under their own name
c1df680e393d04a2a3b050a06db652e9ab37f761 | %1f%8b%08 -> intact 3";

#[test]
fn payloads_are_judged_by_their_digest(rt: HostRuntime) {
    for length in [1usize, 2, 3, 64] {
        let rows = rows_told(&rt, rt.alloc(), Asked::Payload { length }, PAYLOADS);
        assert_eq!(rt; rows, 10);
    }
}

// Where the bytes `abc` stand, the publisher, and what is told of their payload.
const PLACES: &str = "
publisher/test/file/a9/a9993e364706816aba3e25717850c26c9cd0d89d | test -> intact 3
publisher/t+1/file/a9/a9993e364706816aba3e25717850c26c9cd0d89d | t+1 -> intact 3
# another publisher, another folder, none, and a directory at the place
publisher/test/file/a9/a9993e364706816aba3e25717850c26c9cd0d89d | tes -> PayloadMissing
publisher/test/file/99/a9993e364706816aba3e25717850c26c9cd0d89d | test -> PayloadMissing
publisher/test/file/a9993e364706816aba3e25717850c26c9cd0d89d | test -> PayloadMissing
publisher/test/file/a9/a9993e364706816aba3e25717850c26c9cd0d89d/x | test -> PayloadMissing
# publishers with which the place is no path
publisher/file/a9/a9993e364706816aba3e25717850c26c9cd0d89d | . -> PayloadMissing
file/a9/a9993e364706816aba3e25717850c26c9cd0d89d | .. -> PayloadMissing
publisher/file/a9/a9993e364706816aba3e25717850c26c9cd0d89d | -> PayloadMissing";

// The call that fails: the look, the four parts, and no further call.
const LETTERS: &str = "
1 -> SourceFault
2 -> failed
3 -> failed
4 -> failed
5 -> failed
6 -> intact 200000";

// A payload stays as it was where a call fails.
const PIECES: &str = "
3 -> 2 failed 1 0 intact: true";

// The path and the limit.
const FILES: &str = "
a/b | 131073 -> whole: true
a/b | 131072 -> Bad(TooLarge { count: 131073 })
a/b | 0 -> Bad(TooLarge { count: 131073 })
a | 131073 -> Bad(Missing)
a/c | 0 -> Bad(Missing)
a/b/c | 131073 -> Bad(Missing)";

// The call that fails: the look and the three parts.
const FILE_FAULTS: &str = "
1 -> Bad(SourceFault)
2 -> Bad(SourceFault)
3 -> Bad(SourceFault)
4 -> Bad(SourceFault)";

// The bytes of the mark, with no catalog behind it.
const MARKS: &str = "
[repository]%0aversion = 4%0a -> BadCatalog(NotJson)
version=4 -> BadCatalog(NotJson)
%09 v e r s i o n%09=4 %0a%0a[x] -> BadCatalog(NotJson)
version=3%0aversion=4%0aversion=5 -> BadCatalog(NotJson)
-> NoRepository
version=3%0a -> NoRepository
version=44%0a -> NoRepository
version=%0a4%0a -> NoRepository
xversion=4%0a -> NoRepository
version=4x%0aversion= -> NoRepository
%23 version=4%0a -> NoRepository
# a carriage return is no blank
version=4%0d%0a -> NoRepository
Version=4%0a -> NoRepository";

// The place of a long file with the mark at its end, and the call that fails.
const LONG_MARKS: &str = "
pkg5.repository | 0 -> BadCatalog(NotJson)
pkg5.repository | 1 -> SourceFault
pkg5.repository | 2 -> SourceFault
pkg5.repository | 3 -> SourceFault
# the catalog looked for
pkg5.repository | 4 -> SourceFault
pkg5.repository | 5 -> BadCatalog(NotJson)
pkg5.repository/x | 0 -> NoRepository
repository/pkg5.repository | 0 -> NoRepository";

// Whether the folder is marked, the catalog of the publisher `test`, and the publisher.
const CATALOGS: &str = r#"
marked | {"test": {"hello": [{"version": "1.0"}, {"version": "2"}], "lib/a": []}} | test -> stems 2 versions 2
marked | {"other": {}} | test -> stems 0 versions 0
# no file at the place of another publisher's catalog, and of one with which the place is no path
marked | {"other": {}} | other -> BadCatalog(NotJson)
marked | {} | .. -> BadCatalog(NotJson)
marked | {"test": {"hello": [{"version": "1" | test -> BadCatalog(NotJson)
marked | {"test": {"hello": {}}} | test -> BadCatalog(WrongShape { pointer: Text { text: "/test/hello" } })
# the mark is judged before the catalog
unmarked | {} | test -> NoRepository"#;

// The catalog, and its stems with their releases.
const VERSIONS: &str = r#"
{"test": {"hello": [{"version": "2"}, {"version": "1.0"}]}} -> hello [1, 0] [2]"#;

// The call that fails: the mark looked for and read, the catalog looked for and read, and no further call.
const OPENINGS: &str = "
1 -> SourceFault
2 -> SourceFault
3 -> SourceFault
4 -> SourceFault
5 -> stems 0 versions 0";

// The stem, the version, and the call that fails.
const MANIFESTS: &str = "
hello | 1.0,5.11-1:20240102T030405Z | 0 -> lines 1 bytes 19
a/b+c | 1 | 0 -> lines 0 bytes 0
# no action stands on the second line
bad | 1 | 0 -> BadManifest(ManifestFault { line: 2, fault: Action(UnknownAction { place: 0 }) })
hello | 1.0,5.11-1 | 0 -> ManifestMissing
hell | 1.0,5.11-1:20240102T030405Z | 0 -> ManifestMissing
# stems with which the place is no path
| 1 | 0 -> ManifestMissing
.. | 1 | 0 -> ManifestMissing
# the look and the read, behind the four calls that open the repository
hello | 1.0,5.11-1:20240102T030405Z | 5 -> SourceFault
hello | 1.0,5.11-1:20240102T030405Z | 6 -> SourceFault
hello | 1.0,5.11-1:20240102T030405Z | 7 -> lines 1 bytes 19";

// How many bytes the manifest has.
const LARGE_MANIFESTS: &str = "
16777216 -> lines 0 bytes 16777216
16777217 -> TooLarge { which: ManifestBytes, count: 16777217 }";

#[test]
fn repositories_answer_as_they_are_to(rt: HostRuntime) {
    let alloc = rt.alloc();
    for (asked, count, table) in [
        (Asked::Place, 9u32, PLACES),
        (Asked::Letters, 6u32, LETTERS),
        (Asked::Pieces, 1u32, PIECES),
        (Asked::File, 6u32, FILES),
        (Asked::FileFault, 4u32, FILE_FAULTS),
        (Asked::Mark, 13u32, MARKS),
        (Asked::LongMark, 8u32, LONG_MARKS),
        (Asked::Catalog, 7u32, CATALOGS),
        (Asked::Versions, 1u32, VERSIONS),
        (Asked::Opening, 5u32, OPENINGS),
        (Asked::Manifest, 10u32, MANIFESTS),
        (Asked::LargeManifest, 2u32, LARGE_MANIFESTS),
    ] {
        let rows = rows_told(&rt, alloc, asked, table);
        assert!(rt; rows == count, "{rows} rows in place of {count}");
    }
}
