//! The cases, each table behind what it shows.

use crate::asked::{Asked, rows_told};
use std::test::Fail;

// The kind of request, what it names, what it rejects, and a freeze; each stem in reach has its candidates behind it.
const OFFERS: &str = r#"
# named by an install: no absence; the others that are installed stay before they change
install | a | | -> a 6 4 2.1; b 2.1 6 4; c - 3 1
# named and not installed: nothing is drawn in that stands already, and named stems come in the request's order
install | c | | -> c 3 1; a 2.1 6 4; b 2.1 6 4
install | c b | | -> c 3 1; b 6 4 2.1; a 2.1 6 4
# what a pattern doesn't admit is taken out
install | a@4 | | -> a 4; b 2.1 6 4
install | a@1 | | -> a; b 2.1 6 4
# an update of all: what is obsolete is absence, once
update | | | -> a 6 - 4 2.1; b 6 - 4 2.1; c - 3 1
# an update of one: the other stays before it changes
update | a | | -> a 6 - 4 2.1; b 2.1 6 - 4; c - 3 1
# a version that isn't admitted doesn't turn into absence, and one that is admitted does
update | a@4 | | -> a 4; b 2.1 6 - 4
update | a@5 | | -> a -; b 2.1 6 - 4
uninstall | a | | -> a -; b 2.1
uninstall | b | | -> b -; a 2.1; c -
keep | | | -> a 2.1; b 2.1; c -
# rejected, and rejected where an install names it
install | c | a | -> c 3 1; a -; b 2.1 6 4
install | a | a | -> a; b 2.1 6 4
update | | a | -> a -; b 6 - 4 2.1
update | a | a | -> a -; b 2.1 6 - 4
# frozen
update | | | b@2 -> a 6 - 4 2.1; b 2.1; c - 3 1
update | | | b@5 -> a 6 - 4 2.1; b -; c - 3 1
install | c | | b@5 -> c 3 1; a 2.1 6 4; b
install | a | | c@1 -> a 6 4 2.1; b 2.1 6 4; c - 1"#;

// The group dependency doesn't hold back what is obsolete, and its stem is avoided from then on.
const OBSOLETE: &str = r#"
stems -> g 1; x - 1
choice -> g@1 avoids x"#;

// A package of the image, what is avoided, and what is named; then what is chosen, and avoided from then on.
const DRAWN: &str = r#"
# `base` has to have been at 5 before, so that this change can't bring it there
base@4 | | base@5 new -> refuted
base@4 | | new -> refuted
base@5 | | new -> base@5 new@2 z@1 avoids
# where it wasn't there it is no matter, and it isn't drawn in
other@1 | | new -> new@2 other@1 z@1 avoids
# of a group one package is enough, and absence comes first
other@1 | | g -> b@1 g@1 other@1 z@1 avoids
# none is needed where all are avoided
other@1 | a | g -> b@1 g@1 other@1 z@1 avoids a
other@1 | b | g -> b@1 g@1 other@1 z@1 avoids b
other@1 | a b | g -> g@1 other@1 z@1 avoids a b
# what is asked for isn't avoided any more
other@1 | a b | g a -> a@1 g@1 other@1 z@1 avoids b
# what is obsolete is spared: the absent one is avoided from then on, and not the one that is there, though it is too old
other@1 | | h k -> h@1 k@1 other@1 x@1 z@1 avoids y
other@1 | | h -> h@1 other@1 z@1 avoids x y"#;

// The kind of request, what it names, and what it rejects.
const FAULTS: &str = r#"
install | none | -> NoMatch { pattern: Text { text: "none" } }
install | e | -> Ambiguous { pattern: Text { text: "e" }, stems: [Text { text: "x/e" }, Text { text: "y/e" }] }
install | m | -> ManifestMissing { fmri: Text { text: "m@1" } }
install | d | -> BadManifest { fmri: Text { text: "d@1" }, fault: ManifestFault { line: 2, fault: Action(UnknownAction { place: 0 }) } }
install | f | -> BadDepend { fmri: Text { text: "f@1" }, line: 1 }
install | large | -> TooLarge { which: ManifestBytes, count: 16777217 }
# the first in the request's order; patterns are judged before manifests, and what is named before what is rejected
install | f d | -> BadDepend { fmri: Text { text: "f@1" }, line: 1 }
install | d none | -> NoMatch { pattern: Text { text: "none" } }
install | d | none -> NoMatch { pattern: Text { text: "none" } }
install | e | none -> Ambiguous { pattern: Text { text: "e" }, stems: [Text { text: "x/e" }, Text { text: "y/e" }] }
# only an install names what isn't installed
update | d | -> NoMatch { pattern: Text { text: "d" } }
uninstall | d | -> NoMatch { pattern: Text { text: "d" } }"#;

// The call that fails.
const FAILING: &str = r#"
# behind the four calls that open the repository: the manifest looked for and read, and no further call
5 -> SourceFault
6 -> SourceFault
7 -> c 1; a 1; b 1"#;

#[test]
fn requests_pose_puzzles(rt: HostRuntime) {
    let alloc = rt.alloc();
    for (asked, count, table) in [
        (Asked::Offers, 20u32, OFFERS),
        (Asked::Obsolete, 2u32, OBSOLETE),
        (Asked::Drawn, 11u32, DRAWN),
        (Asked::Faults, 12u32, FAULTS),
        (Asked::Failing, 3u32, FAILING),
    ] {
        let rows = rows_told(&rt, alloc, asked, table);
        assert!(rt; rows == count, "{rows} rows in place of {count}");
    }
}
