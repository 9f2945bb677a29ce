use crate::stops::have;
use crate::table::{Ask, all_hold, text};
use crate::told::{put, put_number, yes_or_no};
use ips_fmri::{Fmri, FmriFault, Pattern, Version, matches_stars};
use ips_text::Or;
use std::alloc::Global;
use std::cmp::Ordering;
use std::process::Abort;

// What a table asks of versions, FMRIs and patterns.
enum Asked {
    // How the version is printed, its release, build, branch and timestamp; or its fault.
    Version,
    // How the version stands to each of the others, or else to those that ascend: less, the same or greater; and `+` where it
    // incorporates them.
    Compared,
    // How a copy of the FMRI is printed, and its publisher, stem and release where it has all of them; or its fault.
    Fmri,
    // Whether the pattern is anchored and wild, and how a copy of it is printed; or its fault.
    Pattern,
    // Whether the pattern equals the stem, or matches it.
    Matches,
    Admits,
    Stars,
}

impl Ask for Asked {
    fn answer(&self, rt: &impl Abort, alloc: Global, out: &mut String, one: &[u8], two: &[u8]) {
        let one = text(rt, one);
        let two = text(rt, two);
        match self {
            Asked::Version => version(rt, alloc, out, one),
            Asked::Compared => compared(rt, alloc, out, one, two),
            Asked::Fmri => fmri(rt, alloc, out, one),
            Asked::Pattern => pattern(rt, alloc, out, one),
            Asked::Matches => matches(rt, alloc, out, one, two),
            Asked::Admits => admits(rt, alloc, out, one, two),
            Asked::Stars => put(rt, out, yes_or_no(matches_stars(one, two))),
        }
    }
}

fn a_version(rt: &impl Abort, alloc: Global, text: &str) -> Version {
    Version::parse(alloc, text).ok().expect(rt, "a version")
}

fn a_pattern(rt: &impl Abort, alloc: Global, text: &str) -> Pattern {
    Pattern::parse(alloc, text).ok().expect(rt, "a pattern")
}

// The part in which a text goes wrong, and the place.
fn put_fault(rt: &impl Abort, out: &mut String, fault: Or<FmriFault>) {
    let (part, place) = match fault {
        Or::Bad(FmriFault::BadStem { place }) => ("bad stem ", place),
        Or::Bad(FmriFault::BadPublisher { place }) => ("bad publisher ", place),
        Or::Bad(FmriFault::BadNumber { place }) => ("bad number ", place),
        Or::Bad(FmriFault::BadTimestamp { place }) => ("bad timestamp ", place),
        Or::Bad(FmriFault::Trailing { place }) => ("bad trailing ", place),
        Or::OutOfMemory => ("memory ", 0),
    };
    put(rt, out, part);
    put_number(rt, out, place);
}

fn version(rt: &impl Abort, alloc: Global, out: &mut String, text: &str) {
    match Version::parse(alloc, text) {
        Ok(version) => {
            let printed = have(rt, version.print(alloc));
            put(rt, out, printed.as_str());
            put_numbers(rt, out, version.release());
            put_numbers(rt, out, version.build());
            put_numbers(rt, out, version.branch());
            put_numbers(rt, out, version.stamp().as_slice());
            drop(version);
        }
        Err(found) => put_fault(rt, out, found),
    }
}

// The numbers in brackets, a blank before each.
fn put_numbers(rt: &impl Abort, out: &mut String, numbers: &[u64]) {
    put(rt, out, " [");
    for number in numbers {
        put(rt, out, " ");
        put_number(rt, out, *number);
    }
    put(rt, out, " ]");
}

fn compared(rt: &impl Abort, alloc: Global, out: &mut String, one: &str, others: &str) {
    let one = a_version(rt, alloc, one);
    let others = if others.is_empty() { ASCENDING } else { others };
    for other in others.split_whitespace() {
        put_compared(rt, alloc, out, &one, other);
    }
    drop(one);
}

fn put_compared(rt: &impl Abort, alloc: Global, out: &mut String, one: &Version, other: &str) {
    let other = a_version(rt, alloc, other);
    let copy = have(rt, one.copy(alloc));
    put(rt, out, relation(one, &copy, &other));
    put(rt, out, if one.incorporates(&other) { "+" } else { "" });
    drop(copy);
    drop(other);
}

fn relation(one: &Version, copy: &Version, other: &Version) -> &'static str {
    match (one.order(other), copy.at_least(other), copy == other) {
        (Ordering::Less, false, false) => "<",
        (Ordering::Equal, true, true) => "=",
        (Ordering::Greater, true, false) => ">",
        _ => "?",
    }
}

fn fmri(rt: &impl Abort, alloc: Global, out: &mut String, text: &str) {
    match Fmri::parse(alloc, text) {
        Ok(fmri) => {
            let copy = have(rt, fmri.copy(alloc));
            let printed = have(rt, copy.print(alloc));
            put(rt, out, printed.as_str());
            put_parts(rt, out, &fmri);
            drop(copy);
            drop(fmri);
        }
        Err(found) => put_fault(rt, out, found),
    }
}

fn put_parts(rt: &impl Abort, out: &mut String, fmri: &Fmri) {
    if let (Some(publisher), Some(version)) = (&fmri.publisher, &fmri.version) {
        put(rt, out, " ");
        put(rt, out, publisher.as_str());
        put(rt, out, " ");
        put(rt, out, fmri.stem.as_str());
        put_numbers(rt, out, version.release());
    }
}

fn pattern(rt: &impl Abort, alloc: Global, out: &mut String, text: &str) {
    match Pattern::parse(alloc, text) {
        Ok(pattern) => {
            put_pattern(rt, alloc, out, &pattern);
            drop(pattern);
        }
        Err(found) => put_fault(rt, out, found),
    }
}

fn put_pattern(rt: &impl Abort, alloc: Global, out: &mut String, pattern: &Pattern) {
    put(
        rt,
        out,
        if pattern.anchored {
            "anchored "
        } else {
            "free "
        },
    );
    put(rt, out, if pattern.is_wild() { "wild " } else { "plain " });
    let copy = have(rt, pattern.copy(alloc));
    let printed = have(rt, copy.print(alloc));
    drop(copy);
    put(rt, out, printed.as_str());
}

fn matches(rt: &impl Abort, alloc: Global, out: &mut String, pattern: &str, stem: &str) {
    let pattern = a_pattern(rt, alloc, pattern);
    put(rt, out, matched(&pattern, stem));
    drop(pattern);
}

fn matched(pattern: &Pattern, stem: &str) -> &'static str {
    match (pattern.matches(stem), pattern.equals(stem)) {
        (true, true) => "equals",
        (true, false) => "matches",
        (false, true) => "equals alone",
        (false, false) => "no",
    }
}

fn admits(rt: &impl Abort, alloc: Global, out: &mut String, pattern: &str, version: &str) {
    let pattern = a_pattern(rt, alloc, pattern);
    let version = a_version(rt, alloc, version);
    put(rt, out, yes_or_no(pattern.admits(&version)));
    drop(pattern);
    drop(version);
}

// Each is less than the next one.
const ASCENDING: &str = "0
1
1,6
1-2
1,5-2:20240102T030405Z
1,6-2:20240102T030405Z
1-2:20240102T030406Z
1,5-2.0
1-3
1.2
1.2.0
1.9
1.10";

// How each of those stands to all of them, by release, branch, timestamp and build.
const ORDERED: &str = "
0 -> =+<<<<<<<<<<<<
1 -> >=+<+<<<<<<<<<<
1,6 -> >>+=+<<<<<<<<<<
1-2 -> >>+>+=+<<<<<<<<<
1,5-2:20240102T030405Z -> >>+>+>+=+<+<<<<<<<
1,6-2:20240102T030405Z -> >>+>+>+>+=+<<<<<<<
1-2:20240102T030406Z -> >>+>+>+>>=+<<<<<<
1,5-2.0 -> >>+>+>+>>>=+<<<<<
1-3 -> >>+>+>>>>>=+<<<<
1.2 -> >>+>+>>>>>>=+<<<
1.2.0 -> >>+>+>>>>>>>+=+<<
1.9 -> >>+>+>>>>>>>>=+<
1.10 -> >>+>+>>>>>>>>>=+
";

// A version incorporates what its parts begin with.
const INCORPORATED: &str = "
1.2.3 | 1.2 -> >+
1.2 | 1.2.3 -> <
1.20 | 1.2 -> >
1.3 | 1.2 -> >
1.2-3.4 | 1.2-3 -> >+
1.2-4 | 1.2-3 -> >
1.2 | 1.2-3 -> <
1.2,5-3 | 1.2,6-3 -> <+
1-2:20240102T030405Z | 1-2 -> >+
1-2:20240102T030405Z | 1-2:20240102T030405Z -> =+
1-2 | 1-2:20240102T030405Z -> <
1.1-2:20240102T030405Z | 1-2:20240102T030405Z -> >
";

const VERSIONS: &str = "
1.2,3.4-5.6:20240102T030405Z -> 1.2,3.4-5.6:20240102T030405Z [ 1 2 ] [ 3 4 ] [ 5 6 ] [ 20240102030405 ]
0 -> 0 [ 0 ] [ ] [ ] [ ]
1-2 -> 1-2 [ 1 ] [ ] [ 2 ] [ ]
1,2 -> 1,2 [ 1 ] [ 2 ] [ ] [ ]
1:20240131T235959Z -> 1:20240131T235959Z [ 1 ] [ ] [ ] [ 20240131235959 ]
0.5.11,5.11-0.175.3:00001201T000000Z -> 0.5.11,5.11-0.175.3:00001201T000000Z [ 0 5 11 ] [ 5 11 ] [ 0 175 3 ] [ 1201000000 ]
18446744073709551615 -> 18446744073709551615 [ 18446744073709551615 ] [ ] [ ] [ ]
";

// Where a version goes wrong.
const VERSION_FAULTS: &str = "
-> bad number 0
.1 -> bad number 0
1.02 -> bad number 3
00 -> bad number 1
1. -> bad number 2
1..2 -> bad number 2
1- -> bad number 2
1,-2 -> bad number 2
1-1,2 -> bad number 3
1,02 -> bad number 3
1-18446744073709551616 -> bad number 21
1:20242002T030405Z -> bad timestamp 6
1x -> bad number 1
18446744073709551616 -> bad number 19
1: -> bad timestamp 2
1:2024010 -> bad timestamp 9
1:20240002T030405Z -> bad timestamp 7
1:20241302T030405Z -> bad timestamp 7
1:20240100T030405Z -> bad timestamp 9
1:20240132T030405Z -> bad timestamp 9
1:20240102t030405Z -> bad timestamp 10
1:20240102T240405Z -> bad timestamp 12
1:20240102T036005Z -> bad timestamp 13
1:20240102T030460Z -> bad timestamp 15
1:20240102T030405 -> bad timestamp 17
1:20240102T030405Zx -> bad trailing 18
";

const FMRIS: &str = "
pkg://solaris/web/nginx@1.2 -> pkg://solaris/web/nginx@1.2 solaris web/nginx [ 1 2 ]
web/nginx@1.2 -> web/nginx@1.2
pkg:/web/nginx@1.2 -> web/nginx@1.2
pkg://solaris/web/nginx@1.2,5-3 -> pkg://solaris/web/nginx@1.2,5-3 solaris web/nginx [ 1 2 ]
pkg://solaris/web/nginx -> pkg://solaris/web/nginx
pkg -> pkg
pkg@1 -> pkg@1
pkg:/pkg -> pkg
0a.b_c-d+e/F -> 0a.b_c-d+e/F
";

// Where an FMRI goes wrong.
const FMRI_FAULTS: &str = "
-> bad stem 0
/a -> bad stem 0
_a -> bad stem 0
a/ -> bad stem 2
a//b -> bad stem 2
a b -> bad stem 1
a* -> bad stem 1
aü -> bad stem 1
pkg: -> bad stem 4
pkg:a -> bad stem 4
pkg:/ -> bad stem 5
pkg:/@1 -> bad stem 5
pkgs:/a -> bad stem 4
pkg:// -> bad publisher 6
pkg:///a -> bad publisher 6
pkg://p -> bad publisher 7
pkg://p@1 -> bad publisher 7
pkg://p/ -> bad stem 8
a@ -> bad number 2
a@1.02 -> bad number 5
a@1@2 -> bad number 3
a@1:2024 -> bad timestamp 8
a@1:20240102T030405Z@ -> bad trailing 20
";

// The bounds of the quoted forms.
const BOUNDS: &str = "
{a*255} -> {a*255}
{a*256} -> bad stem 256
{a*256}@1x -> bad stem 256
{a*256}! -> bad stem 256
b/{a*251}@1 -> b/{a*251}@1
b/{a*252}@1 -> bad stem 254
b/{a*252}/ -> bad stem 255
pkg://{a*255}/b -> pkg://{a*255}/b
pkg://{a*256}/b -> bad publisher 262
a@1{.1*127} -> a@1{.1*127}
a@11{.1*127} -> bad trailing 258
a@1,1{.1*125} -> a@1,1{.1*125}
a@1,11{.1*125} -> bad trailing 256
a@11{.1*127}x -> bad number 258
";

const PATTERN_BOUNDS: &str = "
{**85} -> free wild {**85}
{**86} -> bad stem 86
";

const PATTERNS: &str = "
nginx -> free plain nginx
/web/nginx -> anchored plain pkg:/web/nginx
pkg:/web/nginx -> anchored plain pkg:/web/nginx
pkg://solaris/web/ngin?@1 -> anchored wild pkg://solaris/web/ngin?@1
*/x*@1.2 -> free wild */x*@1.2
/ -> bad stem 1
//a -> bad stem 1
a/+ -> bad stem 2
pkg://*/a -> bad publisher 6
*@* -> bad number 2
";

// Which stems a pattern matches, and which it equals.
const MATCHES: &str = "
nginx | web/nginx -> matches
nginx | web/server/nginx -> matches
server/nginx | web/server/nginx -> matches
/nginx | web/nginx -> no
/web/nginx | web/nginx -> equals
pkg:/nginx | web/nginx -> no
pkg://p/nginx | web/nginx -> no
ginx | web/nginx -> no
web | web/nginx -> no
* | web/nginx -> matches
web*x | web/nginx -> matches
/w*/*x | web/nginx -> matches
w?b/nginx | web/nginx -> matches
nginx? | web/nginx -> no
nginx* | web/nginx -> matches
?nginx | web/nginx -> no
/a*b*c | abbcbc -> matches
/a*bc*d | abbcbcd -> matches
/a*bd*c | abbcbc -> no
/a**c | ac -> matches
/a*a | a -> no
/? | ü -> matches
/?? | ü -> no
/*? | -> no
/* | -> matches
nginx@1.2 | nginx -> equals
nginx@1.2 | web/nginx -> matches
";

// A search that tries each way to share the text among the stars would take longer than any test has.
const HOSTILE: &str = "
{*a*63} | {a*2000} -> matches
{*a*62}*b | {a/*1000} -> no
";

const ADMITTED: &str = "
nginx@1.2 | 1.2.3 -> yes
nginx@1.2 | 1.3 -> no
nginx | 1 -> yes
";

// By stars alone.
const STARS: &str = "
facet.doc | facet.doc -> yes
facet.doc | facet.docs -> no
facet.locale.* | facet.locale.de -> yes
facet.locale.* | facet.locale. -> yes
facet.locale.* | facet.locale -> no
facet.*.de | facet.locale.de -> yes
* | -> yes
facet.loc?le.de | facet.locale.de -> no
facet.loc?le.* | facet.loc?le.de -> yes
*a*b | üab -> yes
";

const TABLES: &[(Asked, u64, &str)] = &[
    (Asked::Compared, 13, ORDERED),
    (Asked::Compared, 12, INCORPORATED),
    (Asked::Version, 7, VERSIONS),
    (Asked::Version, 26, VERSION_FAULTS),
    (Asked::Fmri, 9, FMRIS),
    (Asked::Fmri, 23, FMRI_FAULTS),
    (Asked::Fmri, 14, BOUNDS),
    (Asked::Pattern, 2, PATTERN_BOUNDS),
    (Asked::Pattern, 10, PATTERNS),
    (Asked::Matches, 27, MATCHES),
    (Asked::Matches, 2, HOSTILE),
    (Asked::Admits, 3, ADMITTED),
    (Asked::Stars, 10, STARS),
];

#[test]
fn versions_fmris_and_patterns(rt: HostRuntime) {
    let alloc = rt.alloc();
    all_hold(&rt, alloc, TABLES);
}
