ghost use Rattle.std.specs.Prelude.{◌≤◌};

use crate::stops::{have, must};
use crate::table::{Ask, all_hold, text};
use crate::told::{put, put_mode, put_number, yes_or_no};
use ips_text::{
    Or, PathFault, RelPath, Text, covers, decimal, fits_name, number, octal, parent, quote,
    show_path, unquote,
};
use std::alloc::Global;
use std::cmp::Ordering;
use std::process::Abort;

// What a table asks of bytes.
enum Asked {
    // How the path is shown and what it lies below, or its first fault.
    Path,
    // The path, which keeps room, and what it is behind each of three others that is set in its place, and whether it is greater.
    Set,
    Covers,
    // The decimal number and the mode.
    Whole,
    // The number in front and what is behind it, or how much is left where it stops.
    Front,
    // How the bytes are quoted, and whether they fit a name then.
    Quoted,
    // Whether the text is what these bytes are quoted as, or bad.
    Unquoted,
    // How a copy of one text stands to another one.
    Order,
}

impl Ask for Asked {
    fn answer(&self, rt: &impl Abort, alloc: Global, out: &mut String, one: &[u8], two: &[u8]) {
        match self {
            Asked::Path => path(rt, alloc, out, one),
            Asked::Set => set(rt, alloc, out, one, text(rt, two)),
            Asked::Covers => put(rt, out, yes_or_no(covers(one, two))),
            Asked::Whole => whole(rt, out, one),
            Asked::Front => front(rt, out, one),
            Asked::Quoted => quoted(rt, alloc, out, one),
            Asked::Unquoted => unquoted(rt, alloc, out, one, two),
            Asked::Order => order(rt, alloc, out, text(rt, one), text(rt, two)),
        }
    }
}

fn fault(fault: PathFault) -> &'static str {
    match fault {
        PathFault::Empty => "empty",
        PathFault::Absolute => "absolute",
        PathFault::DotPart => "dot part",
        PathFault::EmptyPart => "empty part",
        PathFault::NulByte => "nul byte",
        PathFault::NotText => "not text",
        PathFault::TooLong => "too long",
    }
}

fn path(rt: &impl Abort, alloc: Global, out: &mut String, bytes: &[u8]) {
    match RelPath::parse(alloc, bytes) {
        Ok(path) => {
            let shown = have(rt, show_path(alloc, &path));
            put(rt, out, shown.as_str());
            put(rt, out, " below ");
            put(rt, out, text(rt, parent(bytes).unwrap_or(b"none")));
        }
        Err(Or::Bad(found)) => put(rt, out, fault(found)),
        Err(Or::OutOfMemory) => put(rt, out, "out of memory"),
    }
}

fn set(rt: &impl Abort, alloc: Global, out: &mut String, first: &[u8], others: &str) {
    let (second, rest) = others.split_once(' ').expect(rt, "another path");
    let (third, last) = rest.split_once(' ').expect(rt, "another path");
    let mut path = RelPath::with_room(alloc, first).ok().expect(rt, "a path");
    put(rt, out, text(rt, path.bytes()));
    set_one(rt, alloc, out, &mut path, second);
    set_one(rt, alloc, out, &mut path, third);
    set_one(rt, alloc, out, &mut path, last);
}

fn set_one(rt: &impl Abort, alloc: Global, out: &mut String, path: &mut RelPath, other: &str)
    requires { 1023 ≤ path.old.room }
    ensures { 1023 ≤ path.new.room }
{
    let before = have(rt, path.copy(alloc));
    must(rt, before == *path, "another copy");
    let found = match path.set(other.as_bytes()) {
        Ok(()) => "set",
        Err(found) => fault(found),
    };
    let is_greater = before < *path;
    put(rt, out, "; ");
    put(rt, out, found);
    put(rt, out, ": ");
    put(rt, out, text(rt, path.bytes()));
    put(rt, out, if is_greater { ", greater" } else { "" });
}

fn whole(rt: &impl Abort, out: &mut String, bytes: &[u8]) {
    match decimal(bytes) {
        Some(value) => put_number(rt, out, value),
        None => put(rt, out, "none"),
    }
    match octal(bytes) {
        Some(mode) => {
            put(rt, out, " ");
            put_mode(rt, out, mode);
        }
        None => put(rt, out, " none"),
    }
}

fn front(rt: &impl Abort, out: &mut String, bytes: &[u8]) {
    match number((), bytes) {
        Ok((value, rest)) => {
            put_number(rt, out, value);
            put(rt, out, " and ");
            put(rt, out, text(rt, rest));
        }
        Err(stop) => {
            put_number(rt, out, stop.left as u64);
            put(rt, out, " left");
        }
    }
}

fn quoted(rt: &impl Abort, alloc: Global, out: &mut String, bytes: &[u8]) {
    put(
        rt,
        out,
        if fits_name(bytes) {
            "fits: "
        } else {
            "too long: "
        },
    );
    let quoted = have(rt, quote(alloc, bytes));
    put(rt, out, quoted.as_str());
}

fn unquoted(rt: &impl Abort, alloc: Global, out: &mut String, quoted: &[u8], bytes: &[u8]) {
    put(
        rt,
        out,
        match unquote(alloc, quoted) {
            Ok(found) => if found.as_slice() == bytes {
                "so"
            } else {
                "other bytes"
            },
            Err(Or::Bad(_)) => "bad",
            Err(Or::OutOfMemory) => "out of memory",
        },
    );
}

fn order(rt: &impl Abort, alloc: Global, out: &mut String, one: &str, two: &str) {
    let one = have(rt, Text::new(alloc, one));
    let one = have(rt, one.copy(alloc));
    let two = have(rt, Text::new(alloc, two));
    put(rt, out, relation(&one, &two));
}

fn relation(one: &Text, two: &Text) -> &'static str {
    match (one.cmp(two), one == two) {
        (Ordering::Less, false) => "less",
        (Ordering::Equal, true) => "equal",
        (Ordering::Greater, false) => "greater",
        _ => "at odds",
    }
}

// A path and what it lies below, or the first fault.
const PATHS: &str = "
usr/share/hello -> usr/share/hello below usr/share
a -> a below none
... -> ... below none
.hidden/..x -> .hidden/..x below .hidden
a b -> a%20b below none
ü -> %C3%BC below none
-> empty
/ -> absolute
/.. -> absolute
. -> dot part
a//.. -> dot part
a/./{0x00} -> dot part
a/ -> empty part
a//{0x00} -> empty part
a{0x00}{0xff} -> nul byte
a{0xff} -> not text
{0xc0}{0xaf} -> not text
usr/bin/ls -> usr/bin/ls below usr/bin
usr/bin -> usr/bin below usr
usr -> usr below none
# As they are shown.
usr/bin/ls -> usr/bin/ls below usr/bin
a b/c%2F -> a%20b/c%252F below a b
À/x¶y -> %C3%80/x%0Ay below À
# The bounds of a part and of a path.
{a*256} -> too long
{a*255} -> {a*255} below none
{a*255}{/a*384} -> {a*255}{/a*384} below {a*255}{/a*383}
{a*254}{/a*385} -> too long
a{/a*511} -> a{/a*511} below a{/a*510}
aa{/a*511} -> too long
";

// What isn't set leaves the path as it was.
const SET: &str = "
a | b{/a*511} c/d e/.. -> a; set: b{/a*511}, greater; set: c/d, greater; dot part: c/d
c | c/d c c/d -> c; set: c/d, greater; set: c; set: c/d, greater
";

const COVERING: &str = "
usr | usr -> yes
usr | usr/bin/ls -> yes
usr | usr2 -> no
usr/bin | usr -> no
usr/b | usr/bin -> no
";

// Whole numbers, and modes behind them.
const WHOLE: &str = "
0 -> 0 0
10 -> 10 10
18446744073709551615 -> 18446744073709551615 none
18446744073709551616 -> none none
007 -> none 7
00 -> none 0
-> none none
+1 -> none none
1x -> none none
# Modes.
0 -> 0 0
0755 -> none 755
755 -> 755 755
7777 -> 7777 7777
07777 -> none 7777
04755 -> none 4755
14755 -> 14755 none
004755 -> none none
-> none none
8 -> 8 none
07a5 -> none none
";

// Numbers in front of something.
const FRONTS: &str = "
12.5 -> 12 and .5
012 -> 2 left
";

// Texts as they are quoted, and whether they fit a name then.
const QUOTED: &str = "
-> fits:{blank}
aZ09_.- -> fits: aZ09_.-
web/nginx -> fits: web%2Fnginx
1.0,5.11-1:20240101T000000Z -> fits: 1.0%2C5.11-1%3A20240101T000000Z
a%+~ {0x00}{0xff} -> fits: a%25%2B%7E%20%00%FF
# Examples of RFC 3986, section 2.5.
À -> fits: %C3%80
ア -> fits: %E3%82%A2
# The bounds of a name.
{a*255} -> fits: {a*255}
{a*256} -> too long: {a*256}
{,*85} -> fits: {%2C*85}
{,*86} -> too long: {%2C*86}
-> fits:{blank}
";

// What is quoted is unquoted to the bytes.
const UNQUOTED: &str = "
| -> so
aZ09_.- | aZ09_.- -> so
web%2Fnginx | web/nginx -> so
1.0%2C5.11-1%3A20240101T000000Z | 1.0,5.11-1:20240101T000000Z -> so
a%25%2B%7E%20%00%FF | a%+~ {0x00}{0xff} -> so
%C3%80 | À -> so
%E3%82%A2 | ア -> so
{a*255} | {a*255} -> so
{a*256} | {a*256} -> so
{%2C*85} | {,*85} -> so
{%2C*86} | {,*86} -> so
| -> so
";

// What is no quoted text.
const NOT_QUOTED: &str = "
a%2cb -> bad
a,b -> bad
% -> bad
%4 -> bad
%41 -> bad
%GG -> bad
ü -> bad
a/b -> bad
";

// Texts stand in the order of their bytes.
const ORDER: &str = "
b/c | b -> greater
b/c | b.c -> greater
b/c | b/c -> equal
b/c | b/c0 -> less
b/c | ü -> less
";

const TABLES: &[(Asked, u64, &str)] = &[
    (Asked::Path, 29, PATHS),
    (Asked::Set, 2, SET),
    (Asked::Covers, 5, COVERING),
    (Asked::Whole, 20, WHOLE),
    (Asked::Front, 2, FRONTS),
    (Asked::Quoted, 12, QUOTED),
    (Asked::Unquoted, 12, UNQUOTED),
    (Asked::Unquoted, 8, NOT_QUOTED),
    (Asked::Order, 5, ORDER),
];

#[test]
fn texts_paths_and_numbers(rt: HostRuntime) {
    let alloc = rt.alloc();
    all_hold(&rt, alloc, TABLES);
}
