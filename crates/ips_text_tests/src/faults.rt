//! Why a line is no action, a text no catalog, and two actions clash: which fault or rule is told, and its place.

use crate::table::{Ask, all_hold, text};
use crate::told::{put, put_number};
use ips_action::{Action, ActionFault, parse_line, print_line};
use ips_catalog::{Catalog, CatalogFault};
use ips_conflict::{Placed, Rule, clash};
use ips_text::{Or, Text};
use std::alloc::Global;
use std::process::Abort;

// What a table asks of lines: the canonical line of the action, or the fault.
struct Line;

impl Ask for Line {
    fn answer(&self, rt: &impl Abort, alloc: Global, out: &mut String, one: &[u8], _: &[u8]) {
        match parse_line(alloc, text(rt, one)) {
            Ok(action) => {
                let printed = print_line(alloc, &action).expect(rt, "memory");
                put(rt, out, printed.as_str());
            }
            Err(Or::OutOfMemory) => put(rt, out, "out of memory"),
            Err(Or::Bad(fault)) => put_fault(rt, out, &fault),
        }
    }
}

fn put_fault(rt: &impl Abort, out: &mut String, fault: &ActionFault) {
    let (what, place) = match fault {
        ActionFault::UnknownAction { place } => ("unknown ", *place),
        ActionFault::BadWord { place } => ("word ", *place),
        ActionFault::OpenQuote { place } => ("quote ", *place),
        ActionFault::MissingKey { name } => return put_named(rt, out, "missing ", name.as_str()),
        ActionFault::BadValue { name } => return put_named(rt, out, "bad ", name.as_str()),
    };
    put(rt, out, what);
    put_number(rt, out, place);
}

fn put_named(rt: &impl Abort, out: &mut String, what: &str, name: &str) {
    put(rt, out, what);
    put(rt, out, name);
}

// What a table asks of texts in which the publisher `test` is sought: the fault.
struct Offered;

impl Ask for Offered {
    fn answer(&self, rt: &impl Abort, alloc: Global, out: &mut String, one: &[u8], _: &[u8]) {
        let fault = Catalog::read(alloc, one, "test").err();
        match &fault {
            None => put(rt, out, "a catalog"),
            Some(Or::OutOfMemory) => put(rt, out, "out of memory"),
            Some(Or::Bad(fault)) => put_offered(rt, out, fault),
        }
        drop(fault);
    }
}

fn put_offered(rt: &impl Abort, out: &mut String, fault: &CatalogFault) {
    match fault {
        CatalogFault::NotJson => put(rt, out, "no json"),
        CatalogFault::WrongShape { pointer } => {
            put_named(rt, out, "shape '", pointer.as_str());
            put(rt, out, "'");
        }
        CatalogFault::BadVersion { stem, place } => {
            put_named(rt, out, "bad version of ", stem.as_str());
            put(rt, out, " at ");
            put_number(rt, out, *place);
        }
        CatalogFault::Repeated { stem, version } => {
            put_named(rt, out, "repeated ", stem.as_str());
            put_named(rt, out, " ", version.as_str());
        }
    }
}

// What a table asks of the first line of two packages: whether they clash, by which rule and at which key.
struct Both;

impl Ask for Both {
    fn answer(&self, rt: &impl Abort, alloc: Global, out: &mut String, one: &[u8], two: &[u8]) {
        let first = action(rt, alloc, text(rt, one));
        let second = action(rt, alloc, text(rt, two));
        let stem = Text::new(alloc, "a").expect(rt, "memory");
        let other = Text::new(alloc, "b").expect(rt, "memory");
        let placed = [
            Placed::new(&stem, 1, &first),
            Placed::new(&other, 1, &second),
        ];
        match clash(alloc, &placed).expect(rt, "memory") {
            None => put(rt, out, "none"),
            Some(found) => put_named(rt, out, rule_word(&found.rule), found.key.as_str()),
        }
    }
}

fn action(rt: &impl Abort, alloc: Global, line: &str) -> Action {
    parse_line(alloc, line).ok().expect(rt, "an action")
}

fn rule_word(rule: &Rule) -> &'static str {
    match rule {
        Rule::Kinds => "kinds at ",
        Rule::Attributes => "attributes at ",
        Rule::Deliverers => "deliverers at ",
        Rule::Mediator => "mediator at ",
        Rule::Below => "below ",
        Rule::Target => "target of ",
    }
}

// Lines, and how they are written.
const CANONICAL: &str = r#"
set value="a \"b\" c" name=pkg.summary -> set name=pkg.summary value="a \"b\" c"
set name=x value=b value=a value='' -> set name=x value=b value=a value=""
set name=é value={v*70000} value=日本 -> set name=é value={v*70000} value=日本
set name=path path=//usr value=1 -> set name=path path=//usr value=1
dir path=/usr mode=755 owner=root group=bin -> dir group=bin mode=755 owner=root path=usr
dir path=///usr/bin mode=0755 owner=root group=bin -> dir group=bin mode=0755 owner=root path=usr/bin
{tab} dir{tab}mode=0755 x=2 path=a owner=root group=bin x=1 a.b=c{blank} -> dir a.b=c group=bin mode=0755 owner=root path=a x=2 x=1
file a9993e364706816aba3e25717850c26c9cd0d89d path=f mode=1 owner='' group=g -> file a9993e364706816aba3e25717850c26c9cd0d89d group=g mode=1 owner="" path=f
link path=l target='a b' payload=x -> link path=l payload=x target="a b"
driver name='a\' b\\c\d' -> driver name="a' b\\c\\d"
signature value=x -> signature value=x
"#;

const FAULTS: &str = r#"
file path='x -> quote 10
frob path='x -> quote 10
frob a=b -> unknown 0
{blank}Dir payload a=b -> unknown 1
frob a= -> word 7
dir=x -> unknown 0
-> word 0
{blank}{tab} -> word 2
set a=b "c"=d -> word 8
dir x path=a mode=0755 -> word 4
set {tab} abc name=x -> word 6
dir path=x mode=0755 owner=root -> missing group
dir path=.. mode=x -> bad path
dir mode=x -> missing path
file a9993e364706816aba3e25717850c26c9cd0d89d path=../etc/passwd mode=0644 owner=root group=bin -> bad path
dir path=a//b mode=0755 owner=root group=bin -> bad path
hardlink path=bin/b target=../../x -> bad target
dir path=a mode=x owner=a owner=b -> bad mode
dir path=a mode=1 owner=a owner=b -> bad owner
dir path=a mode=1 owner=o group=g facet.b=x facet.a=y -> bad facet.a
dir path=a facet.a=y -> missing mode
# A path of 960 bytes has three `/` between four parts.
dir group=g mode=1 owner=o path=/{a*239}/{a*239}/{a*239}/{a*240} -> dir group=g mode=1 owner=o path={a*239}/{a*239}/{a*239}/{a*240}
dir group=g mode=1 owner=o path=/{a*240}/{a*239}/{a*239}/{a*240} -> bad path
dir group=g mode=1 owner=o path=/{a*255}/{a*240} -> dir group=g mode=1 owner=o path={a*255}/{a*240}
dir group=g mode=1 owner=o path=/{a*256}/a -> bad path
dir group=g mode=1 owner=o path=/a/{a*241} -> bad path
"#;

const NO_JSON: &str = r#"
-> no json
{0x7b}"test": {0x7b}"hello": [{0x7b}"version": "1" -> no json
{0x7b}"test": {0x7b}}} x -> no json
{0x7b}'test': {0x7b}}} -> no json
# Also what isn't looked at has to be JSON.
{0x7b}"x": 1e999} -> no json
{0x7b}"x": "\ud800"} -> no json
{0x7b}"x": [[], {0x7b}"y": [-1e999]}], "test": 5} -> no json
{0x7b}"test": {0x7b}"a": 1e999}} -> no json
{0x7b}"test": {0x7b}"a": [{0x7b}"size": 1e999, "version": "x"}]}} -> no json
{0x7b}"test": {0x7b}"a": [{0x7b}"version": 1e999}]}} -> no json
{0x7b}"test": {0x7b}"a": [{0x7b}"version": "1", "x": [}]}} -> no json
{blank} -> no json
# Nested too deeply, and just not.
{[*200}{]*200} -> no json
{0x7b}"x": {[*127}{]*127}} -> no json
{0x7b}"x": {[*126}{]*126}} -> a catalog
{0x7b}"test": {0x7b}"a": [{0x7b}"x": {[*124}{]*124}, "version": "x"}]}} -> no json
{0x7b}"test": {0x7b}"a": [{0x7b}"x": {[*123}{]*123}, "version": "x"}]}} -> bad version of a at 0
# A key that is no UTF-8.
{0x7b}"{0xff}":1} -> no json
"#;

const SHAPES: &str = r#"
# The top value and the publisher's.
[] -> shape ''
null -> shape ''
"test" -> shape ''
{0x7b}"test": []} -> shape '/test'
{0x7b}"test": null} -> shape '/test'
# What stands at a stem, and keys that are none.
{0x7b}"test": {0x7b}"hello": {0x7b}}}} -> shape '/test/hello'
{0x7b}"test": {0x7b}"hello": "1"}} -> shape '/test/hello'
{0x7b}"test": {0x7b}"": []}} -> shape '/test/'
{0x7b}"test": {0x7b}"_x": []}} -> shape '/test/_x'
{0x7b}"test": {0x7b}"a//b": []}} -> shape '/test/a~1~1b'
{0x7b}"test": {0x7b}"/a": []}} -> shape '/test/~1a'
{0x7b}"test": {0x7b}"a~1": []}} -> shape '/test/a~01'
{0x7b}"test": {0x7b}"pkg:/a": []}} -> shape '/test/pkg:~1a'
{0x7b}"test": {0x7b}"a@1": []}} -> shape '/test/a@1'
{0x7b}"test": {0x7b}"a*": []}} -> shape '/test/a*'
{0x7b}"test": {0x7b}"größe": []}} -> shape '/test/größe'
# Entries.
{0x7b}"test": {0x7b}"a/b": [1]}} -> shape '/test/a~1b/0'
{0x7b}"test": {0x7b}"a": [{0x7b}"version": "1"}, []]}} -> shape '/test/a/1'
{0x7b}"test": {0x7b}"a": [{0x7b}"version": 1}]}} -> shape '/test/a/0/version'
{0x7b}"test": {0x7b}"a": [{0x7b}"version": "1"}, {0x7b}"Version": "1"}]}} -> shape '/test/a/1/version'
{0x7b}"test": {0x7b}"a": [{0x7b}}]}} -> shape '/test/a/0/version'
# The first: by the bytes of the stems, then by the entries.
{0x7b}"test": {0x7b}"b": 1, "a": 1}} -> shape '/test/a'
{0x7b}"test": {0x7b}"a": 1, "B": 1}} -> shape '/test/B'
{0x7b}"test": {0x7b}"b": [{0x7b}"version": "x"}], "a": [1]}} -> shape '/test/a/0'
{0x7b}"test": {0x7b}"a": [{0x7b}}, {0x7b}"version": "x"}, 1]}} -> shape '/test/a/0/version'
{0x7b}"test": {0x7b}"a": [{0x7b}"version": "0"}, {0x7b}"version": "1"}, {0x7b}"version": "2"}, {0x7b}"version": "3"}, {0x7b}"version": "4"}, {0x7b}"version": "5"}, {0x7b}"version": "6"}, {0x7b}"version": "7"}, {0x7b}"version": "8"}, {0x7b}"version": "9"}, {0x7b}"version": "10"}, {0x7b}"version": "11"}, 3]}} -> shape '/test/a/12'
{0x7b}"test": {0x7b}"{a*256}": []}} -> shape '/test/{a*256}'
"#;

const VERSIONS: &str = r#"
{0x7b}"test": {0x7b}"a": [{0x7b}"version": ""}]}} -> bad version of a at 0
{0x7b}"test": {0x7b}"a": [{0x7b}"version": "1.x"}]}} -> bad version of a at 2
{0x7b}"test": {0x7b}"a": [{0x7b}"version": "1"}, {0x7b}"version": "1:2024"}, 3]}} -> bad version of a at 6
{0x7b}"test": {0x7b}"b": 1, "a/b": [{0x7b}"version": "01"}]}} -> bad version of a/b at 1
{0x7b}"test": {0x7b}"a": [{0x7b}"version": "1"}, {0x7b}"version": "1"}]}} -> repeated a 1
{0x7b}"test": {0x7b}"a": [{0x7b}"version": "1,2-3"}, {0x7b}"version": "\u0031,2-3"}]}} -> repeated a 1,2-3
{0x7b}"test": {0x7b}"a": [{0x7b}"version": "2"}, {0x7b}"version": "1"}, {0x7b}"version": "3"}, {0x7b}"version": "1"}, {0x7b}"version": "2"}]}} -> repeated a 1
{0x7b}"test": {0x7b}"a": [{0x7b}"version": "2"}, {0x7b}"version": "2"}, {0x7b}"version": "x"}], "b": 1}} -> repeated a 2
"#;

const RULES: &str = r#"
file da39a3ee5e6b4b0d3255bfef95601890afd80709 path=etc/m mode=0644 owner=root group=sys | file 77de68daecd823babbb58edb1c8e14d7106e83bb path=etc/m mode=0644 owner=root group=sys -> deliverers at etc/m
file da39a3ee5e6b4b0d3255bfef95601890afd80709 path=etc/m mode=0644 owner=root group=sys overlay=allow preserve=true | file 77de68daecd823babbb58edb1c8e14d7106e83bb path=etc/m mode=0644 owner=root group=sys overlay=true -> none
link path=lib target=t | file da39a3ee5e6b4b0d3255bfef95601890afd80709 path=lib/x mode=0644 owner=root group=sys -> below lib
dir path=x mode=0755 owner=root group=sys | link path=x target=t -> kinds at x
dir path=x mode=0755 owner=root group=sys | dir path=x mode=0755 owner=root group=bin -> attributes at x
dir path=x mode=0755 owner=root group=sys | dir path=/x mode=755 owner=root group=sys -> none
link path=x target=t mediator=m | link path=x target=t mediator=n -> mediator at x
hardlink path=x target=t | dir path=t mode=0755 owner=o group=g -> target of x
"#;

#[test]
fn lines_of_actions_are_told(rt: HostRuntime) {
    let alloc = rt.alloc();
    all_hold(&rt, alloc, &[(Line, 11, CANONICAL), (Line, 26, FAULTS)]);
}

#[test]
fn faults_of_catalogs_are_told(rt: HostRuntime) {
    let alloc = rt.alloc();
    all_hold(
        &rt,
        alloc,
        &[
            (Offered, 18, NO_JSON),
            (Offered, 27, SHAPES),
            (Offered, 8, VERSIONS),
        ],
    );
}

#[test]
fn rules_of_clashes_are_told(rt: HostRuntime) {
    let alloc = rt.alloc();
    all_hold(&rt, alloc, &[(Both, 8, RULES)]);
}
