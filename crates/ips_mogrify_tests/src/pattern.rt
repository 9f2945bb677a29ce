//! Patterns.

use ips_pattern::{NoPattern, Pattern};
use ips_text::Or;
use std::alloc::Global;
use std::process::Abort;

// A pattern, a template, a value, and what the replacement leaves of it; none where the pattern doesn't match.
const REPLACED: [(&str, &str, &str, Option<&str>); 13] = [
    ("usr", "opt", "usr/share/usr", Some("opt/share/opt")),
    ("^usr", "opt", "usr/share/usr", Some("opt/share/usr")),
    ("^usr", "opt", "/usr", None),
    ("USR", "opt", "usr", None),
    ("(?i)USR", "opt", "usr", Some("opt")),
    // Groups by number and by name, the whole match, a dollar, and groups that aren't there or took no part.
    (
        "^usr/([^/]*)/(?<rest>.*)",
        "$rest/${1}s",
        "usr/lib/a",
        Some("a/libs"),
    ),
    ("b", "[$0$0]", "abc", Some("a[bb]c")),
    ("b", "$$1", "abc", Some("a$1c")),
    ("a(x)?b", "<$1$2$none>", "ab", Some("<>")),
    // What is empty: a pattern that matches between characters, a value, and a template.
    ("x*", "-", "a\u{e9}", Some("-a-\u{e9}-")),
    ("^$", "new", "", Some("new")),
    (".", "", "ab", Some("")),
    (".", "a", "", None),
];

#[test]
fn matches_are_found_and_replaced(rt: HostRuntime) {
    let alloc = rt.alloc();
    for (text, template, value, wanted) in REPLACED {
        let pattern = pattern(&rt, alloc, text);
        let mut finder = pattern.finder(alloc).expect(&rt, "memory");
        assert_eq!(rt; finder.matches(value), wanted.is_some(), "{text}");
        let mut editor = pattern.editor(alloc, template).expect(&rt, "memory");
        let replaced = editor.replaced(alloc, value).expect(&rt, "memory");
        assert!(rt; replaced.as_str() == wanted.unwrap_or(value), "{text}");
        let again = editor.replaced(alloc, value).expect(&rt, "memory");
        assert!(rt; again.as_str() == replaced.as_str(), "{text}");
    }
}

fn pattern(rt: &impl Abort, alloc: Global, text: &str) -> Pattern {
    match Pattern::new(alloc, text) {
        Ok(pattern) => pattern,
        Err(Or::Bad(NoPattern)) => panic!(rt; "no pattern: {text}"),
        Err(Or::OutOfMemory) => panic!(rt; "memory"),
    }
}

#[test]
fn what_is_no_pattern_is_told_apart_from_what_is_too_large(rt: HostRuntime) {
    let alloc = rt.alloc();
    for text in ["(", "[a", "*", "a{2,1}", "\\", "(?<n>a)(?<n>b)"] {
        assert!(rt;
            matches!(Pattern::new(alloc, text), Err(Or::Bad(NoPattern))),
            "{text}"
        );
    }
    assert!(rt; matches!(Pattern::new(alloc, r"\w{1000}{1000}"), Err(Or::OutOfMemory)));
    assert!(rt; matches!(Pattern::new(alloc, nested(&rt, alloc, 250).as_str()), Ok(_)));
    assert!(rt;
        matches!(
            Pattern::new(alloc, nested(&rt, alloc, 251).as_str()),
            Err(Or::Bad(NoPattern))
        )
    );
}

// So many groups, one within the other.
fn nested(rt: &impl Abort, alloc: Global, depth: usize) -> String {
    let mut text = "(".repeat(alloc, depth).expect(rt, "memory");
    let end = ")".repeat(alloc, depth).expect(rt, "memory");
    text.push_str(end.as_str()).expect(rt, "memory");
    text
}
