//! Files of rules.

use ips_rules::{Operation, RuleLine, Selector, read_rules};
use ips_text::Or;
use std::alloc::{AllocError, Global};
use std::process::Abort;

// A file of rules, and what is told of it: each rule behind the number of its line, with patterns and values in brackets, or the first
// line that is no rule.
const FILES: [(&[u8], &[u8]); 58] = [
    (b"", b""),
    // Lines that are skipped, and one that goes on with the next.
    (
        b"# a rule\n\n \t\n  # \\\n<transform -> frob>\n<transform -> drop>",
        b"6: -> drop;",
    ),
    (
        b"<transform file dir \\\n path=a \\\n-> drop>\n<transform -> drop>\\",
        b"1: file dir path=[a] -> drop;4: -> drop;",
    ),
    // Each operation.
    (b"<transform file -> drop>", b"1: file -> drop;"),
    (b"<transform file -> add a b>", b"1: file -> add a [b];"),
    (
        b"<transform file -> default a b>",
        b"1: file -> default a [b];",
    ),
    (b"<transform file -> set a b>", b"1: file -> set a [b];"),
    (
        b"<transform file -> delete a ^b>",
        b"1: file -> delete a [^b];",
    ),
    (
        b"<transform file -> edit a ^b $0>",
        b"1: file -> edit a [^b][$0];",
    ),
    // Each with a word too few or too many, and words that are no operation.
    (b"<transform file -> drop a>", b"bad 1"),
    (b"<transform file -> drop a b>", b"bad 1"),
    (b"<transform file -> add a>", b"bad 1"),
    (b"<transform file -> set a b c>", b"bad 1"),
    (b"<transform file -> delete a>", b"bad 1"),
    (b"<transform file -> edit a b>", b"bad 1"),
    (b"<transform file -> edit a b c d>", b"bad 1"),
    (b"<transform file -> frob>", b"bad 1"),
    (b"<transform file -> frob a b>", b"bad 1"),
    (b"<transform file -> >", b"bad 1"),
    (b"<transform file ->>", b"bad 1"),
    // The first arrow counts, however it is written.
    (b"<transform file drop>", b"bad 1"),
    (b"<transform>", b"bad 1"),
    (b"<transform -> -> drop>", b"bad 1"),
    (b"<transform -> set a ->>", b"1: -> set a [->];"),
    (b"<transform file '->' drop>", b"1: file -> drop;"),
    // What stands around the words.
    (b"<transform\tfile\t->\tdrop \t>", b"1: file -> drop;"),
    (b" <transform -> drop>", b"bad 1"),
    (b"<transform -> drop> ", b"bad 1"),
    (b"<transform-> drop>", b"bad 1"),
    (b"<transforms -> drop>", b"bad 1"),
    (b"<transform -> drop", b"bad 1"),
    (b"<transform -> drop>>", b"bad 1"),
    (b"<transform -> set a b>>", b"1: -> set a [b>];"),
    // Values between quotes: a word as a whole, or behind a key and `=`, where it stands before the arrow.
    (
        b"<transform \"path=a b\" -> drop>",
        b"1: path=[a b] -> drop;",
    ),
    (
        b"<transform path=\"a b\" -> drop>",
        b"1: path=[a b] -> drop;",
    ),
    (b"<transform path='a' \"path\"=a -> drop>", b"bad 1"),
    (
        b"<transform path='a\\'\\\\\\b' -> drop>",
        b"1: path=[a'\\\\b] -> drop;",
    ),
    (
        b"<transform path=a\"b\" path=a=\"b\" -> drop>",
        b"1: path=[a\"b\"] path=[a=\"b\"] -> drop;",
    ),
    (
        b"<transform path= path='' -> drop>",
        b"1: path=[] path=[] -> drop;",
    ),
    (b"<transform path=\"a -> drop>", b"bad 1"),
    (b"<transform path=\"a\"b -> drop>", b"bad 1"),
    (b"<transform \"file\"dir -> drop>", b"bad 1"),
    (
        b"<transform 'file' -> 'set' \"a\" ' b '>",
        b"1: file -> set a [ b ];",
    ),
    (b"<transform -> set a b=\"c\">", b"1: -> set a [b=\"c\"];"),
    (b"<transform -> set a b=\"c d\">", b"bad 1"),
    (b"<transform -> set a \"b>", b"bad 1"),
    (b"<transform -> set a 'b'c>", b"bad 1"),
    // Attributes that are no keys, and names that are no kinds.
    (b"<transform =a -> drop>", b"bad 1"),
    (b"<transform ='a' -> drop>", b"bad 1"),
    (b"<transform a\"b=c -> drop>", b"bad 1"),
    (b"<transform 'a b=c' -> drop>", b"bad 1"),
    (b"<transform -> add a=b c>", b"bad 1"),
    (b"<transform -> edit '' b c>", b"bad 1"),
    (b"<transform files -> drop>", b"bad 1"),
    // Bytes that aren't UTF-8, and the first bad line of several.
    (b"<transform -> drop>\n# \xff", b"bad 2"),
    (b"<transform -> \\\nset a \\\n\xff>", b"bad 3"),
    (
        b"<transform -> drop>\n<transform -> \\\nfrob>\n\xff",
        b"bad 2",
    ),
    (b"\n<transform -> set a b\\\n>\n>", b"bad 4"),
];

#[test]
fn rules_are_read_or_the_first_bad_line_is_told(rt: HostRuntime) {
    let alloc = rt.alloc();
    for (file, wanted) in FILES {
        let told = told(&rt, alloc, file);
        assert!(rt; told.as_bytes() == wanted, "{told}");
    }
}

fn told(rt: &impl Abort, alloc: Global, file: &[u8]) -> String {
    match read_rules(alloc, file) {
        Ok(rules) => rules_text(alloc, &rules).expect(rt, "memory"),
        Err(Or::Bad(line)) => format!(in alloc; "bad {line}").expect(rt, "memory"),
        Err(Or::OutOfMemory) => panic!(rt; "memory"),
    }
}

fn rules_text(alloc: Global, rules: &[RuleLine]) -> Result<String, AllocError> {
    let mut out = String::new(alloc);
    for line in rules {
        let number = format!(in alloc; "{}:", line.number)?;
        out.push_str(number.as_str())?;
        push_selectors(alloc, &mut out, &line.rule.selectors)?;
        let operation = operation_text(alloc, &line.rule.operation)?;
        out.push_str(" -> ")?;
        out.push_str(operation.as_str())?;
        out.push_str(";")?;
    }
    Ok(out)
}

fn push_selectors(alloc: Global, out: &mut String, list: &[Selector]) -> Result<(), AllocError> {
    for selector in list {
        let text = match selector {
            Selector::Kind(kind) => format!(in alloc; " {}", kind.name())?,
            Selector::Criterion { key, pattern } => {
                format!(in alloc; " {}=[{}]", key.as_str(), pattern.as_str())?
            }
        };
        out.push_str(text.as_str())?;
    }
    Ok(())
}

fn operation_text(alloc: Global, operation: &Operation) -> Result<String, AllocError> {
    match operation {
        Operation::Drop => String::from_str(alloc, "drop"),
        Operation::Add { key, value } => {
            format!(in alloc; "add {} [{}]", key.as_str(), value.as_str())
        }
        Operation::Default { key, value } => {
            format!(in alloc; "default {} [{}]", key.as_str(), value.as_str())
        }
        Operation::Set { key, value } => {
            format!(in alloc; "set {} [{}]", key.as_str(), value.as_str())
        }
        Operation::Delete { key, pattern } => {
            format!(in alloc; "delete {} [{}]", key.as_str(), pattern.as_str())
        }
        Operation::Edit {
            key,
            pattern,
            template,
        } => {
            format!(in alloc;
                "edit {} [{}][{}]",
                key.as_str(),
                pattern.as_str(),
                template.as_str()
            )
        }
    }
}
