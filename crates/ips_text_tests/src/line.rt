use crate::table::{Ask, all_hold, text};
use crate::told::{put, put_number};
use ips_line::{Word, WordFault, Words, push_words, read_words};
use ips_text::Or;
use std::alloc::Global;
use std::process::Abort;

// What a table asks of lines: the name and the payload with their places, how many pairs there are and the second one, and the
// canonical line; or the fault.
struct Said;

impl Ask for Said {
    fn answer(&self, rt: &impl Abort, alloc: Global, out: &mut String, one: &[u8], _: &[u8]) {
        match read_words(alloc, text(rt, one)) {
            Ok(words) => {
                put_words(rt, out, &words);
                put_canonical(rt, out, &words);
                drop(words);
            }
            Err(found) => put_fault(rt, out, found),
        }
    }
}

fn put_fault(rt: &impl Abort, out: &mut String, fault: Or<WordFault>) {
    let (what, place) = match fault {
        Or::Bad(WordFault::BadWord { place }) => ("word ", place),
        Or::Bad(WordFault::OpenQuote { place }) => ("quote ", place),
        Or::OutOfMemory => ("memory ", 0),
    };
    put(rt, out, what);
    put_number(rt, out, place);
}

fn put_words(rt: &impl Abort, out: &mut String, words: &Words) {
    put_word(rt, out, words.name);
    if let Some(payload) = words.payload {
        put_word(rt, out, payload);
    }
    put_number(rt, out, words.pairs.len() as u64);
    if let Some(pair) = words.pairs.get(1) {
        put(rt, out, " ");
        put(rt, out, pair.key.as_str());
        put(rt, out, "=[");
        put(rt, out, pair.value.as_str());
        put(rt, out, "]");
    }
}

fn put_word(rt: &impl Abort, out: &mut String, word: Word) {
    put(rt, out, word.text);
    put(rt, out, " at ");
    put_number(rt, out, word.place);
    put(rt, out, ", ");
}

fn put_canonical(rt: &impl Abort, out: &mut String, words: &Words) {
    let payload = match words.payload {
        Some(word) => Some(word.text),
        None => None,
    };
    put(rt, out, ": ");
    push_words(out, words.name.text, payload, &words.pairs).expect(rt, "memory");
}

// Names, payloads and pairs.
const WORDS: &str = r#"
set -> set at 0, 0: set
{blank}{tab} set{tab}{blank} -> set at 3, 0: set
file abc path=a -> file at 0, abc at 5, 1: file abc path=a
file  {tab} a"b path=a{blank} -> file at 0, a"b at 8, 1: file a"b path=a
dir path=a mode=0755 -> dir at 0, 2 mode=[0755]: dir path=a mode=0755
a=b c=d -> a=b at 0, 1: a=b c=d
"x y=z -> "x at 0, 1: "x y=z
é ü=ö -> é at 0, 1: é ü=ö
"#;

// Values and how they are spelled canonically.
const VALUES: &str = r#"
set name=n  value=x{blank} -> set at 0, 2 value=[x]: set name=n value=x
set name=n  value=x=y"z'{blank} -> set at 0, 2 value=[x=y"z']: set name=n value="x=y\"z'"
set name=n  value=\{blank} -> set at 0, 2 value=[\]: set name=n value="\\"
set name=n  value=""{blank} -> set at 0, 2 value=[]: set name=n value=""
set name=n  value=''{blank} -> set at 0, 2 value=[]: set name=n value=""
set name=n  value="a b"{blank} -> set at 0, 2 value=[a b]: set name=n value="a b"
set name=n  value='a{tab}b'{blank} -> set at 0, 2 value=[a{tab}b]: set name=n value="a{tab}b"
set name=n  value='it\'s'{blank} -> set at 0, 2 value=[it's]: set name=n value="it's"
set name=n  value='\"'{blank} -> set at 0, 2 value=[\"]: set name=n value="\\\""
set name=n  value="a\"b\\c\d"{blank} -> set at 0, 2 value=[a"b\c\d]: set name=n value="a\"b\\c\\d"
set name=n  value="it's"{blank} -> set at 0, 2 value=[it's]: set name=n value="it's"
set name=n  value="plain"{blank} -> set at 0, 2 value=[plain]: set name=n value=plain
set name=n  value=a¶b{blank} -> set at 0, 2 value=[a¶b]: set name=n value=a¶b
set name=n  value="é ü"{blank} -> set at 0, 2 value=[é ü]: set name=n value="é ü"
"#;

// The canonical lines of all of those are their own ones.
const CANONICAL: &str = r#"
set -> set at 0, 0: set
set -> set at 0, 0: set
file abc path=a -> file at 0, abc at 5, 1: file abc path=a
file a"b path=a -> file at 0, a"b at 5, 1: file a"b path=a
dir path=a mode=0755 -> dir at 0, 2 mode=[0755]: dir path=a mode=0755
a=b c=d -> a=b at 0, 1: a=b c=d
"x y=z -> "x at 0, 1: "x y=z
é ü=ö -> é at 0, 1: é ü=ö
set name=n value=x -> set at 0, 2 value=[x]: set name=n value=x
set name=n value="x=y\"z'" -> set at 0, 2 value=[x=y"z']: set name=n value="x=y\"z'"
set name=n value="\\" -> set at 0, 2 value=[\]: set name=n value="\\"
set name=n value="" -> set at 0, 2 value=[]: set name=n value=""
set name=n value="" -> set at 0, 2 value=[]: set name=n value=""
set name=n value="a b" -> set at 0, 2 value=[a b]: set name=n value="a b"
set name=n value="a{tab}b" -> set at 0, 2 value=[a{tab}b]: set name=n value="a{tab}b"
set name=n value="it's" -> set at 0, 2 value=[it's]: set name=n value="it's"
set name=n value="\\\"" -> set at 0, 2 value=[\"]: set name=n value="\\\""
set name=n value="a\"b\\c\\d" -> set at 0, 2 value=[a"b\c\d]: set name=n value="a\"b\\c\\d"
set name=n value="it's" -> set at 0, 2 value=[it's]: set name=n value="it's"
set name=n value=plain -> set at 0, 2 value=[plain]: set name=n value=plain
set name=n value=a¶b -> set at 0, 2 value=[a¶b]: set name=n value=a¶b
set name=n value="é ü" -> set at 0, 2 value=[é ü]: set name=n value="é ü"
"#;

// A fault is at the first place that no line continues.
const FAULTS: &str = r#"
-> word 0
{blank}{tab} -> word 2
set =x -> word 4
set a"b=c -> word 7
set x=y a"b=c -> word 9
set x=y a -> word 9
set x=y a b=c -> word 9
file p q -> word 8
file p q r=s -> word 8
set a= -> word 6
set a= b=c -> word 6
set a="b"c -> word 9
set a='b'"c" -> word 9
set a=b =' -> word 8
é ü= -> word 6
set a=" -> quote 6
set a='b" -> quote 6
set a="b\" -> quote 6
set a=b  c='d\ -> quote 11
file p a="b" c="d e -> quote 15
"#;

const TABLES: &[(Said, u64, &str)] = &[
    (Said, 8, WORDS),
    (Said, 14, VALUES),
    (Said, 22, CANONICAL),
    (Said, 20, FAULTS),
];

#[test]
fn reads_words_of_a_line(rt: HostRuntime) {
    let alloc = rt.alloc();
    all_hold(&rt, alloc, TABLES);
}
