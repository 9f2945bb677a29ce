//! Tables of cases as texts. A line is a case: `question -> answer`, and a question has one column or two, as `one | two`. Empty
//! lines, and those that begin with `#` and say what the cases below them mean, are no cases.
//!
//! In each column `¶` is the end of a line, `{blank}` and `{tab}` are what they are called, `{0xff}` is the byte of that number,
//! and `{a*255}` is 255 times `a`.

use crate::stops::{all_played, have, same, some};
use std::alloc::Global;
use std::process::Abort;

/// A kind of question, whose answers are short texts.
pub trait Ask {
    /// Adds the answer to the bytes of the two columns.
    fn answer(&self, rt: &impl Abort, alloc: Global, out: &mut String, one: &[u8], two: &[u8]);
}

/// Each of the tables holds: a kind of question, how many cases there are, and the cases.
pub fn all_hold<Q: Ask>(rt: &impl Abort, alloc: Global, tables: &[(Q, u64, &str)]) {
    for (kind, cases, table) in tables {
        holds(rt, alloc, kind, *cases, table);
    }
}

/// Each case of the table has its answer, and there are so many cases.
pub fn holds<Q: Ask>(rt: &impl Abort, alloc: Global, kind: &Q, cases: u64, table: &str) {
    let mut count = 0_u64;
    for line in table.lines() {
        let row = line.trim();
        if !row.is_empty() && !row.starts_with('#') {
            case(rt, alloc, kind, row);
            count = count.saturating_add(1);
        }
    }
    all_played(rt, count, cases);
}

fn case<Q: Ask>(rt: &impl Abort, alloc: Global, kind: &Q, row: &str) {
    let row = have(rt, row.replace(alloc, '¶', "\n"));
    let (question, wanted) = some(rt, row.split_once("->"), "a case has an answer");
    let mut answer = String::new(alloc);
    put_answer(rt, alloc, kind, &mut answer, question);
    let mut bytes = Vec::new(alloc);
    spell(rt, &mut bytes, wanted);
    same(rt, row.as_str(), answer.as_str(), text(rt, &bytes));
}

// Adds the answer to a question of one column or of two.
fn put_answer<Q: Ask>(rt: &impl Abort, alloc: Global, kind: &Q, out: &mut String, question: &str) {
    let (one, two) = question.split_once('|').unwrap_or((question, ""));
    let mut bytes = Vec::new(alloc);
    spell(rt, &mut bytes, one);
    let middle = bytes.len();
    spell(rt, &mut bytes, two);
    let (one, two) = some(rt, bytes.split_at_checked(middle), "two columns");
    kind.answer(rt, alloc, out, one, two);
}

// Adds the bytes that a column between blanks spells.
fn spell(rt: &impl Abort, out: &mut Vec<u8>, column: &str) {
    for (i, piece) in column.trim_matches(' ').split('{').enumerate() {
        let mut behind = piece;
        if i > 0 {
            let (name, rest) = some(rt, piece.split_once('}'), "an open brace");
            push_named(rt, out, name);
            behind = rest;
        }
        out.extend_from_slice(behind.as_bytes())
            .expect(rt, "memory");
    }
}

// What stands in braces.
fn push_named(rt: &impl Abort, out: &mut Vec<u8>, name: &str) {
    if let Some((piece, times)) = name.rsplit_once('*') {
        for _ in 0..times.parse::<u32>().expect(rt, "a number of times") {
            out.extend_from_slice(piece.as_bytes()).expect(rt, "memory");
        }
        return;
    }
    let byte = match name {
        "blank" => b' ',
        "tab" => b'\t',
        _ => {
            let digits = name.strip_prefix("0x").expect(rt, "a name in braces");
            u8::from_str_radix(digits, 16).expect(rt, "a byte")
        }
    };
    out.push(byte).expect(rt, "memory");
}

/// The text of a column.
pub fn text<'a>(rt: &impl Abort, column: &'a [u8]) -> &'a str {
    str::from_utf8(column).expect(rt, "a text")
}
