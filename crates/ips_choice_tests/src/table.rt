//! Tables of cases as texts. A line is a case: `question -> answer`. Empty lines, and those that begin with `#` and say what
//! the cases below them mean, are no cases.
//!
//! In an answer, and in a question where its kind reads it by `text`, `¶` is the end of a line.

use std::alloc::Global;
use std::process::Abort;

/// A kind of question, whose answers are short texts.
pub trait Ask {
    fn answer(&mut self, rt: &impl Abort, alloc: Global, question: &str) -> String;
}

/// Each case of the table has its answer, and there are so many cases.
pub fn holds<Q: Ask>(rt: &impl Abort, alloc: Global, kind: &mut Q, cases: u64, table: &str) {
    let mut count = 0_u64;
    for line in table.lines() {
        let row = line.trim();
        if row.is_empty() || row.starts_with('#') {
            continue;
        }
        let (question, wanted) = row.split_once("->").expect(rt, "a case without an answer");
        let answer = kind.answer(rt, alloc, question.trim());
        let wanted = text(rt, alloc, wanted.trim());
        assert!(rt; answer.as_str() == wanted.as_str(), "{row} but {answer}");
        count = count.saturating_add(1);
    }
    assert!(rt; count == cases, "{count} cases");
}

/// The text that a column spells.
pub fn text(rt: &impl Abort, alloc: Global, column: &str) -> String {
    let mut text = String::new(alloc);
    for (i, line) in column.split('¶').enumerate() {
        if i > 0 {
            text.push_str("\n").expect(rt, "memory");
        }
        text.push_str(line).expect(rt, "memory");
    }
    text
}

/// The two columns of a question.
pub fn columns(question: &str) -> (&str, &str) {
    match question.split_once('|') {
        Some((one, two)) => (one.trim(), two.trim()),
        None => (question, ""),
    }
}
