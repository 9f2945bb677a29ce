//! Tables of rows: a row is a line of columns that `|` divides, then `->`, then what is told of it. Lines that begin with `#`
//! say what the rows below them mean. Another table gives names to texts: a line is the name, ` = ` and the text.

use std::alloc::Global;
use std::process::Abort;

// A row's columns, and what is told of them.
pub fn row_of(line: &str) -> Option<(&str, &str)> {
    if line.starts_with('#') {
        return None;
    }
    let (row, want) = line.split_once("->")?;
    Some((row, want.trim()))
}

// A column by its number, without the blanks around it.
pub fn column(row: &str, number: usize) -> &str {
    row.split('|').nth(number).unwrap_or("").trim()
}

pub fn number(rt: &impl Abort, column: &str) -> u64 {
    column.parse::<u64>().ok().expect(rt, "what is spelled")
}

// The text that a table gives this name.
pub fn text_named<'a>(table: &'a str, name: &str) -> Option<&'a str> {
    for line in table.lines() {
        if let Some((named, text)) = line.split_once(" = ") {
            if named == name {
                return Some(text);
            }
        }
    }
    None
}

// The text that is spelled so: `(d*300)` is `d`, three hundred times.
pub fn expanded(rt: &impl Abort, alloc: Global, spelled: &str) -> String {
    let mut text = String::new(alloc);
    for (part, spelled) in spelled.split('(').enumerate() {
        let mut plain = spelled;
        if part > 0 {
            let (repeated, behind) = spelled.split_once(')').expect(rt, "an end");
            let (piece, times) = repeated.split_once('*').expect(rt, "a number of times");
            for _ in 0..number(rt, times) {
                text.push_str(piece).expect(rt, "memory");
            }
            plain = behind;
        }
        text.push_str(plain).expect(rt, "memory");
    }
    text
}

// The bytes that are spelled so: each `%` with two digits is one byte.
pub fn bytes_of(rt: &impl Abort, alloc: Global, spelled: &str) -> Vec<u8> {
    let mut bytes = Vec::new(alloc);
    for (part, text) in spelled.split('%').enumerate() {
        if part == 0 {
            bytes
                .extend_from_slice(text.as_bytes())
                .expect(rt, "memory");
        } else {
            let (digits, behind) = text.split_at_checked(2).expect(rt, "digits");
            bytes
                .push(u8::from_str_radix(digits, 16).ok().expect(rt, "no fault"))
                .expect(rt, "memory");
            bytes
                .extend_from_slice(behind.as_bytes())
                .expect(rt, "memory");
        }
    }
    bytes
}
