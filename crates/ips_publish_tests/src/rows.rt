//! Tables of rows: a row is a line of columns that `|` divides, then `->`, then what is told of it. Lines that begin with `#`
//! say what the rows below them mean.

use std::alloc::Global;
use std::process::Abort;

// A row's columns, and what is told of them.
pub fn row_of(line: &str) -> Option<(&str, &str)> {
    if line.starts_with('#') {
        return None;
    }
    let (row, want) = line.split_once("->")?;
    Some((row, want.trim()))
}

// A column by its number, without the blanks around it.
pub fn column(row: &str, number: usize) -> &str {
    row.split('|').nth(number).unwrap_or("").trim()
}

pub fn number(rt: &impl Abort, column: &str) -> u64 {
    column.parse::<u64>().ok().expect(rt, "what is spelled")
}

// The bytes that are spelled so: each `%` with two digits is one byte.
pub fn bytes_of(rt: &impl Abort, alloc: Global, spelled: &str) -> Vec<u8> {
    let mut bytes = Vec::new(alloc);
    for (part, text) in spelled.split('%').enumerate() {
        if part == 0 {
            bytes
                .extend_from_slice(text.as_bytes())
                .expect(rt, "memory");
        } else {
            let (digits, behind) = text.split_at_checked(2).expect(rt, "digits");
            bytes
                .push(u8::from_str_radix(digits, 16).ok().expect(rt, "no fault"))
                .expect(rt, "memory");
            bytes
                .extend_from_slice(behind.as_bytes())
                .expect(rt, "memory");
        }
    }
    bytes
}
