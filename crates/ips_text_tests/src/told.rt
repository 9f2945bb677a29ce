//! The texts that answers are told in, put together piece by piece.

use std::process::Abort;

/// `yes` or `no`.
pub fn yes_or_no(is: bool) -> &'static str {
    if is { "yes" } else { "no" }
}

/// Adds a text.
pub fn put(rt: &impl Abort, out: &mut String, text: &str) {
    out.push_str(text).expect(rt, "memory");
}

/// Adds a number in decimal digits.
pub fn put_number(rt: &impl Abort, out: &mut String, number: u64) {
    write!(out, "{number}").expect(rt, "memory");
}

/// Adds a mode in octal digits.
pub fn put_mode(rt: &impl Abort, out: &mut String, mode: u16) {
    write!(out, "{mode:o}").expect(rt, "memory");
}
