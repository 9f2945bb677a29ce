//! Scripts that the tests play: a call a line and what it answers, as `dir usr 755 -> ok`. A line that begins with `#`
//! tells what the lines behind it are for.

use ips_outside::{Failed, Look};
use ips_text::RelPath;
use std::alloc::Global;
use std::fmt::Display;
use std::process::Abort;

/// What a script is played on.
pub trait Player {
    /// What a call answers.
    fn answer<R: Abort>(&mut self, rt: &R, alloc: Global, call: &str) -> Vec<u8>;
}

/// Plays a script of so many calls, each of which has to answer as its line says.
pub fn play<P: Player>(rt: &impl Abort, alloc: Global, player: &mut P, script: &str, count: u64) {
    play_failing(rt, alloc, player, script, count, 0)
}

/// The same, but that the call of one line, counted from 1, has to fail.
pub fn play_failing<P: Player>(
    rt: &impl Abort,
    alloc: Global,
    player: &mut P,
    script: &str,
    count: u64,
    failing: u64,
) {
    let mut played = 0u64;
    for line in script.lines() {
        if let Some((call, wanted)) = call_of(line) {
            played = played.saturating_add(1);
            let wanted = if played == failing { "failed" } else { wanted };
            agree(rt, alloc, line, player.answer(rt, alloc, call), wanted);
        }
    }
    assert!(rt; played == count, "{played} calls: {script}");
}

/// Stops where the answer isn't the wanted one, whose bytes are spelled.
pub fn agree(rt: &impl Abort, alloc: Global, line: &str, answer: Vec<u8>, wanted: &str) {
    let wanted = bytes(rt, alloc, wanted);
    assert!(rt; answer.as_slice() == wanted.as_slice(), "{line} {answer:?}");
}

/// The call of a line and its answer; none for a remark and an empty line.
pub fn call_of(line: &str) -> Option<(&str, &str)> {
    if line.starts_with('#') {
        return None;
    }
    line.split_once(" -> ")
}

/// The first word and what is behind it.
pub fn first(text: &str) -> (&str, &str) {
    text.split_once(' ').unwrap_or((text, ""))
}

/// The first three words of a call, and what is behind them.
pub fn words(call: &str) -> [&str; 4] {
    let (name, rest) = first(call);
    let (one, rest) = first(rest);
    let (two, three) = first(rest);
    [name, one, two, three]
}

/// The bytes of a text, in which `%` and two hexadecimal digits stand for a byte that is no text; the word `nothing` stands
/// for no bytes.
pub fn bytes(rt: &impl Abort, alloc: Global, text: &str) -> Vec<u8> {
    let mut bytes = Vec::new(alloc);
    let mut digits = 0usize;
    for part in text.split('%') {
        push_part(rt, &mut bytes, part, digits);
        digits = 2;
    }
    if text == "nothing" {
        bytes.clear();
    }
    bytes
}

// Puts the byte of so many digits, where there are some, and what is behind them.
fn push_part(rt: &impl Abort, bytes: &mut Vec<u8>, part: &str, digits: usize) {
    let (digits, behind) = part.split_at_checked(digits).expect(rt, "digits");
    if !digits.is_empty() {
        let byte = u8::from_str_radix(digits, 16).ok().expect(rt, "digits");
        bytes.push(byte).expect(rt, "memory");
    }
    bytes
        .extend_from_slice(behind.as_bytes())
        .expect(rt, "memory");
}

pub fn path(rt: &impl Abort, alloc: Global, text: &str) -> RelPath {
    RelPath::parse(alloc, text.as_bytes())
        .ok()
        .expect(rt, "what is spelled")
}

pub fn number(rt: &impl Abort, text: &str) -> u64 {
    text.parse().ok().expect(rt, "a number")
}

/// An answer of these bytes.
pub fn told(rt: &impl Abort, alloc: Global, bytes: &[u8]) -> Vec<u8> {
    Vec::from_slice(alloc, bytes).expect(rt, "memory")
}

/// An answer that is a number, or that the call failed.
pub fn number_told<T: Display + Drop>(
    rt: &impl Abort,
    alloc: Global,
    number: Result<T, Failed>,
) -> Vec<u8> {
    match number {
        Ok(number) => format!(in alloc; "{number}"),
        Err(Failed) => String::from_str(alloc, "failed"),
    }
    .expect(rt, "memory")
    .into_bytes()
}

/// A word, and the paths behind it.
pub fn paths_told(rt: &impl Abort, alloc: Global, word: &[u8], paths: &[RelPath]) -> Vec<u8> {
    let mut text = told(rt, alloc, word);
    for path in paths {
        text.push(b' ').expect(rt, "memory");
        text.extend_from_slice(path.bytes()).expect(rt, "memory");
    }
    text
}

/// What stands at a path, in words.
pub fn look_told(rt: &impl Abort, alloc: Global, look: Look) -> Vec<u8> {
    match look {
        Look::Dir { mode } => format!(in alloc; "dir {mode:o}"),
        Look::File { mode, size } => format!(in alloc; "file {mode:o} {size}"),
        Look::Absent => String::from_str(alloc, "absent"),
        Look::Link => String::from_str(alloc, "link"),
        Look::Other => String::from_str(alloc, "other"),
    }
    .expect(rt, "memory")
    .into_bytes()
}
