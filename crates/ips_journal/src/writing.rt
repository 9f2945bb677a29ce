//! Writing a journal.

ghost use Rattle.std.specs.Prelude.{◌≡◌, ◌∷◌, ◌++◌, ◌+◌, ◌*◌, ◌<◌, ◌≤◌, [], ℕ, List, IfOk, OnOk, map, codes, length, vec_len, vec_capacity, true};
ghost use Rattle.std.specs.Fmt.{decimal, digit_glyph};
ghost use Rattle.ips_text.specs.Quote.{quoted, shown};
ghost use Rattle.ips_steps.specs.View.{step_of};
ghost use Rattle.ips_journal.specs.Text.{mode_text, step_line, step_lines, line, journal_text};
ghost use Rattle.ips_journal.specs.Escape.{escaped, escaped_byte};

use crate::fields::is_kept;
use ips_steps::{Step, Target};
use ips_text::RelPath;
use itoa::Buffer;
use std::alloc::{AllocError, Global};

/// As many bytes as hold each line of a journal with its newline.
pub const LINE_BYTES: usize = 16_384;

/// The text of a journal that lists the steps.
pub fn write_steps(alloc: Global, steps: &[Step]) -> Result<Vec<u8>, AllocError>
    ensures { IfOk result (λ text. text.items ≡ journal_text (map step_of steps.now)) }
{
    let mut text = Vec::from_slice(alloc, b"journal 1\n")?;
    write_lines(steps, &mut text)?;
    text.reserve(LINE_BYTES)?;
    put_end(&mut text, steps.len() as u64);
    Ok(text)
}

// Writes the lines of the steps behind the first line.
fn write_lines(steps: &[Step], text: &mut Vec<u8>) -> Result<(), AllocError>
    ensures { OnOk result ((rest : List ℕ) → text.new.items ++ rest ≡ text.old.items ++ step_lines (map step_of steps.now) rest) }
{
    for step in steps {
        text.reserve(LINE_BYTES)?;
        put_line(text, step);
    }
    Ok(())
}

/// Puts the last line of a journal of so many steps at the end of the text.
pub fn put_end(text: &mut Vec<u8>, steps: u64)
    requires { vec_len text.old + 16384 ≤ vec_capacity text.old }
    ensures written { text.new.items ≡ text.old.items ++ (codes "end " ++ (decimal steps ++ 10 ∷ [])) }
    ensures room { vec_capacity text.old ≤ vec_capacity text.new }
{
    put(text, b"end ");
    put_number(text, steps);
    put(text, b"\n");
}

/// Puts the line of a step, with its newline, at the end of the text.
pub fn put_line(text: &mut Vec<u8>, step: &Step)
    requires { vec_len text.old + 16384 ≤ vec_capacity text.old }
    ensures written { text.new.items ≡ text.old.items ++ line (step_line (step_of step.now)) [] }
    ensures room { vec_capacity text.old ≤ vec_capacity text.new }
{
    match step {
        Step::Gone { path } => put_gone(text, path),
        Step::Fresh { path, mode } => put_moded(text, b"fresh ", *mode, path),
        Step::Mode { path, mode } => put_moded(text, b"mode ", *mode, path),
        Step::Put { path, mode, stage } => put_put(text, *stage, *mode, path),
        Step::Link { path, target } => put_link(text, path, target),
        Step::Hard { path, to } => put_hard(text, path, to),
    }
    put(text, b"\n");
}

fn put_gone(text: &mut Vec<u8>, path: &RelPath)
    requires { vec_len text.old + 16384 ≤ vec_capacity text.old }
    ensures written { text.new.items ≡ text.old.items ++ (codes "gone " ++ shown path.now.bytes) }
    ensures long { vec_len text.new ≤ vec_len text.old + 3200 }
    ensures room { vec_capacity text.old ≤ vec_capacity text.new }
{
    put(text, b"gone ");
    put_path(text, path);
}

// A word, a mode and a path.
fn put_moded(text: &mut Vec<u8>, word: &[u8], mode: u16, path: &RelPath)
    requires room { vec_len text.old + 8192 ≤ vec_capacity text.old }
    requires word { length word.now ≤ 6 }
    ensures written { text.new.items ≡ text.old.items ++ (word.now ++ (mode_text mode ++ 32 ∷ shown path.now.bytes)) }
    ensures long { vec_len text.new ≤ vec_len text.old + 3200 }
    ensures room { vec_capacity text.old ≤ vec_capacity text.new }
{
    put(text, word);
    put_mode(text, mode);
    put(text, b" ");
    put_path(text, path);
}

fn put_put(text: &mut Vec<u8>, stage: u64, mode: u16, path: &RelPath)
    requires { vec_len text.old + 16384 ≤ vec_capacity text.old }
    ensures written { text.new.items ≡ text.old.items ++ (codes "put " ++ (decimal stage ++ 32 ∷ (mode_text mode ++ 32 ∷ shown path.now.bytes))) }
    ensures long { vec_len text.new ≤ vec_len text.old + 3300 }
    ensures room { vec_capacity text.old ≤ vec_capacity text.new }
{
    put(text, b"put ");
    put_number(text, stage);
    put_moded(text, b" ", mode, path);
}

fn put_link(text: &mut Vec<u8>, path: &RelPath, target: &Target)
    requires { vec_len text.old + 16384 ≤ vec_capacity text.old }
    ensures written { text.new.items ≡ text.old.items ++ (codes "link " ++ (shown path.now.bytes ++ 32 ∷ quoted target.now.bytes)) }
    ensures long { vec_len text.new ≤ vec_len text.old + 16383 }
    ensures room { vec_capacity text.old ≤ vec_capacity text.new }
{
    put(text, b"link ");
    put_path(text, path);
    put(text, b" ");
    put_target(text, target);
}

fn put_hard(text: &mut Vec<u8>, path: &RelPath, to: &RelPath)
    requires { vec_len text.old + 16384 ≤ vec_capacity text.old }
    ensures written { text.new.items ≡ text.old.items ++ (codes "hard " ++ (shown path.now.bytes ++ 32 ∷ shown to.now.bytes)) }
    ensures long { vec_len text.new ≤ vec_len text.old + 6300 }
    ensures room { vec_capacity text.old ≤ vec_capacity text.new }
{
    put(text, b"hard ");
    put_path(text, path);
    put(text, b" ");
    put_path(text, to);
}

// The path as it is shown.
fn put_path(text: &mut Vec<u8>, path: &RelPath)
    requires { vec_len text.old + 3069 ≤ vec_capacity text.old }
    ensures written { text.new.items ≡ text.old.items ++ shown path.now.bytes }
    ensures long { vec_len text.new ≤ vec_len text.old + 3069 }
    ensures room { vec_capacity text.old ≤ vec_capacity text.new }
{
    put_escaped(text, true, path.bytes());
}

// The target in its quoted form.
fn put_target(text: &mut Vec<u8>, target: &Target)
    requires { vec_len text.old + 12285 ≤ vec_capacity text.old }
    ensures written { text.new.items ≡ text.old.items ++ quoted target.now.bytes }
    ensures long { vec_len text.new ≤ vec_len text.old + 12285 }
    ensures room { vec_capacity text.old ≤ vec_capacity text.new }
{
    put_escaped(text, false, target.bytes());
}

// Bytes percent-encoded; with `slash` a `/` stands for itself.
fn put_escaped(text: &mut Vec<u8>, slash: bool, bytes: &[u8])
    requires { vec_len text.old + 3 * length bytes.now ≤ vec_capacity text.old }
    ensures written { text.new.items ≡ text.old.items ++ escaped slash bytes.now }
    ensures long { vec_len text.new ≤ vec_len text.old + 3 * length bytes.now }
    ensures room { vec_capacity text.old ≤ vec_capacity text.new }
{
    for byte in bytes {
        put_byte(text, slash, *byte);
    }
}

fn put_byte(text: &mut Vec<u8>, slash: bool, byte: u8)
    requires { vec_len text.old + 3 ≤ vec_capacity text.old }
    ensures written { text.new.items ≡ text.old.items ++ escaped_byte slash byte }
    ensures long { vec_len text.new ≤ vec_len text.old + 3 }
    ensures room { vec_capacity text.old ≤ vec_capacity text.new }
{
    if is_kept(slash, byte) {
        put(text, &[byte]);
    } else {
        put(text, &[b'%', glyph(byte / 16), glyph(byte % 16)]);
    }
}

// The upper-case hexadecimal digit of a value.
fn glyph(value: u8) -> u8
    requires { value < 16 }
    ensures { result ≡ digit_glyph true value }
{
    if value < 10 {
        b'0' + value
    } else {
        b'A' + (value - 10)
    }
}

// A mode in four octal digits.
fn put_mode(text: &mut Vec<u8>, mode: u16)
    requires { vec_len text.old + 4 ≤ vec_capacity text.old }
    ensures written { text.new.items ≡ text.old.items ++ mode_text mode }
    ensures long { vec_len text.new ≡ vec_len text.old + 4 }
    ensures room { vec_capacity text.old ≤ vec_capacity text.new }
{
    let digits = [
        b'0' + (mode / 512) as u8,
        b'0' + (mode / 64 % 8) as u8,
        b'0' + (mode / 8 % 8) as u8,
        b'0' + (mode % 8) as u8,
    ];
    put(text, &digits);
}

// A number in decimal digits.
fn put_number(text: &mut Vec<u8>, number: u64)
    requires { vec_len text.old + 20 ≤ vec_capacity text.old }
    ensures written { text.new.items ≡ text.old.items ++ decimal number }
    ensures long { vec_len text.new ≤ vec_len text.old + 20 }
    ensures room { vec_capacity text.old ≤ vec_capacity text.new }
{
    let mut buffer = Buffer::new();
    put(text, buffer.format(number).as_bytes());
}

// Bytes as they are.
fn put(text: &mut Vec<u8>, bytes: &[u8])
    requires { vec_len text.old + length bytes.now ≤ vec_capacity text.old }
    ensures written { text.new.items ≡ text.old.items ++ bytes.now }
    ensures long { vec_len text.new ≡ vec_len text.old + length bytes.now }
    ensures room { vec_capacity text.old ≤ vec_capacity text.new }
{
    match text.extend_from_slice(bytes) {
        Ok(()) => {}
        Err(_) => unreachable!(),
    }
}
