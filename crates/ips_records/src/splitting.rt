//! Bytes cut at a byte: lines at newlines, and fields at blanks.

ghost use Rattle.std.specs.Prelude.{◌≡◌, ◌<◌, ◌==◌, ◌∷◌, IsFalse, length, IfNone, IfSome};
ghost use Rattle.std.specs.List.{position};
ghost use Rattle.ips_text.specs.Cut.{has_byte, IsCut};
ghost use Rattle.ips_records.specs.Lines.{ended, lines_in};

/// What stands before the first such byte, and what stands behind it. None exactly where there is no such byte.
pub fn cut(byte: u8, bytes: &[u8]) -> Option<(&[u8], &[u8])>
    ensures none { IfNone result (IsFalse (has_byte byte bytes.now)) }
    ensures some { IfSome result (λ x. IsCut byte bytes.now x.0.now x.1.now) }
    ensures shorter { IfSome result (λ x. length x.1.now < length bytes.now) }
{
    match first_place(byte, bytes) {
        Some(end) => Some((&bytes[..end], &bytes[end + 1..])),
        None => None,
    }
}

// Where the byte stands first.
fn first_place(byte: u8, bytes: &[u8]) -> Option<usize>
    ensures { result ≡ position (λ b. b == byte) bytes.now }
{
    bytes.iter().position(|b| *b == byte)
}

/// The first line of the text, without its newline, and what stands behind it. None exactly where the text has no newline.
pub fn next_line(bytes: &[u8]) -> Option<(&[u8], &[u8])>
    ensures none { IfNone result (IsFalse (has_byte 10 bytes.now)) }
    ensures some { IfSome result (λ x. lines_in bytes.now ≡ ended x.0.now ∷ lines_in x.1.now) }
    ensures clear { IfSome result (λ x. IsFalse (has_byte 10 x.0.now)) }
    ensures shorter { IfSome result (λ x. length x.1.now < length bytes.now) }
{
    cut(b'\n', bytes)
}
