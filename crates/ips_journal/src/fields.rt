//! The fields of a line, read without memory.

ghost use Rattle.std.specs.Prelude.{◌≡◌, [], ◌∷◌, ◌++◌, ◌<◌, ◌≤◌, ◌==◌, ℕ, List, true, IsFalse, IfNone, IfSome, length, take};
ghost use Rattle.std.specs.List.{position};
ghost use Rattle.std.specs.Fmt.{digit_glyph};
ghost use Rattle.ips_text.specs.Quote.{AreBytes, is_plain as is_plain_byte};
ghost use Rattle.ips_journal.specs.Text.{mode_text};
ghost use Rattle.ips_text.specs.Cut.{has_byte, IsCut};
ghost use Rattle.ips_journal.specs.Escape.{escaped, escaped_byte};
ghost use Rattle.ips_journal.specs.Escape as escape;

use ips_text::octal;

/// The field before the first blank, and what stands behind it.
pub fn cut(bytes: &[u8]) -> Option<(&[u8], &[u8])>
    ensures none { IfNone result (IsFalse (has_byte 32 bytes.now)) }
    ensures some { IfSome result (λ x. IsCut 32 bytes.now x.0.now x.1.now) }
{
    match first_place(b' ', bytes) {
        Some(end) => Some((&bytes[..end], &bytes[end + 1..])),
        None => None,
    }
}

/// Where the byte stands first.
pub fn first_place(byte: u8, bytes: &[u8]) -> Option<usize>
    ensures { result ≡ position (λ b. b == byte) bytes.now }
{
    bytes.iter().position(|b| *b == byte)
}

/// The mode that four octal digits tell.
pub fn mode_of(bytes: &[u8]) -> Option<u16>
    ensures some { IfSome result (λ m. (m < 4096) × (bytes.now ≡ mode_text m)) }
    ensures none { IfNone result ((m : ℕ) → m < 4096 → bytes.now ≡ mode_text m → ⊥) }
{
    if bytes.len() != 4 {
        return None;
    }
    octal(bytes)
}

/// Decodes percent-encoded bytes into the front of the buffer, and answers how many they are. With `slash` a `/` stands for
/// itself. None where the bytes are no escaped form, or that of more than the buffer holds.
pub fn decode(slash: bool, bytes: &[u8], buffer: &mut [u8]) -> Option<usize>
    ensures fits { IfSome result (λ count. count ≤ length buffer.old) }
    ensures some { IfSome result (λ count. bytes.now ≡ escaped slash (take count buffer.new)) }
    ensures are_bytes { IfSome result (λ count. AreBytes (take count buffer.new)) }
    ensures none { IfNone result ((list : List ℕ) → AreBytes list → length list ≤ length buffer.old → bytes.now ≡ escaped slash list → ⊥) }
{
    let mut rest = bytes;
    let mut count = 0usize;
    while !rest.is_empty() {
        let Some((byte, after)) = next_byte(slash, rest) else {
            return None;
        };
        if count >= buffer.len() {
            return None;
        }
        buffer[count] = byte;
        count += 1;
        rest = after;
    }
    Some(count)
}

// The byte that the front of the bytes tells, and what stands behind.
fn next_byte(slash: bool, bytes: &[u8]) -> Option<(u8, &[u8])>
    ensures small { IfSome result (λ x. x.0 < 256) }
    ensures some { IfSome result (λ x. bytes.now ≡ escaped_byte slash x.0 ++ x.1.now) }
    ensures none { IfNone result ((b : ℕ) (rest : List ℕ) → b < 256 → bytes.now ≡ escaped_byte slash b ++ rest → ⊥) }
{
    match bytes {
        [b'%', high, low, after @ ..] => {
            let byte = escaped_value(slash, *high, *low)?;
            Some((byte, after))
        }
        [first, after @ ..] if is_kept(slash, *first) => Some((*first, after)),
        _ => None,
    }
}

// The byte of two hexadecimal digits, where it doesn't stand for itself.
fn escaped_value(slash: bool, high: u8, low: u8) -> Option<u8>
    ensures some { IfSome result (λ b. escaped_byte slash b ≡ 37 ∷ high ∷ low ∷ []) }
    ensures none { IfNone result ((b : ℕ) → b < 256 → escaped_byte slash b ≡ 37 ∷ high ∷ low ∷ [] → ⊥) }
{
    let value = digit(high)? * 16 + digit(low)?;
    if is_kept(slash, value) {
        return None;
    }
    Some(value)
}

// The value of an upper-case hexadecimal digit.
fn digit(glyph: u8) -> Option<u8>
    ensures small { IfSome result (λ d. d < 16) }
    ensures some { IfSome result (λ d. glyph ≡ digit_glyph true d) }
    ensures none { IfNone result ((d : ℕ) → d < 16 → glyph ≡ digit_glyph true d → ⊥) }
{
    match glyph {
        b'0'..=b'9' => Some(glyph - b'0'),
        b'A'..=b'F' => Some(glyph - b'A' + 10),
        _ => None,
    }
}

// Whether a byte stands for itself.
pub fn is_kept(slash: bool, byte: u8) -> bool
    ensures { result ≡ escape.is_kept slash byte }
{
    is_plain(byte) || (slash && byte == b'/')
}

// A letter, a digit, `_`, `.` or `-`.
fn is_plain(byte: u8) -> bool
    ensures { result ≡ is_plain_byte byte }
{
    byte.is_ascii_alphanumeric() || byte == b'_' || byte == b'.' || byte == b'-'
}
