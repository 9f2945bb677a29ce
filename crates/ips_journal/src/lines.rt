//! Lines of a file, read piece by piece.

ghost use Rattle.std.specs.Prelude.{◌≡◌, ◌+◌, ◌<◌, ◌≤◌, ◌^◌, IsTrue, IfOk, IfSome, IsErr, length, take, drop};
ghost use Rattle.ips_outside.specs.Outside.{Reads, readable, IsRead};
ghost use Rattle.ips_journal.specs.Line.{ComeFirst, IsLineFound};

use crate::fields::first_place;
use ips_outside::{Failed, Look, Source};
use ips_text::RelPath;

/// How many bytes can be read at the path: none where no file stands.
pub fn size_of<S: Source>(source: &mut S, path: &RelPath) -> Result<u64, Failed>
    ensures small { IfOk result (λ size. size < 2 ^ 64) }
    ensures found { IsTrue (S.outside.tells source.old) → IfOk result (λ size. length (readable ((S.outside.state source.old).held.look path.now.bytes)) ≡ size) }
    ensures reads { Reads S.outside source.old source.new (IsErr result) }
{
    match source.look(path)? {
        Look::File { size, .. } => Ok(size),
        Look::Absent | Look::Dir { .. } | Look::Link | Look::Other => Ok(0),
    }
}

/// Reads the line that begins at the place into the front of the buffer, and answers its length without the newline, and how
/// many bytes the buffer then has of the file from the place on. The length is None where no newline stands among as many
/// bytes as the buffer has.
pub fn read_line<S: Source>(
    source: &mut S,
    path: &RelPath,
    place: u64,
    buffer: &mut [u8],
) -> Result<(Option<usize>, usize), Failed>
    ensures fits { IfOk result (λ x. x.1 ≤ length buffer.old) }
    ensures whole { IfOk result (λ x. IfSome x.0 (λ count. count < x.1)) }
    ensures found { IsTrue (S.outside.tells source.old) → place ≤ length (readable ((S.outside.state source.old).held.look path.now.bytes))
        → length (readable ((S.outside.state source.old).held.look path.now.bytes)) < 2 ^ 64
        → IfOk result (λ x. ComeFirst (take x.1 buffer.new) (drop place (readable ((S.outside.state source.old).held.look path.now.bytes)))
        × IsLineFound (length buffer.old) (drop place (readable ((S.outside.state source.old).held.look path.now.bytes))) (take x.1 buffer.new) x.0) }
    ensures reads { Reads S.outside source.old source.new (IsErr result) }
{
    let mut filled = 0usize;
    while filled < buffer.len() {
        let count = read_piece(source, path, place, filled, buffer)?;
        if count == 0 {
            return Ok((None, filled));
        }
        if let Some(end) = first_place(b'\n', &buffer[filled..filled + count]) {
            return Ok((Some(filled + end), filled + count));
        }
        filled += count;
    }
    Ok((None, filled))
}

// Reads on behind the bytes that the buffer has from the place on.
fn read_piece<S: Source>(
    source: &mut S,
    path: &RelPath,
    place: u64,
    filled: usize,
    buffer: &mut [u8],
) -> Result<usize, Failed>
    requires { filled < length buffer.old }
    ensures fits { IfOk result (λ count. filled + count ≤ length buffer.old) }
    ensures before { take filled buffer.new ≡ take filled buffer.old }
    ensures found { IsTrue (S.outside.tells source.old) → place + filled < 2 ^ 64
        → IfOk result (IsRead (readable ((S.outside.state source.old).held.look path.now.bytes)) (place + filled) (drop filled buffer.new)) }
    ensures reads { Reads S.outside source.old source.new (IsErr result) }
{
    let from = place.saturating_add(filled as u64);
    source.read(path, from, &mut buffer[filled..])
}
