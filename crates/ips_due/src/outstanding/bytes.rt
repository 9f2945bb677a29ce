//! Whether a file has given bytes.

ghost use Rattle.std.specs.Prelude.{◌≡◌, ◌<◌, IsTrue, IfOk, IsErr, length};
ghost use Rattle.ips_text.specs.Ancestry.{same_path};
ghost use Rattle.ips_outside.specs.Outside.{Reads, readable};
ghost use Rattle.ips_files.specs.Files.{file_at, HasSize};

use ips_change::content::is_same;
use ips_files::read_part;
use ips_outside::{Failed, Source};
use ips_text::RelPath;

/// Whether the file at the path, which has so many bytes, has just these. Where the number is another it isn't read; else it is read piece by
/// piece into the buffer, up to the first piece that differs.
pub fn has_bytes<S: Source>(
    source: &mut S,
    path: &RelPath,
    size: u64,
    bytes: &[u8],
    buffer: &mut [u8],
) -> Result<bool, Failed>
    requires room { 0 < length buffer.old }
    ensures kept { length buffer.new ≡ length buffer.old }
    ensures found { IsTrue (S.outside.tells source.old) → HasSize (file_at (S.outside.state source.old).held path.now.bytes) size
        → IfOk result (λ same. same ≡ same_path bytes.now (readable ((S.outside.state source.old).held.look path.now.bytes))) }
    ensures reads { Reads S.outside source.old source.new (IsErr result) }
{
    if size != bytes.len() as u64 {
        return Ok(false);
    }
    let mut at = 0usize;
    while at < bytes.len() {
        let count = read_part(source, path, at as u64, size, buffer)?;
        if count == 0 || !is_same(&bytes[at..at + count], &buffer[..count]) {
            return Ok(false);
        }
        at += count;
    }
    Ok(true)
}
