//! Contents of files, compared with the names of payloads.

ghost use Rattle.std.specs.Prelude.{◌≡◌, ◌<◌, [], IsTrue, IfOk, IsErr, OnOk, length, take};
ghost use Rattle.ips_text.specs.Ancestry.{same_path};
ghost use Rattle.ips_outside.specs.Outside.{Reads, readable};
ghost use Rattle.ips_files.specs.Files.{file_at, HasSize};
ghost use Rattle.ips_digest.specs.Digest.{algorithm_of, digest_of};
ghost use Rattle.ips_digest.specs.Name.{digit_count, spelling};
ghost use Rattle.ips_change.specs.wanted.Named.{is_payload_of};

use ips_digest::{Hasher, PayloadName};
use ips_files::read_part;
use ips_outside::{Failed, Source};
use ips_text::RelPath;

/// Whether the bytes of the file at the path, which has so many, have this name. They are read piece by piece into the buffer.
pub fn has_content<S: Source>(
    source: &mut S,
    path: &RelPath,
    size: u64,
    name: &PayloadName,
    buffer: &mut [u8],
) -> Result<bool, Failed>
    requires room { 0 < length buffer.old }
    ensures found { IsTrue (S.outside.tells source.old) → HasSize (file_at (S.outside.state source.old).held path.now.bytes) size
        → IfOk result (λ same. same ≡ is_payload_of (spelling name.now) (readable ((S.outside.state source.old).held.look path.now.bytes))) }
    ensures reads { Reads S.outside source.old source.new (IsErr result) }
{
    let mut hasher = Hasher::new(name);
    hash_file(source, path, size, &mut hasher, buffer)?;
    let digest = hasher.finish();
    Ok(is_same_name(name, &digest))
}

// Gives the hasher the first so many bytes of the file, or all where it has fewer.
fn hash_file<S: Source>(
    source: &mut S,
    path: &RelPath,
    size: u64,
    hasher: &mut Hasher,
    buffer: &mut [u8],
) -> Result<(), Failed>
    requires room { 0 < length buffer.old }
    requires new { hasher.old.bytes ≡ [] }
    ensures algorithm { hasher.new.algorithm ≡ hasher.old.algorithm }
    ensures bytes { IsTrue (S.outside.tells source.old) → OnOk result (hasher.new.bytes ≡ take size (readable ((S.outside.state source.old).held.look path.now.bytes))) }
    ensures reads { Reads S.outside source.old source.new (IsErr result) }
{
    let mut at = 0;
    while at < size {
        let count = read_part(source, path, at, size, buffer)?;
        if count == 0 {
            break;
        }
        hasher.update(&buffer[..count]);
        at += count as u64;
    }
    Ok(())
}

/// Whether both names have the same digits.
pub fn is_same_name(a: &PayloadName, b: &PayloadName) -> bool
    ensures same { result ≡ same_path (spelling a.now) (spelling b.now) }
    ensures count { length (spelling a.now) ≡ digit_count a.now }
{
    let mut first = [0; 64];
    let mut second = [0; 64];
    let m = a.print(&mut first);
    let n = b.print(&mut second);
    is_same(&first[..m], &second[..n])
}

/// Whether both are the same bytes.
pub fn is_same(a: &[u8], b: &[u8]) -> bool
    ensures { result ≡ same_path a.now b.now }
{
    a == b
}
