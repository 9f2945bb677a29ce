//! What gives way to a directory.

ghost use Rattle.std.specs.Prelude.{◌≡◌, ◌||◌};
ghost use Rattle.ips_ways.specs.Ways.{gives_at, is_dir_at};

use ips_outside::Look;
use ips_text::{RelPath, covers};

/// Where publishers stand in a repository: at and below it an empty file may be what a crash left of a directory.
const PUBLISHERS: &[u8] = b"publisher";

/// Whether what a look found at the path gives way to a directory.
pub(crate) fn gives_way(path: &RelPath, found: Look) -> bool
    ensures { result ≡ gives_at path.now.bytes found }
{
    match found {
        Look::Absent => true,
        Look::File { size, .. } => size == 0 && covers(PUBLISHERS, path.bytes()),
        Look::Dir { .. } | Look::Link | Look::Other => false,
    }
}

/// Whether a look at the path found a directory, or what gives way to one.
pub(crate) fn is_dir_or_free(path: &RelPath, found: Look) -> bool
    ensures { result ≡ (gives_at path.now.bytes found || is_dir_at found) }
{
    gives_way(path, found) || is_dir(found)
}

// Whether a look found a directory.
fn is_dir(found: Look) -> bool
    ensures { result ≡ is_dir_at found }
{
    match found {
        Look::Dir { .. } => true,
        Look::Absent | Look::File { .. } | Look::Link | Look::Other => false,
    }
}
