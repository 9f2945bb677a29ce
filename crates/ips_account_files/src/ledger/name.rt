//! That a payload's name, as the program holds it, has the bytes of a digest.

ghost use Rattle.std.specs.Prelude.{◌≡◌};
ghost use Rattle.ips_digest.specs.Name.{IsName};

use ips_digest::PayloadName;

/// The same name, of which this is told.
pub(crate) fn named(name: PayloadName) -> PayloadName
    ensures same { result ≡ name }
    ensures name { IsName result }
{
    match name {
        PayloadName::Sha1(bytes) => sha1(bytes),
        PayloadName::Sha256(bytes) => sha256(bytes),
    }
}

// The name of a SHA-1 digest.
fn sha1(bytes: [u8; 20]) -> PayloadName
    ensures same { result ≡ PayloadName.Sha1 bytes }
    ensures name { IsName result }
{
    PayloadName::Sha1(bytes)
}

// The name of a SHA-256 digest.
fn sha256(bytes: [u8; 32]) -> PayloadName
    ensures same { result ≡ PayloadName.Sha256 bytes }
    ensures name { IsName result }
{
    PayloadName::Sha256(bytes)
}
