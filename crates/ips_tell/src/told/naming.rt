//! That the payloads of a change have names, as the program holds them.

ghost use Rattle.ips_digest.specs.Name.{IsName};
ghost use Rattle.ips_digest.specs.declared.name.PayloadName.TheVariants as name;
ghost use Rattle.ips_tell.specs.told.Naming.{AreNamed, IsNamed};

use ips_digest::PayloadName;
use ips_journal::Staged;

/// What is staged, where it is a payload, has a name of a digest's bytes, as its type says.
pub fn payloads_are_named(staged: &[Staged])
    ensures { AreNamed staged.now }
{
    for i in 0..staged.len() {
        is_named(&staged[i]);
    }
}

// The same of one content.
fn is_named(content: &Staged)
    ensures { IsNamed content.now }
{
    if let Staged::Payload(name) = content {
        are_digest_bytes(*name);
    }
}

// The name has the bytes of a digest.
fn are_digest_bytes(name: PayloadName)
    ensures { IsName name }
{
    match name {
        PayloadName::Sha1(bytes) => are_twenty(bytes),
        PayloadName::Sha256(bytes) => are_thirty_two(bytes),
    }
}

// A SHA-1 digest has 20.
fn are_twenty(bytes: [u8; 20])
    ensures { IsName (name.Sha1 bytes) }
{}

// A SHA-256 digest has 32.
fn are_thirty_two(bytes: [u8; 32])
    ensures { IsName (name.Sha256 bytes) }
{}
