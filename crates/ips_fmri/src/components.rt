//! Components and stems, each at the front of a text.

ghost use Rattle.std.specs.Prelude.{◌≡◌, ◌≤◌, length, take, drop};
ghost use Rattle.ips_text.specs.Reading.{Sees};
ghost use Rattle.ips_fmri.specs.Name as name;
ghost use Rattle.ips_text.specs.Reading as texts;
ghost use Rattle.ips_fmri.specs.Reading.{component_at, stem_at};

use crate::fault::Part;
use ips_text::{Stop, behind};

/// Whether the byte is `*` or `?`.
pub fn is_wildcard(byte: u8) -> bool
    ensures { result ≡ name.is_wildcard byte }
{
    matches!(byte, b'*' | b'?')
}

// Whether a component may begin with the byte.
fn may_begin(wild: bool, byte: u8) -> bool
    ensures { result ≡ name.may_begin wild byte }
{
    byte.is_ascii_alphanumeric() || (wild && is_wildcard(byte))
}

// Whether a component may go on with the byte.
fn may_go_on(wild: bool, byte: u8) -> bool
    ensures { result ≡ name.may_go_on wild byte }
{
    may_begin(wild, byte) || matches!(byte, b'_' | b'-' | b'.' | b'+')
}

/// A component at the front of the bytes, and what stands behind it.
#[tactic(auto, unfolding(crate::specs::Reading::component_at))]
pub fn component(kind: Part, wild: bool, bytes: &[u8]) -> Result<(&[u8], &[u8]), Stop<Part>>
    ensures { Sees (λ x. (x.0.now, x.1.now)) result (component_at kind wild bytes.now) }
{
    match bytes {
        [first, rest @ ..] if may_begin(wild, *first) => Ok(bytes.split_at(1 + run(wild, rest))),
        _ => Err(Stop {
            kind,
            left: bytes.len(),
        }),
    }
}

// The length of the longest run of bytes with which a component may go on.
fn run(wild: bool, bytes: &[u8]) -> usize
    ensures within { result ≤ length bytes.now }
    ensures run { texts.run (name.may_go_on wild) bytes.now ≡ (take result bytes.now, drop result bytes.now) }
{
    for (i, byte) in bytes.iter().enumerate() {
        if !may_go_on(wild, *byte) {
            return i;
        }
    }
    bytes.len()
}

/// A stem at the front of the bytes, and what stands behind it.
pub fn stem(wild: bool, bytes: &[u8]) -> Result<(&[u8], &[u8]), Stop<Part>>
    ensures { Sees (λ x. (x.0.now, x.1.now)) result (stem_at wild bytes.now) }
{
    let mut rest = bytes;
    loop {
        let (_, after) = component(Part::Stem, wild, rest)?;
        let Some(more) = behind(b'/', after) else {
            return Ok(bytes.split_at(bytes.len() - after.len()));
        };
        rest = more;
    }
}
