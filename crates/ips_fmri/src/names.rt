//! Names of packages and patterns, read to the end of a text.

ghost use Rattle.std.specs.Prelude.{◌≡◌, IfOk, length};
ghost use Rattle.std.specs.Str.{IsUtf8};
ghost use Rattle.ips_text.specs.Reading.{Gives};
ghost use Rattle.ips_fmri.specs.declared.fault.Part.TheVariants.{Stem};
ghost use Rattle.ips_fmri.specs.Reading as reading;
ghost use Rattle.ips_fmri.specs.Reading.{expected};

use crate::components::{component, stem};
use crate::fault::Part;
use crate::pattern::Pattern;
use crate::version::{Version, read_version};
use ips_text::{Or, Stop, Text, fits_name};
use std::alloc::{AllocError, Global};

/// A name; wildcards may stand in it where `wild` says so.
#[tactic(auto, unfolding(crate::specs::Reading::read_name))]
pub fn read_name(alloc: Global, wild: bool, text: &[u8]) -> Result<Pattern, Or<Stop<Part>>>
    ensures { Gives (λ p. p) result (reading.read_name wild text.now) }
{
    if text.starts_with(b"pkg:") {
        read_scheme(alloc, wild, &text[4..])
    } else {
        read_plain(alloc, wild, text)
    }
}

// What stands behind `pkg:`.
#[tactic(auto, unfolding(crate::specs::Reading::expected))]
fn read_scheme(alloc: Global, wild: bool, bytes: &[u8]) -> Result<Pattern, Or<Stop<Part>>>
    ensures { Gives (λ p. p) result (expected Stem 47 (reading.read_anchored wild) bytes.now) }
{
    match bytes {
        [b'/', rest @ ..] => read_anchored(alloc, wild, rest),
        _ => Err(stopped(Part::Stem, bytes)),
    }
}

// A name without `pkg:`, which as a pattern may begin with `/`.
#[tactic(auto, unfolding(crate::specs::Reading::read_plain))]
fn read_plain(alloc: Global, wild: bool, bytes: &[u8]) -> Result<Pattern, Or<Stop<Part>>>
    ensures { Gives (λ p. p) result (reading.read_plain wild bytes.now) }
{
    match bytes {
        [b'/', rest @ ..] if wild => read_stem(alloc, wild, None, true, rest),
        _ => read_stem(alloc, wild, None, false, bytes),
    }
}

// What stands behind `pkg:/`.
#[tactic(auto, unfolding(crate::specs::Reading::read_anchored))]
fn read_anchored(alloc: Global, wild: bool, bytes: &[u8]) -> Result<Pattern, Or<Stop<Part>>>
    ensures { Gives (λ p. p) result (reading.read_anchored wild bytes.now) }
{
    match bytes {
        [b'/', rest @ ..] => read_publisher(alloc, wild, rest),
        _ => read_stem(alloc, wild, None, true, bytes),
    }
}

// What stands behind `pkg://`.
#[tactic(auto, unfolding(crate::specs::Reading::read_publisher, crate::specs::Reading::expected, crate::specs::Reading::limited))]
fn read_publisher(alloc: Global, wild: bool, bytes: &[u8]) -> Result<Pattern, Or<Stop<Part>>>
    ensures { Gives (λ p. p) result (reading.read_publisher wild bytes.now) }
{
    let (publisher, rest) = front(component(Part::Publisher, false, bytes))?;
    if !fits_name(publisher) {
        return Err(stopped(Part::Publisher, rest));
    }
    match rest {
        [b'/', rest @ ..] => {
            let publisher = text_of(alloc, publisher)?;
            read_stem(alloc, wild, Some(publisher), true, rest)
        }
        _ => Err(stopped(Part::Publisher, rest)),
    }
}

// A stem and the version behind it.
#[tactic(auto, unfolding(crate::specs::Reading::read_stem, crate::specs::Reading::limited))]
fn read_stem(
    alloc: Global,
    wild: bool,
    publisher: Option<Text>,
    anchored: bool,
    bytes: &[u8],
) -> Result<Pattern, Or<Stop<Part>>>
    ensures { Gives (λ p. p) result (reading.read_stem wild publisher anchored bytes.now) }
{
    let (stem, rest) = front(stem(wild, bytes))?;
    if !fits_name(stem) {
        return Err(stopped(Part::Stem, rest));
    }
    let version = read_version_part(alloc, rest)?;
    let stem = text_of(alloc, stem)?;
    Ok(Pattern {
        publisher,
        anchored,
        stem,
        version,
    })
}

// What stands behind a stem.
#[tactic(auto, unfolding(crate::specs::Reading::read_version_part))]
fn read_version_part(alloc: Global, bytes: &[u8]) -> Result<Option<Version>, Or<Stop<Part>>>
    ensures { Gives (λ v. v) result (reading.read_version_part bytes.now) }
{
    match bytes {
        [] => Ok(None),
        [b'@', rest @ ..] => Ok(Some(read_version(alloc, rest)?)),
        _ => Err(stopped(Part::Stem, bytes)),
    }
}

// A stop where these bytes are left.
fn stopped(kind: Part, bytes: &[u8]) -> Or<Stop<Part>>
    ensures { result ≡ Or.Bad (record { kind = kind; left = length bytes.now }) }
{
    Or::Bad(Stop {
        kind,
        left: bytes.len(),
    })
}

// A part that was read without memory.
fn front<'a>(
    read: Result<(&'a [u8], &'a [u8]), Stop<Part>>,
) -> Result<(&'a [u8], &'a [u8]), Or<Stop<Part>>>
    ensures { Gives (λ x. x) result read.entry }
{
    read.map_err(Or::Bad)
}

// An owned text of these bytes.
fn text_of(alloc: Global, bytes: &[u8]) -> Result<Text, AllocError>
    requires { IsUtf8 bytes.now }
    ensures { IfOk result (λ text. text ≡ bytes.now) }
{
    match str::from_utf8(bytes) {
        Ok(text) => Text::new(alloc, text),
        Err(_) => unreachable!(),
    }
}

/// A copy of a text, where there is one.
pub fn copy_text(alloc: Global, text: &Option<Text>) -> Result<Option<Text>, AllocError>
    ensures { IfOk result (λ t. t ≡ text.now) }
{
    match text {
        Some(text) => Ok(Some(text.copy(alloc)?)),
        None => Ok(None),
    }
}

/// A copy of a version, where there is one.
pub fn copy_version(alloc: Global, version: &Option<Version>) -> Result<Option<Version>, AllocError>
    ensures { IfOk result (λ v. v ≡ version.now) }
{
    match version {
        Some(version) => Ok(Some(version.copy(alloc)?)),
        None => Ok(None),
    }
}
