//! What the values of attributes must be.

ghost use Rattle.std.specs.Prelude.{◌≡◌, ◌≢◌, ◌<◌, ◌^◌, ◌↔◌, ℕ, IfOk, IsTrue, codes, [], ◌∷◌};
ghost use Rattle.std.specs.Fmt as spelled;
ghost use Rattle.ips_text.specs.Path.{parts};
ghost use Rattle.ips_action.specs.Check as checks;
ghost use Rattle.ips_action.specs.Judging as judging;
ghost use Rattle.ips_action.specs.Meaning as meaning;
ghost use Rattle.ips_action.specs.Check.{Meets, IsOneOf, IsActionPath, IsLinkTarget, IsNumerals, IsNumber, IsId, IsField, IsAccount, IsFileName, LeadsInside, preserve_words};

use crate::target::{first_part, leads_to};
use ips_digest::PayloadName;
use ips_text::{decimal, fault_of, fits_name, octal};
use std::alloc::{AllocError, Global};

/// What the value of an attribute must be.
#[derive(Clone, Copy, Drop)]
pub enum Check {
    /// Anything.
    Anything,
    /// A path below the image's root, of at most 960 bytes and 240 in its last part.
    Path,
    /// One to four octal digits, or five of which the first is `0`.
    Mode,
    /// The name of a payload: 40 or 64 lower-case hex digits.
    Payload,
    /// How a changed file is kept: `true`, `renameold`, `renamenew`, `legacy`, `abandon` or `install-only`.
    Preserve,
    /// Whether a file may take the place of another package's: `allow` or `true`.
    Overlay,
    /// The target of a symbolic link: 1 to 4,095 bytes without NUL.
    LinkTarget,
    /// The target of a hardlink: it leads to a path inside the image.
    HardlinkTarget,
    /// Numbers without needless leading zeros joined by dots, as in a version's release.
    Numbers,
    /// Who chooses a mediated link: `vendor` or `site`.
    Priority,
    /// The name of a user or of a group of users: not empty, without `:` and `,`, and not beginning with `#`, `+` or `-`.
    Account,
    /// The number of a user or of a group of users: decimal digits without needless leading zeros, below 2^32.
    Id,
    /// A field of an account file: it has no `:`.
    Field,
    /// A name whose quoted form is one that a file can have: not empty, at most 255 bytes, and neither `.` nor `..`.
    FileName,
    /// `true` or `false`.
    Flag,
    /// How a facet's tag asks for its facet: `true` or `all`.
    FacetTag,
}

impl Check {
    /// Whether a row of this check is about the payload.
    pub fn is_payload(self) -> bool
        ensures { result ≡ judging.is_payload self }
    {
        matches!(self, Check::Payload)
    }

    /// Whether a value of this check is a path.
    pub fn is_path(self) -> bool
        ensures { result ≡ meaning.is_path self }
    {
        matches!(self, Check::Path)
    }
}

/// Whether the value is what the check asks for, in an action at this path, which only the target of a hardlink looks at.
pub fn meets(alloc: Global, check: Check, path: &str, value: &str) -> Result<bool, AllocError>
    ensures { IfOk result (λ answer. IsTrue answer ↔ Meets check path.now value.now) }
{
    match check {
        Check::Anything => Ok(true),
        Check::Path => Ok(is_action_path(value.as_bytes())),
        Check::Mode => Ok(octal(value.as_bytes()).is_some()),
        Check::Payload => Ok(PayloadName::parse(value).is_some()),
        Check::Preserve => Ok(is_preserve(value)),
        Check::Overlay => Ok(matches!(value, "allow" | "true")),
        Check::LinkTarget => Ok(is_link_target(value.as_bytes())),
        Check::HardlinkTarget => leads_inside(alloc, path, value),
        Check::Numbers => Ok(is_numerals(value.as_bytes())),
        Check::Priority => Ok(matches!(value, "vendor" | "site")),
        Check::Account => Ok(is_account(value.as_bytes())),
        Check::Id => Ok(is_id(value.as_bytes())),
        Check::Field => Ok(is_field(value.as_bytes())),
        Check::FileName => Ok(is_file_name(value.as_bytes())),
        Check::Flag => Ok(matches!(value, "true" | "false")),
        Check::FacetTag => Ok(matches!(value, "true" | "all")),
    }
}

fn leads_inside(alloc: Global, path: &str, target: &str) -> Result<bool, AllocError>
    ensures { IfOk result (λ answer. IsTrue answer ↔ LeadsInside path.now target.now) }
{
    let found = leads_to(alloc, path.as_bytes(), target.as_bytes())?;
    Ok(found.is_some())
}

fn is_preserve(value: &str) -> bool
    ensures { IsTrue result ↔ IsOneOf preserve_words value.now }
{
    matches!(
        value,
        "true" | "renameold" | "renamenew" | "legacy" | "abandon" | "install-only"
    )
}

fn is_action_path(path: &[u8]) -> bool
    ensures { IsTrue result ↔ IsActionPath path.now }
{
    fault_of(path).is_none() && path.len() <= 960 && last_part(path).len() <= 240
}

// The last part of a path.
fn last_part(path: &[u8]) -> &[u8]
    ensures { result.now ≡ checks.last_of (parts path.now) }
{
    let mut left = path;
    loop {
        match first_part(left) {
            (part, None) => return part,
            (_, Some(rest)) => left = rest,
        }
    }
}

fn is_link_target(target: &[u8]) -> bool
    ensures { IsTrue result ↔ IsLinkTarget target.now }
{
    !target.is_empty() && target.len() <= 4095 && !target.contains(&0)
}

fn is_numerals(value: &[u8]) -> bool
    ensures { IsTrue result ↔ IsNumerals value.now }
{
    value.split(|b| *b == b'.').all(|part| is_number(part))
}

fn is_number(part: &[u8]) -> bool
    ensures { IsTrue result ↔ IsNumber part.now }
{
    decimal(part).is_some()
}

fn is_id(value: &[u8]) -> bool
    ensures { IsTrue result ↔ IsId value.now }
{
    match decimal(value) {
        Some(id) => id < 1 << 32,
        None => false,
    }
}

fn is_field(value: &[u8]) -> bool
    ensures { IsTrue result ↔ IsField value.now }
{
    !value.contains(&b':')
}

fn is_account(name: &[u8]) -> bool
    ensures { IsTrue result ↔ IsAccount name.now }
{
    !name.is_empty() && is_field(name) && !name.contains(&b',') && !begins_with_mark(name)
}

fn begins_with_mark(name: &[u8]) -> bool
    ensures { result ≡ checks.begins_with_mark name.now }
{
    matches!(name, [b'#' | b'+' | b'-', ..])
}

fn is_file_name(name: &[u8]) -> bool
    ensures { IsTrue result ↔ IsFileName name.now }
{
    !name.is_empty() && fits_name(name) && !matches!(name, [b'.'] | [b'.', b'.'])
}
