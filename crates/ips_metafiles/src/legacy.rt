//! Legacy packages.

ghost use Rattle.std.specs.Prelude.{◌≡◌, ◌++◌, IfOk, OnOk, map, option_map, string_bytes};
ghost use Rattle.ips_metafiles.specs.Records as spec;
ghost use Rattle.ips_metafiles.specs.Records.{info_lines, info_line, info_text, key_seen};

use ips_action::Action;
use std::alloc::{AllocError, Global};

/// What a line of a legacy package's record tells: the front of the line, and the key of the attribute.
#[derive(Clone, Copy, Drop)]
pub struct InfoKey<'a> {
    pub(crate) front: &'a str,
    pub(crate) key: &'a str,
}

static INFO_KEYS: [InfoKey<'static>; 8] = [
    InfoKey {
        front: "PKG=",
        key: "pkg",
    },
    InfoKey {
        front: "NAME=",
        key: "name",
    },
    InfoKey {
        front: "VERSION=",
        key: "version",
    },
    InfoKey {
        front: "ARCH=",
        key: "arch",
    },
    InfoKey {
        front: "CATEGORY=",
        key: "category",
    },
    InfoKey {
        front: "DESC=",
        key: "desc",
    },
    InfoKey {
        front: "HOTLINE=",
        key: "hotline",
    },
    InfoKey {
        front: "VENDOR=",
        key: "vendor",
    },
];

/// The record of a legacy package, `pkginfo` (pkginfo(4)): a line for each of eight attributes that the action has, with its
/// first value.
pub fn pkginfo(alloc: Global, action: &Action) -> Result<Vec<u8>, AllocError>
    ensures { IfOk result (λ bytes. bytes.items ≡ info_text action.now) }
{
    let mut out = String::new(alloc);
    push_lines(&mut out, info_keys(), action)?;
    Ok(out.into_bytes())
}

// The keys, in the order of their lines.
fn info_keys() -> &'static [InfoKey<'static>]
    ensures { map key_seen result.now ≡ spec.info_keys }
{
    &INFO_KEYS
}

// Writes the lines of these keys.
fn push_lines(out: &mut String, keys: &[InfoKey<'_>], action: &Action) -> Result<(), AllocError>
    ensures { OnOk result (string_bytes out.new ≡ string_bytes out.old ++ info_lines action.now (map key_seen keys.now)) }
{
    for key in keys {
        push_value(out, key.front, action.get(key.key))?;
    }
    Ok(())
}

// Writes the line of a value, where there is one.
fn push_value(out: &mut String, front: &str, value: Option<&str>) -> Result<(), AllocError>
    ensures { OnOk result (string_bytes out.new ≡ string_bytes out.old ++ info_line front.now (option_map (λ v. v.now) value.entry)) }
{
    let Some(value) = value else {
        return Ok(());
    };
    out.push_str(front)?;
    out.push_str(value)?;
    out.push_str("\n")?;
    Ok(())
}
