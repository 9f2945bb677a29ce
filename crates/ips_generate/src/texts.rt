//! The texts of the files.

ghost use Rattle.std.specs.Prelude.{◌≡◌, ◌<◌, ◌^◌, ◌++◌, ◌∷◌, IfOk, OnOk};
ghost use Rattle.std.specs.Fmt.{decimal};
ghost use Rattle.ips_digest.specs.Name.{spelling};
ghost use Rattle.ips_generate.specs.Generated as spec;

use ips_digest::PayloadName;
use itoa::Buffer;
use std::alloc::{AllocError, Global};

/// The quoted stem of a package with a number.
pub fn quoted_stem(alloc: Global, number: u64) -> Result<Vec<u8>, AllocError>
    ensures { IfOk result (λ bytes. bytes.items ≡ spec.quoted_stem number) }
{
    let mut out = Vec::from_slice(alloc, b"pkg%2Fp")?;
    push_number(&mut out, number)?;
    Ok(out)
}

/// The content of the file of a package with a number.
pub fn content(alloc: Global, number: u64) -> Result<Vec<u8>, AllocError>
    requires { number < 2 ^ 32 }
    ensures { IfOk result (λ bytes. bytes.items ≡ spec.content number) }
{
    let mut out = Vec::new(alloc);
    push_number(&mut out, number * 2_654_435_761 % 4_294_967_296)?;
    out.push(b'\n')?;
    Ok(out)
}

/// The manifest of a package with a number, whose file has content of this name.
pub fn manifest(alloc: Global, number: u64, name: &PayloadName) -> Result<Vec<u8>, AllocError>
    requires { name.now ≡ spec.payload number }
    ensures { IfOk result (λ bytes. bytes.items ≡ spec.manifest number) }
{
    let mut out = Vec::new(alloc);
    push_dirs(&mut out, number)?;
    push_file(&mut out, number, name)?;
    if let Some(before) = number.checked_sub(1) {
        push_require(&mut out, before / 2)?;
    }
    Ok(out)
}

// Writes the lines of both directories.
fn push_dirs(out: &mut Vec<u8>, number: u64) -> Result<(), AllocError>
    ensures { OnOk result (out.new.items ≡ out.old.items ++ (spec.opt_line ++ spec.own_line number)) }
{
    out.extend_from_slice(b"dir group=bin mode=0755 owner=root path=opt\n")?;
    out.extend_from_slice(b"dir group=bin mode=0755 owner=root path=opt/p")?;
    push_number(out, number)?;
    out.push(b'\n')?;
    Ok(())
}

// Writes the line of the file.
fn push_file(out: &mut Vec<u8>, number: u64, name: &PayloadName) -> Result<(), AllocError>
    requires { name.now ≡ spec.payload number }
    ensures { OnOk result (out.new.items ≡ out.old.items ++ spec.file_line number) }
{
    let mut digits = [0; 64];
    let count = name.print(&mut digits);
    out.extend_from_slice(b"file ")?;
    out.extend_from_slice(&digits[..count])?;
    out.extend_from_slice(b" group=bin mode=0644 owner=root path=opt/p")?;
    push_number(out, number)?;
    out.extend_from_slice(b"/data\n")?;
    Ok(())
}

// Writes that a package is required.
fn push_require(out: &mut Vec<u8>, number: u64) -> Result<(), AllocError>
    ensures { OnOk result (out.new.items ≡ out.old.items ++ spec.require_line number) }
{
    out.extend_from_slice(b"depend fmri=pkg/p")?;
    push_number(out, number)?;
    out.extend_from_slice(b" type=require\n")?;
    Ok(())
}

/// The manifest of the package `all`, of so many others.
pub fn all_manifest(alloc: Global, number: u64) -> Result<Vec<u8>, AllocError>
    ensures { IfOk result (λ bytes. bytes.items ≡ spec.all_manifest number) }
{
    let mut out = Vec::new(alloc);
    for i in 0..number {
        push_require(&mut out, i)?;
    }
    Ok(out)
}

/// The catalog, of so many packages beside `all`.
pub fn catalog(alloc: Global, number: u64) -> Result<Vec<u8>, AllocError>
    ensures { IfOk result (λ bytes. bytes.items ≡ spec.catalog number) }
{
    let mut out = Vec::from_slice(alloc, b"{\"gen\":{\"all")?;
    push_version(&mut out)?;
    push_offers(&mut out, number)?;
    out.extend_from_slice(b"}}\n")?;
    Ok(out)
}

// Writes the packages with numbers.
fn push_offers(out: &mut Vec<u8>, number: u64) -> Result<(), AllocError>
    ensures { OnOk result (out.new.items ≡ out.old.items ++ spec.offers number) }
{
    for i in 0..number {
        push_offer(out, i)?;
    }
    Ok(())
}

// Writes one of them behind a comma.
fn push_offer(out: &mut Vec<u8>, number: u64) -> Result<(), AllocError>
    ensures { OnOk result (out.new.items ≡ out.old.items ++ spec.offer number) }
{
    out.extend_from_slice(b",\"pkg/p")?;
    push_number(out, number)?;
    push_version(out)
}

// Writes the end of a stem, and its one version.
fn push_version(out: &mut Vec<u8>) -> Result<(), AllocError>
    ensures { OnOk result (out.new.items ≡ out.old.items ++ spec.its_version) }
{
    out.extend_from_slice(b"\":[{\"version\":\"1.0,1-1:20240101T000000Z\"}]")
}

// Writes a number in decimal digits.
fn push_number(out: &mut Vec<u8>, number: u64) -> Result<(), AllocError>
    ensures { OnOk result (out.new.items ≡ out.old.items ++ decimal number) }
{
    let mut buffer = Buffer::new();
    out.extend_from_slice(buffer.format(number).as_bytes())
}
