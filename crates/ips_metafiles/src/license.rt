//! Licenses.

ghost use Rattle.std.specs.Prelude.{◌≡◌, ◌++◌, IfOk, OnOk, string_bytes};
ghost use Rattle.ips_text.specs.Quote.{quoted};
ghost use Rattle.ips_metafiles.specs.Records as spec;
ghost use Rattle.ips_metafiles.specs.Records.{IsQuotedName};

use ips_text::{Or, RelPath, quote};
use std::alloc::{AllocError, Global};

/// Where the text of a license of a stem is recorded: `var/pkg/license/STEM/NAME`, both quoted.
pub fn license_path(alloc: Global, stem: &str, name: &str) -> Result<RelPath, AllocError>
    requires stem { IsQuotedName stem.now }
    requires name { IsQuotedName name.now }
    ensures { IfOk result (λ path. path.bytes ≡ spec.license_path stem.now name.now) }
{
    let path = place(alloc, stem, name)?;
    match RelPath::parse(alloc, path.as_bytes()) {
        Ok(path) => Ok(path),
        Err(Or::OutOfMemory) => Err(AllocError),
        Err(Or::Bad(_)) => unreachable!(),
    }
}

fn place(alloc: Global, stem: &str, name: &str) -> Result<String, AllocError>
    ensures { IfOk result (λ place. string_bytes place ≡ spec.license_path stem.now name.now) }
{
    let mut place = String::new(alloc);
    place.push_str("var/pkg/license/")?;
    push_quoted(alloc, &mut place, stem)?;
    place.push_str("/")?;
    push_quoted(alloc, &mut place, name)?;
    Ok(place)
}

// Writes the quoted form.
fn push_quoted(alloc: Global, out: &mut String, name: &str) -> Result<(), AllocError>
    ensures { OnOk result (string_bytes out.new ≡ string_bytes out.old ++ quoted name.now) }
{
    let form = quote(alloc, name.as_bytes())?;
    out.push_str(form.as_str())
}
