//! Installed packages as text.

ghost use Rattle.std.specs.Prelude.{◌≡◌, ◌++◌, IfOk, OnOk, string_bytes};
ghost use Rattle.ips_shown.specs.Shown as spec;
ghost use Rattle.ips_shown.specs.Shown.{package_line};

use ips_manifest::Package;
use ips_text::Text;
use std::alloc::{AllocError, Global};

/// The text of `list`: a line `stem@version` for each package (pkg(1), "list").
pub fn list_text(alloc: Global, packages: &[Package]) -> Result<Text, AllocError>
    ensures { IfOk result (λ text. text ≡ spec.list_text packages.now) }
{
    let mut out = String::new(alloc);
    push_packages(alloc, &mut out, packages)?;
    Ok(Text::from_string(out))
}

// Writes the line of each package.
fn push_packages(alloc: Global, out: &mut String, packages: &[Package]) -> Result<(), AllocError>
    ensures { OnOk result (string_bytes out.new ≡ string_bytes out.old ++ spec.list_text packages.now) }
{
    for held in packages {
        push_package(alloc, out, held)?;
    }
    Ok(())
}

// Writes the line of a package.
fn push_package(alloc: Global, out: &mut String, held: &Package) -> Result<(), AllocError>
    ensures { OnOk result (string_bytes out.new ≡ string_bytes out.old ++ package_line held.now) }
{
    let version = held.version.print(alloc)?;
    out.push_str(held.stem.as_str())?;
    out.push_str("@")?;
    out.push_str(version.as_str())?;
    out.push_str("\n")?;
    Ok(())
}
