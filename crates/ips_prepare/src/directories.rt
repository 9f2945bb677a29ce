//! The directories on the way to what is written.

ghost use Rattle.std.specs.Prelude.{◌≡◌, ◌≤◌, ◌++◌, ◌∷◌, false, [], IfOk, OnOk, length, map, take, codes};
ghost use Rattle.std.specs.List.{AllByRecursion};
ghost use Rattle.ips_text.specs.Path.{IsPath};
ghost use Rattle.ips_text.specs.Quote.{quoted};
ghost use Rattle.ips_digest.specs.Name.{IsName};
ghost use Rattle.ips_fmri.specs.Name.{IsPublisher, IsStem};
ghost use Rattle.ips_outside.specs.Children.{path_bytes};
ghost use Rattle.ips_repo.specs.Places.{publisher_place};
ghost use Rattle.ips_sends.specs.Judged as spec;
ghost use Rattle.ips_sends.specs.Judged.{payload_dir};
ghost use Rattle.ips_prepare.specs.Prepared.{HasName, names_of, first_ways};

use crate::prepared::Content;
use ips_digest::PayloadName;
use ips_text::{Or, RelPath, quote};
use std::alloc::{AllocError, Global};

/// The directories on the way to the contents, the manifest and the catalog, each behind those that it stands in.
pub fn ways(
    alloc: Global,
    publisher: &str,
    stem: &str,
    contents: &[Content],
) -> Result<Vec<RelPath>, AllocError>
    requires publisher { IsPublisher publisher.now }
    requires stem { IsStem false stem.now }
    requires names { AllByRecursion HasName contents.now }
    ensures { IfOk result (λ ways. path_bytes ways.items ≡ spec.ways publisher.now stem.now (names_of contents.now)) }
{
    let mut ways = Vec::with_capacity(alloc, 8)?;
    push_first(alloc, &mut ways, publisher, stem)?;
    push_dirs(alloc, &mut ways, publisher, contents)?;
    Ok(ways)
}

// Those that each package has.
fn push_first(
    alloc: Global,
    ways: &mut Vec<RelPath>,
    publisher: &str,
    stem: &str,
) -> Result<(), AllocError>
    requires publisher { IsPublisher publisher.now }
    requires stem { IsStem false stem.now }
    ensures { OnOk result (path_bytes ways.new.items ≡ path_bytes ways.old.items ++ first_ways publisher.now stem.now) }
{
    let stem = quote(alloc, stem.as_bytes())?;
    push_path(alloc, ways, b"var")?;
    push_path(alloc, ways, b"var/pkg")?;
    push_path(alloc, ways, b"publisher")?;
    push_below(alloc, ways, publisher, b"")?;
    push_below(alloc, ways, publisher, b"/catalog")?;
    push_below(alloc, ways, publisher, b"/pkg")?;
    push_stem(alloc, ways, publisher, stem.as_str())?;
    push_below(alloc, ways, publisher, b"/file")
}

// Those of contents.
fn push_dirs(
    alloc: Global,
    ways: &mut Vec<RelPath>,
    publisher: &str,
    contents: &[Content],
) -> Result<(), AllocError>
    requires publisher { IsPublisher publisher.now }
    requires names { AllByRecursion HasName contents.now }
    ensures { OnOk result (path_bytes ways.new.items ≡ path_bytes ways.old.items ++ map (payload_dir publisher.now) (names_of contents.now)) }
{
    for content in contents {
        push_dir(alloc, ways, publisher, &content.name)?;
    }
    Ok(())
}

// That of a content.
fn push_dir(
    alloc: Global,
    ways: &mut Vec<RelPath>,
    publisher: &str,
    name: &PayloadName,
) -> Result<(), AllocError>
    requires publisher { IsPublisher publisher.now }
    requires name { IsName name.now }
    ensures { OnOk result (path_bytes ways.new.items ≡ path_bytes ways.old.items ++ payload_dir publisher.now name.now ∷ []) }
{
    let mut digits = [0u8; 64];
    let count = name.print(&mut digits);
    push_digits(alloc, ways, publisher, &digits[..count])
}

// That of a content whose name has these digits.
fn push_digits(
    alloc: Global,
    ways: &mut Vec<RelPath>,
    publisher: &str,
    digits: &[u8],
) -> Result<(), AllocError>
    requires some { 2 ≤ length digits.now }
    requires path { IsPath (publisher_place publisher.now ++ codes "/file/" ++ take 2 digits.now) }
    ensures { OnOk result (path_bytes ways.new.items ≡ path_bytes ways.old.items ++ (publisher_place publisher.now ++ codes "/file/" ++ take 2 digits.now) ∷ []) }
{
    let mut below = Vec::from_slice(alloc, b"/file/")?;
    below.extend_from_slice(&digits[..2])?;
    push_below(alloc, ways, publisher, below.as_slice())
}

// That of a stem.
fn push_stem(
    alloc: Global,
    ways: &mut Vec<RelPath>,
    publisher: &str,
    quoted: &str,
) -> Result<(), AllocError>
    requires { IsPath (publisher_place publisher.now ++ codes "/pkg/" ++ quoted.now) }
    ensures { OnOk result (path_bytes ways.new.items ≡ path_bytes ways.old.items ++ (publisher_place publisher.now ++ codes "/pkg/" ++ quoted.now) ∷ []) }
{
    let mut below = Vec::from_slice(alloc, b"/pkg/")?;
    below.extend_from_slice(quoted.as_bytes())?;
    push_below(alloc, ways, publisher, below.as_slice())
}

// One below the publisher's.
fn push_below(
    alloc: Global,
    ways: &mut Vec<RelPath>,
    publisher: &str,
    below: &[u8],
) -> Result<(), AllocError>
    requires { IsPath (publisher_place publisher.now ++ below.now) }
    ensures { OnOk result (path_bytes ways.new.items ≡ path_bytes ways.old.items ++ (publisher_place publisher.now ++ below.now) ∷ []) }
{
    let mut bytes = Vec::from_slice(alloc, b"publisher/")?;
    bytes.extend_from_slice(publisher.as_bytes())?;
    bytes.extend_from_slice(below)?;
    push_path(alloc, ways, bytes.as_slice())
}

// The path that these bytes are.
fn push_path(alloc: Global, ways: &mut Vec<RelPath>, bytes: &[u8]) -> Result<(), AllocError>
    requires { IsPath bytes.now }
    ensures { OnOk result (path_bytes ways.new.items ≡ path_bytes ways.old.items ++ bytes.now ∷ []) }
{
    match RelPath::parse(alloc, bytes) {
        Ok(path) => {
            ways.push(path)?;
            Ok(())
        }
        Err(Or::Bad(_)) => unreachable!(),
        Err(Or::OutOfMemory) => Err(AllocError),
    }
}
