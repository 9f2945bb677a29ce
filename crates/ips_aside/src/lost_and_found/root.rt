//! The folder for what is salvaged.

ghost use Rattle.std.specs.Prelude.{◌≡◌, ◌+◌, ◌<◌, ◌^◌, IsTrue, IfOk, is_none, string_bytes};
ghost use Rattle.ips_outside.specs.Outside.{Reads};
ghost use Rattle.ips_after.specs.Salvage.{IsRoot, root_name};
ghost use Rattle.ips_change.specs.content.Failing.{HasFailed};
ghost use Rattle.ips_aside.specs.lost_and_found.Moments.{IsRootName, NamesMoment};

use ips_change::content::look_at;
use ips_outside::{Failed, Look, Source};
use ips_text::{Or, RelPath};
use std::alloc::{AllocError, Global};

/// The folder for what is salvaged at the moment of this text: the first of its names at which nothing stands. It looks once at each name up to that.
pub fn salvage_root<S: Source>(
    alloc: Global,
    source: &mut S,
    moment: &str,
) -> Result<RelPath, Or<Failed>>
    requires moment { NamesMoment moment.now }
    ensures first { IsTrue (S.outside.tells source.old) → IfOk result (λ root. IsRoot (S.outside.state source.old).held moment.now root.bytes) }
    ensures named { IfOk result (λ root. IsRootName moment.now root.bytes) }
    ensures reads { Reads S.outside source.old source.new (HasFailed result) }
{
    for number in 0..u64::MAX {
        let root = root_path(alloc, moment, number)?;
        if is_free(source, &root)? {
            return Ok(root);
        }
    }
    Err(Or::OutOfMemory)
}

// Whether nothing stands at the path.
fn is_free<S: Source>(source: &mut S, path: &RelPath) -> Result<bool, Or<Failed>>
    ensures found { IsTrue (S.outside.tells source.old) → IfOk result (λ free. free ≡ is_none ((S.outside.state source.old).held.look path.now.bytes)) }
    ensures reads { Reads S.outside source.old source.new (HasFailed result) }
{
    match look_at(source, path)? {
        Look::Absent => Ok(true),
        _ => Ok(false),
    }
}

// The name of this number of the folder.
fn root_path(alloc: Global, moment: &str, number: u64) -> Result<RelPath, AllocError>
    requires moment { NamesMoment moment.now }
    requires number { number + 1 < 2 ^ 64 }
    ensures { IfOk result (λ root. root.bytes ≡ root_name moment.now number) }
{
    let text = root_text(alloc, moment, number)?;
    match RelPath::parse(alloc, text.as_bytes()) {
        Ok(path) => Ok(path),
        Err(Or::Bad(_)) => unreachable!(),
        Err(Or::OutOfMemory) => Err(AllocError),
    }
}

// The text of that name.
fn root_text(alloc: Global, moment: &str, number: u64) -> Result<String, AllocError>
    requires { number + 1 < 2 ^ 64 }
    ensures { IfOk result (λ text. string_bytes text ≡ root_name moment.now number) }
{
    if number == 0 {
        format!(in alloc; "var/pkg/lost+found/{moment}")
    } else {
        format!(in alloc; "var/pkg/lost+found/{moment}.{}", number + 1)
    }
}
