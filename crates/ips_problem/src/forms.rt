//! Stems and versions that have the form of their records.

ghost use Rattle.std.specs.Prelude.{◌≡◌, false, IfOk};
ghost use Rattle.ips_fmri.specs.Name.{IsStem};
ghost use Rattle.ips_fmri.specs.Version.{IsVersion};

use ips_fmri::Version;
use ips_records::stem;
use ips_text::Text;
use std::alloc::{AllocError, Global};

/// The same stem. Catalogs, images and dependencies name nothing else; what is no stem is refused like want of memory.
pub fn stem_of(alloc: Global, text: &str) -> Result<Text, AllocError>
    ensures same { IfOk result (λ found. found ≡ text.now) }
    ensures stem { IfOk result (IsStem false) }
{
    match stem(alloc, text.as_bytes())? {
        Some(found) => Ok(found),
        None => Err(AllocError),
    }
}

/// The same version, read from its text, so that it is known to be one.
pub fn version_again(alloc: Global, version: &Version) -> Result<Version, AllocError>
    ensures same { IfOk result (λ again. again ≡ version.now) }
    ensures version { IfOk result IsVersion }
{
    let text = version.print(alloc)?;
    let Ok(again) = Version::parse(alloc, text.as_str()) else {
        return Err(AllocError);
    };
    if !again.order(version).is_eq() {
        return Err(AllocError);
    }
    Ok(again)
}
