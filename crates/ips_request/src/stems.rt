//! Sets of stems, in the order in which they were put in.

ghost use Rattle.std.specs.Prelude.{◌≡◌, ◌<◌, IfSome, length, map, OnOk, position};
ghost use Rattle.std.specs.Str.{bytes_eq};
ghost use Rattle.ips_fmri.specs.declared.fmri.Fmri as declared;
ghost use Rattle.ips_manifest.specs.declared.package.Package as packaged;
ghost use Rattle.ips_request.specs.Stems.{stems_of, has, put, put_all};

use indexmap::IndexSet;
use ips_fmri::Fmri;
use ips_manifest::Package;
use ips_text::Text;
use std::alloc::{AllocError, Global};

/// Whether the stem is in the set.
pub fn has_stem(stems: &IndexSet<String>, stem: &str) -> bool
    ensures { result ≡ has stem.now (stems_of stems.now.keys) }
{
    stems.contains(stem)
}

/// The number of a stem.
pub fn number(stems: &IndexSet<String>, stem: &str) -> Option<usize>
    ensures number { result ≡ position (bytes_eq stem.now) (stems_of stems.now.keys) }
    ensures within { IfSome result (λ i. i < length stems.now.keys) }
{
    stems.get_index_of(stem)
}

/// Puts the stem last, unless it is there.
pub fn add_stem(alloc: Global, stems: &mut IndexSet<String>, stem: &str) -> Result<(), AllocError>
    ensures { OnOk result (stems_of stems.new.keys ≡ put (stems_of stems.old.keys) stem.now) }
{
    if has_stem(stems, stem) {
        return Ok(());
    }
    let stem = String::from_str(alloc, stem)?;
    stems.insert(stem)?;
    Ok(())
}

/// Puts each of the stems last, unless it is there.
pub fn add_texts(
    alloc: Global,
    stems: &mut IndexSet<String>,
    texts: &[Text],
) -> Result<(), AllocError>
    ensures { OnOk result (stems_of stems.new.keys ≡ put_all (stems_of stems.old.keys) texts.now) }
{
    for text in texts {
        add_stem(alloc, stems, text.as_str())?;
    }
    Ok(())
}

/// Puts the stem of each FMRI last, unless it is there.
pub fn add_fmris(
    alloc: Global,
    stems: &mut IndexSet<String>,
    fmris: &[Fmri],
) -> Result<(), AllocError>
    ensures { OnOk result (stems_of stems.new.keys ≡ put_all (stems_of stems.old.keys) (map (λ (f : declared.Fmri). f.stem) fmris.now)) }
{
    for fmri in fmris {
        add_stem(alloc, stems, fmri.stem.as_str())?;
    }
    Ok(())
}

/// Puts the stem of each package last, unless it is there.
pub fn add_packages(
    alloc: Global,
    stems: &mut IndexSet<String>,
    packages: &[Package],
) -> Result<(), AllocError>
    ensures { OnOk result (stems_of stems.new.keys ≡ put_all (stems_of stems.old.keys) (map (λ (p : packaged.Package). p.stem) packages.now)) }
{
    for package in packages {
        add_stem(alloc, stems, package.stem.as_str())?;
    }
    Ok(())
}
