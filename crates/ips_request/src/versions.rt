//! The versions of a stem.

ghost use Rattle.std.specs.Prelude.{◌≡◌, ◌++◌, filter, reverse, IfOk, OnOk};
ghost use Rattle.std.specs.Option.{option_map};
ghost use Rattle.std.specs.Ordering.{is_lt};
ghost use Rattle.ips_fmri.specs.Order.{version_cmp};
ghost use Rattle.ips_request.specs.Candidates.{with_installed};

use ips_fmri::Version;
use std::alloc::{AllocError, Global};

/// The versions that are listed, ascending, and the installed one, where one is, newest first.
pub fn newest_first(
    alloc: Global,
    listed: &[Version],
    installed: Option<&Version>,
) -> Result<Vec<Version>, AllocError>
    ensures { IfOk result (λ all. all.items ≡ reverse (with_installed listed.now (option_map (λ v. v.now) installed.entry))) }
{
    let mut all = Vec::new(alloc);
    match installed {
        Some(installed) => {
            add_below(alloc, &mut all, listed, installed)?;
            all.push(installed.copy(alloc)?)?;
            add_above(alloc, &mut all, listed, installed)?;
        }
        None => add_all(alloc, &mut all, listed)?,
    }
    all.reverse();
    Ok(all)
}

// Adds all of the versions.
fn add_all(alloc: Global, all: &mut Vec<Version>, listed: &[Version]) -> Result<(), AllocError>
    ensures { OnOk result (all.new.items ≡ all.old.items ++ listed.now) }
{
    for version in listed {
        all.push(version.copy(alloc)?)?;
    }
    Ok(())
}

// Adds those of the versions that are less than the installed one.
fn add_below(
    alloc: Global,
    all: &mut Vec<Version>,
    listed: &[Version],
    installed: &Version,
) -> Result<(), AllocError>
    ensures { OnOk result (all.new.items ≡ all.old.items ++ filter (λ w. is_lt (version_cmp w installed.now)) listed.now) }
{
    for version in listed {
        if version.cmp(installed).is_lt() {
            all.push(version.copy(alloc)?)?;
        }
    }
    Ok(())
}

// Adds those of the versions that are greater than the installed one.
fn add_above(
    alloc: Global,
    all: &mut Vec<Version>,
    listed: &[Version],
    installed: &Version,
) -> Result<(), AllocError>
    ensures { OnOk result (all.new.items ≡ all.old.items ++ filter (λ w. is_lt (version_cmp installed.now w)) listed.now) }
{
    for version in listed {
        if installed.cmp(version).is_lt() {
            all.push(version.copy(alloc)?)?;
        }
    }
    Ok(())
}
