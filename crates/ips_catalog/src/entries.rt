//! The entries of a package.

ghost use Rattle.std.specs.Prelude.{◌≡◌, ◌∷◌, [], IfOk};
ghost use Rattle.std.specs.Fmt.{decimal};
ghost use Rattle.ips_text.specs.Reading.{Gives};
ghost use Rattle.ips_catalog.specs.Reading.{text_at, version_in, with_next, entry_at, versions_at};
ghost use Rattle.ips_catalog.specs.Outline.{entry_data, entries_data};

use crate::fault::{CatalogFault, place};
use crate::outline::Entry;
use crate::pointers::{entry_pointer, version_pointer};
use ips_fmri::Version;
use ips_text::{Or, Text};
use std::alloc::{AllocError, Global};
use std::collections::BTreeSet;

/// The versions of a package, ascending.
pub fn read_versions(
    alloc: Global,
    publisher: &str,
    stem: &str,
    entries: &[Entry],
) -> Result<Vec<Version>, Or<CatalogFault>>
    ensures { Gives (λ v. v.items) result (versions_at publisher.now stem.now 0 [] (entries_data entries.now)) }
{
    let mut versions = BTreeSet::new(alloc);
    for (index, entry) in entries.iter().enumerate() {
        add_entry(alloc, publisher, stem, index, entry, &mut versions)?;
    }
    Ok(listed(alloc, versions)?)
}

// The versions of a set, ascending.
fn listed(alloc: Global, versions: BTreeSet<Version>) -> Result<Vec<Version>, AllocError>
    ensures { IfOk result (λ v. v.items ≡ versions.keys) }
{
    versions.into_iter().collect(alloc)
}

// Adds the version of an entry.
#[tactic(auto, unfolding(crate::specs::Reading::entry_at))]
fn add_entry(
    alloc: Global,
    publisher: &str,
    stem: &str,
    index: usize,
    entry: &Entry,
    versions: &mut BTreeSet<Version>,
) -> Result<(), Or<CatalogFault>>
    ensures { Gives (λ _. versions.new.keys) result (entry_at publisher.now stem.now index versions.old.keys (entry_data entry.now)) }
{
    let text = version_text(alloc, publisher, stem, index, entry)?;
    let version = read_version(alloc, stem, text)?;
    add_version(alloc, stem, version, versions)
}

// The text of an entry's version.
#[tactic(auto, unfolding(crate::specs::Reading::text_at))]
fn version_text<'a>(
    alloc: Global,
    publisher: &str,
    stem: &str,
    index: usize,
    entry: &'a Entry,
) -> Result<&'a str, Or<CatalogFault>>
    ensures { Gives (λ text. text.now) result (text_at (publisher.now ∷ stem.now ∷ decimal index ∷ []) (entry_data entry.now)) }
{
    match entry {
        Some(Some(text)) => Ok(text.as_str()),
        Some(None) => {
            let pointer = version_pointer(alloc, publisher, stem, index)?;
            Err(Or::Bad(CatalogFault::WrongShape { pointer }))
        }
        None => {
            let pointer = entry_pointer(alloc, publisher, stem, index)?;
            Err(Or::Bad(CatalogFault::WrongShape { pointer }))
        }
    }
}

// The version that a text of a package's entry spells.
#[tactic(auto, unfolding(crate::specs::Reading::version_in))]
fn read_version(alloc: Global, stem: &str, text: &str) -> Result<Version, Or<CatalogFault>>
    ensures { Gives (λ v. v) result (version_in stem.now text.now) }
{
    match Version::parse(alloc, text) {
        Ok(version) => Ok(version),
        Err(Or::Bad(fault)) => {
            let stem = Text::new(alloc, stem)?;
            let place = place(fault);
            Err(Or::Bad(CatalogFault::BadVersion { stem, place }))
        }
        Err(Or::OutOfMemory) => Err(Or::OutOfMemory),
    }
}

// Adds a version to those of the entries before.
#[tactic(auto, unfolding(crate::specs::Reading::with_next))]
fn add_version(
    alloc: Global,
    stem: &str,
    version: Version,
    versions: &mut BTreeSet<Version>,
) -> Result<(), Or<CatalogFault>>
    ensures { Gives (λ _. versions.new.keys) result (with_next stem.now versions.old.keys version) }
{
    if versions.contains(&version) {
        let stem = Text::new(alloc, stem)?;
        let version = version.print(alloc)?;
        return Err(Or::Bad(CatalogFault::Repeated { stem, version }));
    }
    versions.insert(version)?;
    Ok(())
}
