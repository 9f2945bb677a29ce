//! Catalogs.

ghost use Rattle.std.specs.Prelude.{◌≡◌, ◌<◌, List, [], Ok, Some, IfOk, OnErr, length, map, option_map, slice_get, slice_index_or};
ghost use Rattle.std.specs.List.Sorted.{IsStrictlySortedBy};
ghost use Rattle.std.specs.Ordering.{nat_cmp};
ghost use Rattle.ips_fmri.specs.Order.{version_cmp};
ghost use Rattle.std.specs.Cmp.Lexicographic.{slice_cmp};
ghost use Rattle.ips_text.specs.Reading.{Gives};
ghost use Rattle.ips_catalog.specs.Seen.{seen};
ghost use Rattle.ips_catalog.specs.Listed.{Listed, IsInOrder, versions_of, count_of};
ghost use Rattle.ips_catalog.specs.Catalog.{IsCatalogText};
ghost use Rattle.ips_catalog.specs.Reading.{read_catalog, published_at};
ghost use Rattle.ips_catalog.specs.Outline.{outline_kept, outlined_at, published_kept, published_data};

use crate::fault::CatalogFault;
use crate::outline::{Outline, Published, read_outline};
use crate::packages::{Listing, read_packages};
use crate::pointers::{publisher_pointer, top_pointer};
use crate::unread::Unread;
use ips_fmri::Version;
use ips_text::Or;
use std::alloc::{AllocError, Global};
use std::cmp::Ordering;
use std::marker::Model;
use std::str;

/// The packages of a publisher with their versions (the `catalog.base.C` of a version 4 repository, pkgrepo(1)). Contracts see
/// the list of its packages, by the bytes of their stems, each with its versions ascending.
#[derive(Drop)]
pub struct Catalog {
    packages: Vec<Listing>,
    count: usize,
}

impl Model for Catalog {
    ghost use Rattle.std.specs.Prelude.{◌≡◌, List, map};
    ghost use Rattle.ips_catalog.specs.Listed.{Listed, IsInOrder, count_of};
    ghost use Rattle.ips_catalog.specs.Seen.{seen};

    ghost Value = { List Listed };

    ghost view = { λ c. map seen c.packages.items };

    ghost invariant = { λ c. IsInOrder (map seen c.packages.items) × (c.count ≡ count_of (map seen c.packages.items)) };
}

impl Catalog {
    /// Reads the catalog of a publisher. It is a JSON object that has at the publisher's key an object, in which an array stands
    /// at each stem, of objects with a text `version` (the catalog of pkgrepo(1) and the IPS Developer Guide). Without the
    /// publisher's key it is empty. Other keys aren't looked at, and of two equal keys of an object the later one counts.
    ///
    /// The fault is the first where the stems are read by their bytes and the entries of each in their order, and at each entry
    /// first its shape is judged, then its version, then whether that was there before.
    pub fn read(alloc: Global, bytes: &[u8], publisher: &str) -> Result<Catalog, Or<CatalogFault>>
        ensures found { IfOk result (λ catalog. IsCatalogText publisher.now bytes.now catalog) }
        ensures only { (catalog : List Listed) → IsCatalogText publisher.now bytes.now catalog → Gives (λ c. c) result (Ok catalog) }
        ensures ordered { IfOk result (λ catalog. IsInOrder catalog) }
        ensures exact { Gives (λ c. c) result (read_catalog publisher.now bytes.now) }
    {
        let Ok(text) = str::from_utf8(bytes) else {
            return Err(Or::Bad(CatalogFault::NotJson));
        };
        match read_outline(alloc, text, publisher) {
            Ok(outline) => read_value(alloc, publisher, outline),
            Err(Unread::NotJson) => Err(Or::Bad(CatalogFault::NotJson)),
            Err(Unread::OutOfMemory) => Err(Or::OutOfMemory),
        }
    }

    /// How many packages it lists. Their stems ascend by bytes.
    pub fn stems(&self) -> usize
        ensures number { result ≡ length self.now }
        ensures ordered { IsInOrder self.now }
    {
        self.packages.len()
    }

    /// How many versions it lists, of all packages.
    pub fn count(&self) -> usize
        ensures { result ≡ count_of self.now }
    {
        self.count
    }

    /// The stem of a package, by the bytes of the stems from 0 on. `None` comes exactly past the last.
    pub fn stem(&self, i: usize) -> Option<&str>
        ensures { option_map (λ stem. stem.now) result ≡ option_map (λ listed. listed.stem) (slice_get self.now i) }
    {
        match self.packages.get(i) {
            Some(package) => Some(package.stem.as_str()),
            None => None,
        }
    }

    /// The versions of a stem, ascending; none where the stem isn't listed.
    pub fn versions(&self, stem: &str) -> &[Version]
        ensures listed { result.now ≡ versions_of self.now stem.now }
        ensures ascending { IsStrictlySortedBy version_cmp result.now }
    {
        match self.search(stem) {
            Ok(place) => &self.packages[place].versions,
            Err(_) => &[],
        }
    }

    // Where a stem is listed, or would be.
    fn search(&self, stem: &str) -> Result<usize, usize>
        ensures within { IfOk result (λ i. i < length self.now) }
        ensures found { IfOk result (λ i. (d : Listed) → (slice_index_or self.now i d).versions ≡ versions_of self.now stem.now) }
        ensures absent { OnErr result (versions_of self.now stem.now ≡ []) }
    {
        self.packages.binary_search_by(
            |listing: &Listing| -> Ordering
                ensures { result ≡ slice_cmp nat_cmp listing.now.stem stem.entry.now }
            { listing.stem.as_str().as_bytes().cmp(stem.as_bytes()) },
        )
    }
}

// The catalog of what is kept of a text.
#[tactic(auto, unfolding(crate::specs::Reading::published_at))]
fn read_value(alloc: Global, publisher: &str, outline: Outline) -> Result<Catalog, Or<CatalogFault>>
    ensures { Gives (λ c. c) result (outlined_at publisher.now (outline_kept outline)) }
{
    match outline {
        Some(Some(published)) => read_published(alloc, publisher, published),
        Some(None) => Ok(Catalog {
            packages: Vec::new(alloc),
            count: 0,
        }),
        None => {
            let pointer = top_pointer(alloc)?;
            Err(Or::Bad(CatalogFault::WrongShape { pointer }))
        }
    }
}

// The catalog of what is kept at the publisher's key.
#[tactic(auto, unfolding(crate::specs::Reading::published_at))]
fn read_published(
    alloc: Global,
    publisher: &str,
    published: Published,
) -> Result<Catalog, Or<CatalogFault>>
    ensures { Gives (λ c. c) result (published_at publisher.now (Some (published_data (published_kept published)))) }
{
    let Some(mut members) = published else {
        let pointer = publisher_pointer(alloc, publisher)?;
        return Err(Or::Bad(CatalogFault::WrongShape { pointer }));
    };
    let packages = read_packages(alloc, publisher, &mut members)?;
    let count = total(&packages)?;
    Ok(Catalog { packages, count })
}

// How many versions the packages have together. So many that their number doesn't fit don't fit in memory either.
fn total(packages: &[Listing]) -> Result<usize, AllocError>
    ensures { IfOk result (λ count. count ≡ count_of (map seen packages.now)) }
{
    let mut count: usize = 0;
    for package in packages {
        count = count.checked_add(package.versions.len()).ok_or(AllocError)?;
    }
    Ok(count)
}
