//! How many packages a request changes.

ghost use Rattle.std.specs.Prelude.{◌≡◌, length, filter, map, is_none};
ghost use Rattle.std.specs.Option.{option_map};
ghost use Rattle.std.specs.List.Sorted.{IsStrictlySortedBy};
ghost use Rattle.std.specs.Ordering.{nat_cmp};
ghost use Rattle.std.specs.Cmp.Lexicographic.{slice_cmp};
ghost use Rattle.ips_plan_limits.specs.Counts as spec;
ghost use Rattle.ips_plan_limits.specs.Counts.{absent_among, updated_from, version_at};

use ips_counts::Counts;
use ips_fmri::Version;
use ips_manifest::Package;
use ips_text::Text;
use std::cmp::Ordering;

/// How many of the new packages weren't installed, how many were at another version, and how many of the old ones are installed no more. Both lists are
/// in the order of their stems, by bytes, each stem once.
pub fn counts(old: &[Package], new: &[Package]) -> Counts
    requires old { IsStrictlySortedBy (slice_cmp nat_cmp) (map (λ p. p.stem) old.now) }
    requires new { IsStrictlySortedBy (slice_cmp nat_cmp) (map (λ p. p.stem) new.now) }
    ensures installs { result.installs ≡ absent_among old.now new.now }
    ensures updates { result.updates ≡ updated_from old.now new.now }
    ensures removes { result.removes ≡ absent_among new.now old.now }
{
    Counts {
        installs: count_absent(old, new),
        updates: count_updated(old, new),
        removes: count_absent(new, old),
    }
}

// How many of the other packages have stems that none of these has.
fn count_absent(packages: &[Package], others: &[Package]) -> u64
    requires { IsStrictlySortedBy (slice_cmp nat_cmp) (map (λ p. p.stem) packages.now) }
    ensures { result ≡ absent_among packages.now others.now }
{
    let mut count = 0;
    for item in others {
        if is_absent(packages, item) {
            count += 1;
        }
    }
    count
}

// How many of the new packages were installed at another version.
fn count_updated(old: &[Package], new: &[Package]) -> u64
    requires { IsStrictlySortedBy (slice_cmp nat_cmp) (map (λ p. p.stem) old.now) }
    ensures { result ≡ updated_from old.now new.now }
{
    let mut count = 0;
    for item in new {
        if is_updated(old, item) {
            count += 1;
        }
    }
    count
}

// Whether none of the packages has the stem of this one.
fn is_absent(packages: &[Package], item: &Package) -> bool
    requires { IsStrictlySortedBy (slice_cmp nat_cmp) (map (λ p. p.stem) packages.now) }
    ensures { result ≡ spec.is_absent packages.now item.now }
{
    version_in(packages, &item.stem).is_none()
}

// Whether one of the old packages has the stem of this one, and another version.
fn is_updated(old: &[Package], item: &Package) -> bool
    requires { IsStrictlySortedBy (slice_cmp nat_cmp) (map (λ p. p.stem) old.now) }
    ensures { result ≡ spec.is_updated old.now item.now }
{
    match version_in(old, &item.stem) {
        Some(version) => !matches!(version.cmp(&item.version), Ordering::Equal),
        None => false,
    }
}

// The version of the package of this stem.
fn version_in<'a>(packages: &'a [Package], stem: &Text) -> Option<&'a Version>
    requires { IsStrictlySortedBy (slice_cmp nat_cmp) (map (λ p. p.stem) packages.now) }
    ensures { option_map (λ v. v.now) result ≡ version_at packages.now stem.now }
{
    match packages.binary_search_by(|item| item.stem.cmp(stem)) {
        Ok(i) => Some(&packages[i].version),
        Err(_) => None,
    }
}
