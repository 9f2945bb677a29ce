//! What a request asks of an image.

ghost use Rattle.std.specs.Prelude.{◌≡◌, ◌&&◌, ◌||◌, ℕ, List, None, Option, Some, not, map, find, slice_get};
ghost use Rattle.std.specs.List.{last_or, list_all, list_any};
ghost use Rattle.std.specs.Option.{option_map};
ghost use Rattle.std.specs.Str.{bytes_eq};
ghost use Rattle.ips_fmri.specs.Version.{Parts};
ghost use Rattle.ips_fmri.specs.declared.fmri.Fmri as declared;
ghost use Rattle.ips_catalog.specs.Listed.{versions_of};
ghost use Rattle.ips_depend.specs.Matching as matching;
ghost use Rattle.ips_state.specs.State.{Installed, installed};
ghost use Rattle.ips_request.specs.Case as case;
ghost use Rattle.ips_request.specs.Case.{ManifestReading};
ghost use Rattle.ips_request.specs.Candidates as candidate;
ghost use Rattle.ips_request.specs.Manifests as fault;
ghost use Rattle.ips_request.specs.Stems.{stems_of, has};
ghost use Rattle.ips_request.specs.Subject.{case_of, catalog_of, repo_of, seen_naming};

use crate::asking::{Naming, Subject};
use crate::kind::Kind;
use crate::role::{Mention, Role, role_of};
use crate::stems::{has_stem, number};
use ips_fmri::{Fmri, Version};
use ips_manifest::Package;

impl Subject<'_> {
    /// The installed package with this stem.
    pub fn installed(&self, stem: &str) -> Option<&Package>
        ensures { option_map (λ p. installed p.now) result ≡ find (λ (p : Installed). bytes_eq stem.now p.stem) (map installed self.now.state.now.installed.items) }
    {
        match number(&self.packages, stem) {
            Some(number) => package_at(&self.state.installed, number),
            None => None,
        }
    }

    /// The version at which the stem is installed.
    pub fn installed_version(&self, stem: &str) -> Option<&Version>
        ensures { (file : List ℕ → Parts → Option (List ℕ)) (r : ManifestReading) → option_map (λ v. v.now) result ≡ case.installed_version (case_of self.now file r) stem.now }
    {
        match self.installed(stem) {
            Some(package) => Some(&package.version),
            None => None,
        }
    }

    /// The installed package with this stem, where it is at this version.
    pub fn own(&self, stem: &str, version: &Version) -> Option<&Package>
        ensures { (file : List ℕ → Parts → Option (List ℕ)) (r : ManifestReading) → option_map (λ p. installed p.now) result ≡ case.own (case_of self.now file r) stem.now version.now }
    {
        match self.installed(stem) {
            Some(package) => at_version(package, version),
            None => None,
        }
    }

    /// The versions of the stem in the catalog, ascending.
    pub fn listed(&self, stem: &str) -> &[Version]
        ensures { result.now ≡ versions_of (catalog_of (repo_of self.now)) stem.now }
    {
        match self.repo {
            Some(repo) => repo.catalog().versions(stem),
            None => &[],
        }
    }

    /// Whether a pattern names the stem.
    pub fn names(&self, stem: &str) -> bool
        ensures { result ≡ list_any (λ (n : case.Naming). has stem.now n.stems) (map seen_naming self.now.named.items) }
    {
        is_named(&self.named, stem)
    }

    /// Whether the stem is rejected.
    pub fn rejects(&self, stem: &str) -> bool
        ensures { result ≡ has stem.now (stems_of self.now.rejected.keys) }
    {
        has_stem(&self.rejected, stem)
    }

    /// What the request has in mind for the stem.
    pub fn role(&self, stem: &str) -> Role
        ensures { (file : List ℕ → Parts → Option (List ℕ)) (r : ManifestReading) → result ≡ candidate.role (case_of self.now file r) stem.now }
    {
        role_of(
            self.kind,
            Mention {
                named: self.names(stem),
                rejected: self.rejects(stem),
                target: self.is_target(stem),
                installed: self.is_installed(stem),
            },
        )
    }

    // Whether an update is of the stem: where it names nothing, it is of each that is installed.
    fn is_target(&self, stem: &str) -> bool
        ensures { (file : List ℕ → Parts → Option (List ℕ)) (r : ManifestReading) → result ≡ candidate.is_target_of (map seen_naming self.now.named.items) (case_of self.now file r) stem.now }
    {
        if self.named.is_empty() {
            self.is_installed(stem)
        } else {
            self.names(stem)
        }
    }

    // Whether the stem is installed.
    fn is_installed(&self, stem: &str) -> bool
        ensures { (file : List ℕ → Parts → Option (List ℕ)) (r : ManifestReading) → result ≡ case.is_installed (case_of self.now file r) stem.now }
    {
        self.installed(stem).is_some()
    }

    /// Whether the stem may come to the version.
    pub fn may_come(&self, stem: &str, version: &Version) -> bool
        ensures { (file : List ℕ → Parts → Option (List ℕ)) (r : ManifestReading) → result ≡ candidate.may_come (case_of self.now file r) stem.now version.now }
    {
        self.reaches(stem, version)
            && patterns_admit(&self.named, stem, version)
            && self.freeze_admits(stem, version)
    }

    /// Whether the version is the greatest of the catalog.
    pub fn is_greatest(&self, stem: &str, version: &Version) -> bool
        ensures { (file : List ℕ → Parts → Option (List ℕ)) (r : ManifestReading) → result ≡ candidate.is_version (candidate.greatest (case_of self.now file r) stem.now) version.now }
    {
        match greatest(self.listed(stem)) {
            Some(greatest) => version.cmp(greatest).is_eq(),
            None => false,
        }
    }

    /// Whether the manifest of the version is needed.
    pub fn needs(&self, stem: &str, version: &Version) -> bool
        ensures { (file : List ℕ → Parts → Option (List ℕ)) (r : ManifestReading) → result ≡ fault.is_needed self.now.kind (case_of self.now file r) stem.now version.now }
    {
        match self.kind {
            Kind::Install | Kind::Update => self.looks_at(stem, version),
            Kind::Uninstall | Kind::Keep => true,
        }
    }

    // Whether the version is the greatest of the catalog, or one that the stem may come to, where it isn't rejected.
    fn looks_at(&self, stem: &str, version: &Version) -> bool
        ensures { (file : List ℕ → Parts → Option (List ℕ)) (r : ManifestReading) → result ≡ (candidate.is_version (candidate.greatest (case_of self.now file r) stem.now) version.now || (not (has stem.now (stems_of self.now.rejected.keys)) && candidate.may_come (case_of self.now file r) stem.now version.now)) }
    {
        self.is_greatest(stem, version) || (!self.rejects(stem) && self.may_come(stem, version))
    }

    /// Whether the stem is spared, where it is told whether its greatest version is obsolete.
    pub fn spares(&self, stem: &str, obsolete: bool) -> bool
        ensures { (file : List ℕ → Parts → Option (List ℕ)) (r : ManifestReading) → candidate.is_obsolete_at (case_of self.now file r) stem.now (candidate.greatest (case_of self.now file r) stem.now) ≡ obsolete
            → result ≡ candidate.is_spared (case_of self.now file r) stem.now }
    {
        let named = self.names(stem);
        (has_stem(&self.avoided, stem) && !(self.installs() && named))
            || (self.uninstalls() && named)
            || self.rejects(stem)
            || obsolete
    }

    // Whether the request is to install.
    fn installs(&self) -> bool
        ensures { result ≡ candidate.installs self.now.kind }
    {
        matches!(self.kind, Kind::Install)
    }

    // Whether the request is to uninstall.
    fn uninstalls(&self) -> bool
        ensures { result ≡ candidate.uninstalls self.now.kind }
    {
        matches!(self.kind, Kind::Uninstall)
    }

    /// Whether the avoided stem stays avoided.
    pub fn keeps_avoiding(&self, stem: &str) -> bool
        ensures { result ≡ not (candidate.installs self.now.kind && list_any (λ (n : case.Naming). has stem.now n.stems) (map seen_naming self.now.named.items)) }
    {
        !(self.installs() && self.names(stem))
    }

    // Whether the version is at least the installed one.
    fn reaches(&self, stem: &str, version: &Version) -> bool
        ensures { result ≡ matching.reaches (option_map (λ (p : Installed). p.version) (find (λ (p : Installed). bytes_eq stem.now p.stem) (map installed self.now.state.now.installed.items))) version.now }
    {
        match self.installed(stem) {
            Some(package) => version.at_least(&package.version),
            None => true,
        }
    }

    // Whether each freeze of the stem admits the version. There is one at most.
    fn freeze_admits(&self, stem: &str, version: &Version) -> bool
        ensures { result ≡ list_all (λ (f : declared.Fmri). not (bytes_eq stem.now f.stem) || matching.admits f.version version.now) self.now.state.now.freeze.items }
    {
        match self.freeze(stem) {
            Some(freeze) => is_admitted(version, &freeze.version),
            None => true,
        }
    }

    // The freeze of the stem.
    fn freeze(&self, stem: &str) -> Option<&Fmri>
        ensures { option_map (λ f. f.now) result ≡ find (λ (f : declared.Fmri). bytes_eq stem.now f.stem) self.now.state.now.freeze.items }
    {
        match number(&self.frozen, stem) {
            Some(number) => freeze_at(&self.state.freeze, number),
            None => None,
        }
    }
}

// The package, where it is at this version.
fn at_version<'a>(found: &'a Package, version: &Version) -> Option<&'a Package>
    ensures { option_map (λ p. installed p.now) result ≡ case.at_version (Some (installed found.now)) version.now }
{
    if version.cmp(&found.version).is_eq() {
        Some(found)
    } else {
        None
    }
}

// The package with this number.
fn package_at(packages: &[Package], number: usize) -> Option<&Package>
    ensures { option_map (λ p. p.now) result ≡ slice_get packages.now number }
{
    packages.get(number)
}

// The freeze with this number.
fn freeze_at(freezes: &[Fmri], number: usize) -> Option<&Fmri>
    ensures { option_map (λ f. f.now) result ≡ slice_get freezes.now number }
{
    freezes.get(number)
}

// The last of the versions.
fn greatest(versions: &[Version]) -> Option<&Version>
    ensures { option_map (λ v. v.now) result ≡ last_or None versions.now }
{
    versions.last()
}

// Whether one of these names the stem.
fn is_named(named: &[Naming], stem: &str) -> bool
    ensures { result ≡ list_any (λ (n : case.Naming). has stem.now n.stems) (map seen_naming named.now) }
{
    for naming in named {
        if names(naming, stem) {
            return true;
        }
    }
    false
}

// Whether each of these that names the stem admits the version.
fn patterns_admit(named: &[Naming], stem: &str, version: &Version) -> bool
    ensures { result ≡ list_all (λ (n : case.Naming). not (has stem.now n.stems) || matching.admits n.limit version.now) (map seen_naming named.now) }
{
    for naming in named {
        if !pattern_admits(naming, stem, version) {
            return false;
        }
    }
    true
}

// Whether it admits the version, unless it doesn't name the stem.
fn pattern_admits(naming: &Naming, stem: &str, version: &Version) -> bool
    ensures { result ≡ (not (has stem.now naming.now.stems.items) || matching.admits naming.now.limit version.now) }
{
    !names(naming, stem) || is_admitted(version, &naming.limit)
}

// Whether it names the stem.
fn names(naming: &Naming, stem: &str) -> bool
    ensures { result ≡ has stem.now naming.now.stems.items }
{
    has_stem(&naming.index, stem)
}

// Whether there is no limit, or the version incorporates it.
fn is_admitted(version: &Version, limit: &Option<Version>) -> bool
    ensures { result ≡ matching.admits limit.now version.now }
{
    match limit {
        Some(limit) => version.incorporates(limit),
        None => true,
    }
}
