//! What an image has set of variants and facets.

ghost use Rattle.std.specs.Prelude.{◌≡◌, ◌↔◌, [], ◌≤◌, length, IsTrue, Some, None, IfOk, IfNone, IfSome, OnOk, OnErr, slice_get};
ghost use Rattle.ips_filter.specs.Settings.{IsSet, Sets, AreByName, variant_value};
ghost use Rattle.ips_filter.specs.Facet.{HasFacet, IsLongerMatch};
ghost use Rattle.ips_filter.specs.View.{found_pattern, named, switched};

use ips_fmri::matches_stars;
use std::alloc::{AllocError, Global};
use std::collections::BTreeMap;
use std::marker::Model;

/// What an image has set: the values of variants by their names, and facets, on or off, by their patterns (pkg(7)). Contracts
/// see both as lists in the order of the names' bytes.
#[derive(Drop)]
pub struct Settings {
    variants: BTreeMap<String, String>,
    facets: BTreeMap<String, bool>,
}

impl Model for Settings {
    ghost use Rattle.ips_filter.specs.Settings.{Set};
    ghost use Rattle.ips_filter.specs.View.{variants_of, facets_of, InOrder};

    ghost Value = { Set };

    ghost view = { λ s. record { variants = variants_of s.variants; facets = facets_of s.facets } };

    ghost invariant = { λ s. InOrder s.variants × InOrder s.facets };
}

impl Settings {
    /// Settings in which nothing is set.
    pub fn new(alloc: Global) -> Settings
        ensures { result ≡ record { variants = []; facets = [] } }
    {
        Settings {
            variants: BTreeMap::new(alloc),
            facets: BTreeMap::new(alloc),
        }
    }

    /// Sets a variant to a value.
    pub fn set_variant(&mut self, alloc: Global, name: &str, value: &str) -> Result<(), AllocError>
        ensures set { OnOk result (Sets name.now (Some value.now) self.old.variants self.new.variants) }
        ensures facets { OnOk result (self.new.facets ≡ self.old.facets) }
        ensures as_before { OnErr result (self.new ≡ self.old) }
    {
        let name = String::from_str(alloc, name)?;
        let value = String::from_str(alloc, value)?;
        self.variants.insert(name, value)?;
        Ok(())
    }

    /// Sets a facet's pattern on or off, or, at None, takes its setting away. In a pattern `*` stands for any text.
    pub fn set_facet(
        &mut self,
        alloc: Global,
        pattern: &str,
        on: Option<bool>,
    ) -> Result<(), AllocError>
        ensures set { OnOk result (Sets pattern.now on self.old.facets self.new.facets) }
        ensures variants { OnOk result (self.new.variants ≡ self.old.variants) }
        ensures as_before { OnErr result (self.new ≡ self.old) }
    {
        match on {
            Some(on) => {
                self.facets.insert(String::from_str(alloc, pattern)?, on)?;
            }
            None => {
                self.facets.remove(pattern);
            }
        }
        Ok(())
    }

    /// Settings in which the same is set.
    pub fn copy(&self, _alloc: Global) -> Result<Settings, AllocError>
        ensures { IfOk result (λ s. s ≡ self.now) }
    {
        Ok(Settings {
            variants: self.variants.clone()?,
            facets: self.facets.clone()?,
        })
    }

    /// The value of a variant: `false` where it isn't set.
    pub fn variant(&self, name: &str) -> &str
        ensures { result.now ≡ variant_value self.now name.now }
    {
        match self.variants.get(name) {
            Some(value) => value.as_str(),
            None => "false",
        }
    }

    /// Whether a facet is on: the longest pattern that matches its name decides, and of patterns of one length the least by
    /// bytes. A facet that none matches is on.
    pub fn facet(&self, name: &str) -> bool
        ensures { HasFacet self.now name.now result }
    {
        let mut longest: Option<(&str, bool)> = None;
        for (pattern, on) in self.facets.iter() {
            if is_longer_match(longest, pattern.as_str(), name) {
                longest = Some((pattern.as_str(), *on));
            }
        }
        match longest {
            Some((_, on)) => on,
            None => true,
        }
    }

    /// The variants that are set, by the bytes of their names, in one walk: the name and the value of each.
    pub fn variants(&self, alloc: Global) -> Result<Vec<(&str, &str)>, AllocError>
        ensures each { IfOk result (λ all. named all.items ≡ self.now.variants) }
        ensures ascend { AreByName self.now.variants }
    {
        let mut all = Vec::new(alloc);
        for (name, value) in self.variants.iter() {
            all.push((name.as_str(), value.as_str()))?;
        }
        Ok(all)
    }

    /// The facets that are set, by the bytes of their patterns, in one walk: the pattern and the value of each.
    pub fn facets(&self, alloc: Global) -> Result<Vec<(&str, bool)>, AllocError>
        ensures each { IfOk result (λ all. switched all.items ≡ self.now.facets) }
        ensures ascend { AreByName self.now.facets }
    {
        let mut all = Vec::new(alloc);
        for (pattern, on) in self.facets.iter() {
            all.push((pattern.as_str(), *on))?;
        }
        Ok(all)
    }

    /// The variants that are set, by the bytes of their names: the name and the value of the one at this place. None exactly
    /// past the last.
    pub fn variant_at(&self, i: usize) -> Option<(&str, &str)>
        ensures none { IfNone result (length self.now.variants ≤ i) }
        ensures some { IfSome result (λ x. slice_get self.now.variants i ≡ Some (x.0.now, x.1.now)) }
        ensures ascend { AreByName self.now.variants }
    {
        let (name, value) = self.variants.iter().nth(i)?;
        Some((name.as_str(), value.as_str()))
    }

    /// The facets that are set, by the bytes of their patterns: the pattern and the value of the one at this place. None
    /// exactly past the last.
    pub fn facet_at(&self, i: usize) -> Option<(&str, bool)>
        ensures none { IfNone result (length self.now.facets ≤ i) }
        ensures some { IfSome result (λ x. slice_get self.now.facets i ≡ Some (x.0.now, x.1)) }
        ensures ascend { AreByName self.now.facets }
    {
        let (pattern, on) = self.facets.iter().nth(i)?;
        Some((pattern.as_str(), *on))
    }
}

// Whether a pattern matches the name and is longer than the one that was found, if any.
fn is_longer_match(found: Option<(&str, bool)>, pattern: &str, name: &str) -> bool
    ensures { IsTrue result ↔ IsLongerMatch (found_pattern found.entry) pattern.now name.now }
{
    let longer = match found {
        Some((shorter, _)) => pattern.len() > shorter.len(),
        None => true,
    };
    longer && matches_stars(pattern, name)
}
