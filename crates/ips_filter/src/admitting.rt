//! Which actions are taken.

ghost use Rattle.std.specs.Prelude.{◌≡◌, ◌↔◌, IsTrue};
ghost use Rattle.std.specs.List.{list_all};
ghost use Rattle.std.specs.Str.{bytes_eq};
ghost use Rattle.ips_action.specs.Judging as judging;
ghost use Rattle.ips_filter.specs.Settings.{variant_value};
ghost use Rattle.ips_filter.specs.Admitted as admitted;
ghost use Rattle.ips_filter.specs.Admitted.{Admits, MeetsVariant, MeetsAll, MeetsVariants, MeetsAllFacets, MeetsSomeFacet, has_value};

use crate::settings::Settings;
use ips_action::{Action, Attr, Attrs, Values};

impl Settings {
    /// Whether an action is taken (pkg(7), "Facets and Variants"): each of its variants' tags has the value that the variant has,
    /// each facet whose tag is `all` is on, and so is one of those whose tag is `true`, if there are any.
    pub fn admits(&self, action: &Action) -> bool
        ensures { IsTrue result ↔ Admits self.now action.now.attrs }
    {
        if !self.meets_variants(&action.attrs) {
            return false;
        }
        if !self.meets_all_facets(&action.attrs) {
            return false;
        }
        self.meets_some_facet(&action.attrs)
    }

    // Whether each value of a variant's tag is the value that the variant has.
    fn meets_variants(&self, attrs: &Attrs) -> bool
        ensures { IsTrue result ↔ MeetsVariants self.now attrs.now }
    {
        let mut left = attrs.list();
        while let Some((attr, rest)) = left.split_first() {
            if !self.meets_variant(&attr) {
                return false;
            }
            left = rest;
        }
        true
    }

    // Whether the attribute is no variant's tag, or each of its values is the one that the variant has.
    fn meets_variant(&self, attr: &Attr<'_>) -> bool
        ensures { IsTrue result ↔ MeetsVariant self.now attr.now }
    {
        !is_variant(attr) || self.is_met_by(attr)
    }

    // Whether each value of the tag is the value that the variant has.
    fn is_met_by(&self, attr: &Attr<'_>) -> bool
        ensures { result ≡ list_all (bytes_eq (variant_value self.now attr.now.key)) attr.now.values }
    {
        are_all(attr.values(), self.variant(attr.key()))
    }

    // Whether each facet whose tag is `all` is on.
    fn meets_all_facets(&self, attrs: &Attrs) -> bool
        ensures { IsTrue result ↔ MeetsAllFacets self.now attrs.now }
    {
        let mut left = attrs.list();
        while let Some((attr, rest)) = left.split_first() {
            if !self.meets_all(&attr) {
                return false;
            }
            left = rest;
        }
        true
    }

    // Whether the attribute is no facet's tag `all`, or the facet is on.
    fn meets_all(&self, attr: &Attr<'_>) -> bool
        ensures { IsTrue result ↔ MeetsAll self.now attr.now }
    {
        if !is_tag(attr, "all") {
            return true;
        }
        self.facet(attr.key())
    }

    // Whether one of the facets whose tag is `true` is on, if there are any.
    fn meets_some_facet(&self, attrs: &Attrs) -> bool
        ensures { IsTrue result ↔ MeetsSomeFacet self.now attrs.now }
    {
        let mut any = false;
        let mut left = attrs.list();
        while let Some((attr, rest)) = left.split_first() {
            if is_tag(&attr, "true") {
                if self.facet(attr.key()) {
                    return true;
                }
                any = true;
            }
            left = rest;
        }
        !any
    }
}

// Whether the attribute is a variant's tag.
fn is_variant(attr: &Attr<'_>) -> bool
    ensures { result ≡ admitted.is_variant attr.now.key }
{
    attr.key().starts_with("variant.")
}

// Whether the attribute is a facet's tag.
fn is_facet(attr: &Attr<'_>) -> bool
    ensures { result ≡ judging.is_facet attr.now.key }
{
    attr.key().starts_with("facet.")
}

// Whether the attribute is a facet's tag with this value.
fn is_tag(attr: &Attr<'_>, value: &str) -> bool
    ensures { result ≡ admitted.is_tag attr.now value.now }
{
    is_facet(attr) && has(attr.values(), value)
}

// Whether the value is one of these.
fn has(values: Values<'_>, value: &str) -> bool
    ensures { result ≡ has_value values.entry value.now }
{
    let mut left = values;
    while let Some((other, rest)) = left.split_first() {
        if value == other {
            return true;
        }
        left = rest;
    }
    false
}

// Whether each of the values is this one.
fn are_all(values: Values<'_>, wanted: &str) -> bool
    ensures { result ≡ list_all (bytes_eq wanted.now) values.entry }
{
    let mut left = values;
    while let Some((value, rest)) = left.split_first() {
        if wanted != value {
            return false;
        }
        left = rest;
    }
    true
}
