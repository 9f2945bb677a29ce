//! Whether lists are alike.

ghost use Rattle.std.specs.Prelude.{◌≡◌, ◌↔◌, IsTrue, MatchOption, [], ◌∷◌};
ghost use Rattle.ips_next.specs.Alike.{AreAlike};

use ips_fmri::{Fmri, Version};
use ips_manifest::Package;
use ips_mediate::SetMediator;
use ips_state::Origin;
use ips_text::Text;

/// What can be compared.
pub trait Alike {
    ghost alike: { Self → Self → Type 0 };

    /// Whether they are alike.
    fn is_like(&self, other: &Self) -> bool
        ensures { IsTrue result ↔ alike self.now other.now };
}

impl Alike for Text {
    ghost alike = { λ a b. a ≡ b };

    fn is_like(&self, other: &Text) -> bool {
        *self == *other
    }
}

impl Alike for Package {
    ghost alike = { λ a b. (a.stem ≡ b.stem) × (a.version ≡ b.version) };

    fn is_like(&self, other: &Package) -> bool {
        self.stem == other.stem && self.version == other.version
    }
}

impl Alike for Fmri {
    ghost alike = { λ a b. a ≡ b };

    fn is_like(&self, other: &Fmri) -> bool {
        same_text(&self.publisher, &other.publisher)
            && self.stem == other.stem
            && same_version(&self.version, &other.version)
    }
}

impl Alike for SetMediator {
    ghost alike = { λ a b. a ≡ b };

    fn is_like(&self, other: &SetMediator) -> bool {
        self.name == other.name
            && same_version(&self.version, &other.version)
            && same_text(&self.implementation, &other.implementation)
    }
}

impl Alike for Origin {
    ghost alike = { λ a b. a ≡ b };

    fn is_like(&self, other: &Origin) -> bool {
        self.name == other.name && self.sticky == other.sticky
    }
}

impl<'a, 'b> Alike for (&'a str, &'b str) {
    ghost alike = { λ a b. (a.0.now ≡ b.0.now) × (a.1.now ≡ b.1.now) };

    fn is_like(&self, other: &(&'a str, &'b str)) -> bool {
        self.0 == other.0 && self.1 == other.1
    }
}

impl<'a> Alike for (&'a str, bool) {
    ghost alike = { λ a b. (a.0.now ≡ b.0.now) × (a.1 ≡ b.1) };

    fn is_like(&self, other: &(&'a str, bool)) -> bool {
        self.0 == other.0 && self.1 == other.1
    }
}

// Whether both are this text, or there is none.
fn same_text(one: &Option<Text>, other: &Option<Text>) -> bool
    ensures { IsTrue result ↔ (one.now ≡ other.now) }
{
    match (one, other) {
        (Some(one), Some(other)) => *one == *other,
        (None, None) => true,
        _ => false,
    }
}

// Whether both are this version, or there is none.
fn same_version(one: &Option<Version>, other: &Option<Version>) -> bool
    ensures { IsTrue result ↔ (one.now ≡ other.now) }
{
    match (one, other) {
        (Some(one), Some(other)) => *one == *other,
        (None, None) => true,
        _ => false,
    }
}

/// Whether the lists are alike, item by item.
pub fn are_alike<T: Alike>(one: &[T], other: &[T]) -> bool
    ensures { IsTrue result ↔ AreAlike T.alike one.now other.now }
{
    let mut left = one;
    let mut right = other;
    while let Some((item, items)) = next(left) {
        match next(right) {
            Some((like, others)) if item.is_like(like) => {
                left = items;
                right = others;
            }
            _ => return false,
        }
    }
    right.is_empty()
}

// The first item, and those behind it.
fn next<T>(items: &[T]) -> Option<(&T, &[T])>
    ensures { MatchOption result (items.now ≡ []) (λ x. items.now ≡ x.0.now ∷ x.1.now) }
{
    items.split_first()
}
