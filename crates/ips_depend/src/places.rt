//! What a dependency is judged against.

ghost use Rattle.std.specs.Prelude.{◌≡◌, ◌<◌, ℕ, List, Some, length, slice_get};
ghost use Rattle.std.specs.Option.{option_map};
ghost use Rattle.ips_depend.specs.Selection.{Selection, Spared};

use ips_fmri::Version;

/// A selection of packages, each at one version, the selection before it, and the stems that are spared. Contracts see them as
/// functions of the stem. The program asks for a stem by its place among those that one dependency mentions, so that no text has
/// to be looked up.
pub trait Places {
    ghost selection: { Self → Selection };

    ghost old_selection: { Self → Selection };

    ghost spares: { Self → Spared };

    /// The stems that the dependency mentions, in their order.
    ghost stems: { Self → List (List ℕ) };

    /// The version at which the stem at this place is selected; None where it is absent.
    fn version(&self, place: usize) -> Option<&Version>
        requires { place < length (stems self.now) }
        ensures { (stem : List ℕ) → slice_get (stems self.now) place ≡ Some stem → option_map (λ v. v.now) result ≡ selection self.now stem };

    /// The version at which the stem was selected before; None where it was absent. A dependency of type `origin` asks for it,
    /// and mentions nothing.
    fn before(&self, stem: &str) -> Option<&Version>
        ensures { option_map (λ v. v.now) result ≡ old_selection self.now stem.now };

    /// Whether the stem at this place is spared: no group dependency asks for it.
    fn spared(&self, place: usize) -> bool
        requires { place < length (stems self.now) }
        ensures { (stem : List ℕ) → slice_get (stems self.now) place ≡ Some stem → result ≡ spares self.now stem };
}
