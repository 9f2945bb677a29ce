//! Laws of what packages mean, each the contract of a function that does nothing.

ghost use Rattle.std.specs.Prelude.{◌≡◌, ℕ, List, map};
ghost use Rattle.ips_manifest.specs.declared.package.Package.{Package};
ghost use Rattle.ips_filter.specs.Settings.{Set};
ghost use Rattle.ips_mediate.specs.declared.set.SetMediator.{SetMediator};
ghost use Rattle.ips_state.specs.State.{installed};
ghost use Rattle.ips_meaning.specs.declared.entry.Entry.{Entry};
ghost use Rattle.ips_meaning.specs.declared.fault.WantFault.{WantFault};
ghost use Rattle.ips_meaning.specs.Want.{PackagesFail, PackagesMean};
ghost use Rattle.ips_laws.specs.Alike.{AreLike};

/// Packages mean one list of entries, under the same settings and mediators: packages that differ in nothing but the room of
/// their texts mean the same paths in one order, and at each path entries that differ in nothing but the room of a path.
pub fn meaning_is_one()
    ensures { (settings : Set) (mediators : List SetMediator) (a b : List Package) (x y : List (List ℕ × Entry)) → map installed a ≡ map installed b
        → PackagesMean settings mediators a x → PackagesMean settings mediators b y → AreLike x y }
{}

/// Packages that mean something have no fault: no path that they give is reserved, and nothing of what an image takes of them clashes.
pub fn meaning_or_fault()
    ensures { (settings : Set) (mediators : List SetMediator) (packages : List Package) (entries : List (List ℕ × Entry)) (why : WantFault)
        → PackagesMean settings mediators packages entries → PackagesFail settings mediators packages why → ⊥ }
{}
