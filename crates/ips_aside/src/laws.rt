//! Names that were found, by an image.

ghost use Rattle.std.specs.Prelude.{◌≡◌, ◌++◌, ℕ, IsTrue, List, None, Some};
ghost use Rattle.std.specs.List.{AllByRecursion};
ghost use Rattle.std.specs.List.Sorted.{IsStrictlySortedBy};
ghost use Rattle.std.specs.Ordering.{nat_cmp};
ghost use Rattle.std.specs.Cmp.Lexicographic.{slice_cmp};
ghost use Rattle.ips_text.specs.Ancestry.{is_below};
ghost use Rattle.ips_outside.specs.Image.{Image, IsImage, is_dir};
ghost use Rattle.ips_steps.specs.Private.{records_name};
ghost use Rattle.ips_after.specs.After.{IsEmptied};
ghost use Rattle.ips_after.specs.Request.{Request};
ghost use Rattle.ips_after.specs.Salvage as salvage;
ghost use Rattle.ips_aside.specs.declared.sides.side.Side.{Side};
ghost use Rattle.ips_aside.specs.sides.Sides.{AreSides};
ghost use Rattle.ips_aside.specs.declared.lost.LostName.{LostName};
ghost use Rattle.ips_aside.specs.declared.ways.Ways.{Ways};
ghost use Rattle.ips_aside.specs.Lost.{AreLostNames, AreNamesOf, HasName, folder_paths, lost_in, names_of};
ghost use Rattle.ips_aside.specs.Ways.{IsMarkedAbove, IsStandingAbove, is_way, bytes_if_any};

/// The name that was found of each side name that can't be used beside its path is the one of the definition, where the salvage folder lies in the
/// folder of the records, in which nothing is wanted.
pub fn lost_names_are_defined()
    ensures { (r : Request) (t : Image) (a : salvage.Aside) (things : List (List ℕ)) (sides : List Side) (names : List LostName) → AreNamesOf r t a things sides names
        → ((q : List ℕ) → IsTrue (is_below records_name q) → r.new.at q ≡ None) → IsTrue (is_below records_name a.root)
        → (p : List ℕ) (side : salvage.Side) → salvage.side_at r t p ≡ Some side → IsTrue (salvage.is_lost r t (p ++ side.suffix)) → salvage.IsLostName r t a p side }
{}

/// A salvage that has the names by the paths of their files has the name of each of them.
pub fn names_are_had()
    ensures { (r : Request) (t : Image) (a : salvage.Aside) (paths things : List (List ℕ)) (sides : List Side) (names : List LostName) → IsStrictlySortedBy (slice_cmp nat_cmp) paths → AreSides r t paths sides → AreLostNames a.root things sides names
        → ((p : List ℕ) → a.lost p ≡ lost_in names p) → AllByRecursion (HasName a) names }
{}

/// What was found is what the rules leave to a search: where moreover the directories that are emptied were found, nothing stands at the salvage folder,
/// a directory stands at that of the records, and the ways are those that were found.
pub fn asides_are_defined()
    ensures { (r : Request) (t : Image) (a : salvage.Aside) (things : List (List ℕ)) (sides : List Side) (names : List LostName) (ways : Ways) → AreNamesOf r t a things sides names
        → IsMarkedAbove ways.above (folder_paths a.root things ++ names_of names) → IsStandingAbove t a.root (bytes_if_any ways.standing) → ((q : List ℕ) → a.ways q ≡ is_way ways q)
        → IsImage t → IsEmptied r t a.emptied → t.look a.root ≡ None
        → ((q : List ℕ) → IsTrue (is_below records_name q) → r.new.at q ≡ None) → IsTrue (is_below records_name a.root) → IsTrue (is_dir (t.look records_name)) → salvage.IsAside r t a }
{}
