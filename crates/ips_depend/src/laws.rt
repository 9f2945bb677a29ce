//! What holds of every dependency.

ghost use Rattle.std.specs.Prelude.{◌≡◌, ◌↔◌, List, true};
ghost use Rattle.ips_fmri.specs.Version.{Parts};
ghost use Rattle.ips_fmri.specs.Order.{IsAtMost, Incorporates};
ghost use Rattle.ips_manifest.specs.declared.line.Line as declared;
ghost use Rattle.ips_filter.specs.Settings.{Set};
ghost use Rattle.ips_depend.specs.Asking.{LinesAsk};
ghost use Rattle.ips_depend.specs.Dependency.{Dependency};
ghost use Rattle.ips_depend.specs.Holds.{holds};
ghost use Rattle.ips_depend.specs.Laws.{Agree, DropsUnwanted};
ghost use Rattle.ips_depend.specs.Matching.{is_at_least, is_incorporated};
ghost use Rattle.ips_depend.specs.Selection.{Selection, Spared};

/// The law that a dependency looks only at what it mentions and is about: where two selections, and what is spared, agree at
/// the stems that it mentions, and the old selections agree at those that it is about, it holds in both or in neither.
pub fn judged_by_mentions()
    ensures { (d : Dependency) (s t old before : Selection) (spared saved : Spared) → Agree d s t old before spared saved → holds s old spared d ≡ holds t before saved d }
{}

/// The law that only wanted stems are drawn in: where of the stems that a dependency mentions only such become absent as it
/// doesn't want, it isn't broken by that.
pub fn only_wanted_drawn_in()
    ensures { (d : Dependency) (smaller s old : Selection) (spared : Spared) → DropsUnwanted d smaller s → holds s old spared d ≡ true → holds smaller old spared d ≡ true }
{}

/// The law that lines ask for one list of dependencies at most.
pub fn asks_for_one_list()
    ensures { (settings : Set) (lines : List declared.Line) (ds es : List Dependency) → LinesAsk settings lines ds → LinesAsk settings lines es → ds ≡ es }
{}

/// The law of the two tests on versions: they are `at least` and `incorporates`.
pub fn versions_are_matched()
    ensures at_least { (v floor : Parts) → (is_at_least v floor ≡ true) ↔ IsAtMost floor v }
    ensures incorporates { (v limit : Parts) → (is_incorporated v limit ≡ true) ↔ Incorporates v limit }
{}
