//! Whether a dependency holds.

ghost use Rattle.std.specs.Prelude.{◌≡◌, ◌||◌, Some, slice_get};
ghost use Rattle.std.specs.List.{list_all, list_any};
ghost use Rattle.ips_fmri.specs.declared.fmri.Fmri as declared;
ghost use Rattle.ips_depend.specs.Dependency.{mentions, stems};
ghost use Rattle.ips_depend.specs.Holds as judged;
ghost use Rattle.ips_depend.specs.Kept.{conditional_of, dependency_of};
ghost use Rattle.ips_depend.specs.Matching as matching;
ghost use Rattle.ips_depend.specs.Selection as selection;

use crate::dependency::Kept;
use crate::places::Places;
use ips_fmri::{Fmri, Version};

/// Whether the dependency that is kept holds.
pub fn holds<V: Places>(kept: &Kept, view: &V) -> bool
    requires { V.stems view.now ≡ stems (mentions (dependency_of kept.now)) }
    ensures { result ≡ judged.holds (V.selection view.now) (V.old_selection view.now) (V.spares view.now) (dependency_of kept.now) }
{
    match kept {
        Kept::Require(fmri) => is_present(view, 0, fmri),
        Kept::Optional(fmri) => is_absent(view, 0, fmri) || is_present(view, 0, fmri),
        Kept::Incorporate(fmri) => is_absent(view, 0, fmri) || is_within(view, 0, fmri),
        Kept::Exclude(fmri) => !is_present(view, 0, fmri),
        Kept::Conditional(both) => holds_conditionally(view, both),
        Kept::RequireAny(fmris) => is_any_present(view, fmris.as_slice()),
        Kept::Group(fmri) => is_selected_or_spared(view, fmri),
        Kept::GroupAny(fmris) => is_any_present(view, fmris) || are_spared(view, fmris),
        Kept::Parent(_) => true,
        Kept::Origin { rooted, fmri } => *rooted || is_reached(view, fmri),
    }
}

// Whether the first FMRI isn't present, or the second is.
fn holds_conditionally<V: Places>(view: &V, both: &[Fmri; 2]) -> bool
    requires { V.stems view.now ≡ stems (mentions (conditional_of both.now)) }
    ensures { result ≡ judged.holds (V.selection view.now) (V.old_selection view.now) (V.spares view.now) (conditional_of both.now) }
{
    let [predicate, fmri] = both;
    !is_present(view, 0, predicate) || is_present(view, 1, fmri)
}

// Whether the stem of the only FMRI is selected, at any version, or spared.
fn is_selected_or_spared<V: Places>(view: &V, fmri: &Fmri) -> bool
    requires { slice_get (V.stems view.now) 0 ≡ Some fmri.now.stem }
    ensures { result ≡ (selection.is_selected (V.selection view.now) fmri.now || V.spares view.now fmri.now.stem) }
{
    !is_absent(view, 0, fmri) || view.spared(0)
}

// Whether one of the FMRIs is present.
fn is_any_present<V: Places>(view: &V, fmris: &[Fmri]) -> bool
    requires { V.stems view.now ≡ stems fmris.now }
    ensures { result ≡ list_any (selection.is_present (V.selection view.now)) fmris.now }
{
    for (place, fmri) in fmris.iter().enumerate() {
        if is_present(view, place, fmri) {
            return true;
        }
    }
    false
}

// Whether the stems of all the FMRIs are spared.
fn are_spared<V: Places>(view: &V, fmris: &[Fmri]) -> bool
    requires { V.stems view.now ≡ stems fmris.now }
    ensures { result ≡ list_all (λ (f : declared.Fmri). V.spares view.now f.stem) fmris.now }
{
    for place in 0..fmris.len() {
        if !view.spared(place) {
            return false;
        }
    }
    true
}

// Whether the old selection has no version of the FMRI's stem, or one at least the FMRI's where it has one.
fn is_reached<V: Places>(view: &V, fmri: &Fmri) -> bool
    ensures { result ≡ selection.is_reached (V.old_selection view.now) fmri.now }
{
    match view.before(fmri.stem.as_str()) {
        Some(version) => reaches(version, &fmri.version),
        None => true,
    }
}

// Whether the stem of the FMRI at this place is absent.
fn is_absent<V: Places>(view: &V, place: usize, fmri: &Fmri) -> bool
    requires { slice_get (V.stems view.now) place ≡ Some fmri.now.stem }
    ensures { result ≡ selection.is_absent (V.selection view.now) fmri.now }
{
    view.version(place).is_none()
}

// Whether the stem of the FMRI at this place is selected, at a version at least the FMRI's where it has one.
fn is_present<V: Places>(view: &V, place: usize, fmri: &Fmri) -> bool
    requires { slice_get (V.stems view.now) place ≡ Some fmri.now.stem }
    ensures { result ≡ selection.is_present (V.selection view.now) fmri.now }
{
    match view.version(place) {
        Some(version) => reaches(version, &fmri.version),
        None => false,
    }
}

// Whether the stem of the FMRI at this place is selected, at a version that incorporates the FMRI's where it has one.
fn is_within<V: Places>(view: &V, place: usize, fmri: &Fmri) -> bool
    requires { slice_get (V.stems view.now) place ≡ Some fmri.now.stem }
    ensures { result ≡ selection.is_within (V.selection view.now) fmri.now }
{
    match view.version(place) {
        Some(version) => is_admitted(version, &fmri.version),
        None => false,
    }
}

/// Whether the version is at least the floor, where there is one.
pub fn reaches(version: &Version, floor: &Option<Version>) -> bool
    ensures { result ≡ matching.reaches floor.now version.now }
{
    match floor {
        Some(floor) => version.at_least(floor),
        None => true,
    }
}

// Whether there is no limit, or the version incorporates it.
fn is_admitted(version: &Version, limit: &Option<Version>) -> bool
    ensures { result ≡ matching.admits limit.now version.now }
{
    match limit {
        Some(limit) => version.incorporates(limit),
        None => true,
    }
}
