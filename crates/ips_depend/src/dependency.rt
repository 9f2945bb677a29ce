//! One dependency of a package.

ghost use Rattle.std.specs.Prelude.{◌≡◌, ◌++◌, IfOk, List, length};
ghost use Rattle.std.specs.Option.{option_map};
ghost use Rattle.ips_fmri.specs.declared.fmri.Fmri as declared;
ghost use Rattle.ips_depend.specs.Dependency as dependency;
ghost use Rattle.ips_depend.specs.Dependency.{grouped, wanted};
ghost use Rattle.ips_depend.specs.Holds as judged;
ghost use Rattle.ips_depend.specs.Kept.{conditional_made, conditional_of, dependency_of, made_of, plain_made, sole_of};

use crate::copying::copy_kept;
use crate::dependency_type::DependencyType;
use crate::holding::holds;
use crate::places::Places;
use ips_fmri::Fmri;
use std::alloc::{AllocError, Global};
use std::marker::Model;
use std::slice;

/// A dependency by its type, with the FMRIs that it names.
#[derive(Drop)]
pub enum Kept {
    Require(Fmri),
    Optional(Fmri),
    Incorporate(Fmri),
    Exclude(Fmri),
    /// The predicate first.
    Conditional([Fmri; 2]),
    RequireAny(Vec<Fmri>),
    Group(Fmri),
    GroupAny(Vec<Fmri>),
    Parent(Vec<Fmri>),
    Origin {
        /// It is on the image that the system runs from.
        rooted: bool,
        fmri: Fmri,
    },
}

/// A dependency of a package (pkg(7), "Depend Actions"): a test on a selection. Contracts see its type and the FMRIs that it
/// names. A publisher in them is ignored.
#[derive(Drop)]
pub struct Test {
    kept: Kept,
}

impl Model for Test {
    ghost use Rattle.ips_depend.specs.Dependency.{Dependency};

    ghost Value = { Dependency };

    ghost use Rattle.ips_depend.specs.Kept.{dependency_of};

    ghost view = { λ t. dependency_of t.kept };
}

impl Test {
    /// The test of this type with these predicates that is about these FMRIs; None where the type doesn't take so many of them.
    /// One of type `origin` is on the image that the system runs from, where it is `rooted`.
    pub(crate) fn new(
        of_type: DependencyType,
        rooted: bool,
        predicates: Vec<Fmri>,
        fmris: Vec<Fmri>,
    ) -> Option<Test>
        ensures { result ≡ made_of rooted of_type predicates.items fmris.items }
    {
        let kept = keep(of_type, rooted, predicates, fmris)?;
        Some(Test { kept })
    }

    /// The same test.
    pub fn copy(&self, alloc: Global) -> Result<Test, AllocError>
        ensures { IfOk result (λ test. test ≡ self.now) }
    {
        Ok(Test {
            kept: copy_kept(alloc, &self.kept)?,
        })
    }

    /// Whether the test holds: one sentence for each type (pkg(7), "Depend Actions"). Here an FMRI is present where its stem is
    /// selected, at a version at least its own where it has one.
    ///
    /// - `require`: the FMRI is present.
    /// - `optional`: its stem is absent, or it is present.
    /// - `incorporate`: its stem is absent, or at a version that incorporates its own where it has one.
    /// - `exclude`: it isn't present.
    /// - `conditional`: the predicate isn't present, or the FMRI is.
    /// - `require-any`: one of the FMRIs is present.
    /// - `group`: its stem is selected, at any version, or is spared.
    /// - `group-any`: one of the FMRIs is present, or the stems of all of them are spared.
    /// - `parent`: always.
    /// - `origin`: it is on the image that the system runs from, or the old selection has no version of its stem, or one at least
    ///   its own where it has one.
    ///
    /// The view is asked by the places of the FMRIs that the dependency mentions.
    pub fn holds<V: Places>(&self, view: &V) -> bool
        requires { V.stems view.now ≡ dependency.stems (dependency.mentions self.now) }
        ensures { result ≡ judged.holds (V.selection view.now) (V.old_selection view.now) (V.spares view.now) self.now }
    {
        holds(&self.kept, view)
    }

    /// The FMRIs that it mentions: its predicate first, where it has one, and then those that it is about. One of type `origin`
    /// mentions none.
    pub fn mentions(&self) -> &[Fmri]
        ensures { result.now ≡ dependency.mentions self.now }
    {
        mentions(&self.kept)
    }

    /// How many of the last FMRIs that it mentions it wants: these draw their stems in, so that they are looked for among the
    /// packages that aren't installed.
    pub fn wants(&self) -> usize
        ensures count { result ≡ length (wanted self.now) }
        ensures last { (before : List declared.Fmri) × (dependency.mentions self.now ≡ before ++ wanted self.now) }
    {
        wants(&self.kept)
    }

    /// The FMRIs that it names, where it is of type `group` or `group-any`: where none of them is present, those of their stems
    /// that are absent go to the avoid list.
    pub fn group(&self) -> &[Fmri]
        ensures { result.now ≡ grouped self.now }
    {
        group(&self.kept)
    }
}

fn mentions(kept: &Kept) -> &[Fmri]
    ensures { result.now ≡ dependency.mentions (dependency_of kept.now) }
{
    match kept {
        Kept::Require(fmri) => slice::from_ref(fmri),
        Kept::Optional(fmri) => slice::from_ref(fmri),
        Kept::Incorporate(fmri) => slice::from_ref(fmri),
        Kept::Exclude(fmri) => slice::from_ref(fmri),
        Kept::Conditional(both) => both.as_slice(),
        Kept::RequireAny(fmris) => fmris.as_slice(),
        Kept::Group(fmri) => slice::from_ref(fmri),
        Kept::GroupAny(fmris) => fmris.as_slice(),
        Kept::Parent(fmris) => fmris.as_slice(),
        Kept::Origin { .. } => &[],
    }
}

fn wants(kept: &Kept) -> usize
    ensures { result ≡ length (wanted (dependency_of kept.now)) }
{
    match kept {
        Kept::Require(_) => 1,
        Kept::Optional(_) => 0,
        Kept::Incorporate(_) => 0,
        Kept::Exclude(_) => 0,
        Kept::Conditional(both) => wants_last(both),
        Kept::RequireAny(fmris) => fmris.len(),
        Kept::Group(_) => 1,
        Kept::GroupAny(fmris) => fmris.len(),
        Kept::Parent(_) => 0,
        Kept::Origin { .. } => 0,
    }
}

// Of the two FMRIs of a conditional dependency the last one is wanted.
fn wants_last(both: &[Fmri; 2]) -> usize
    ensures { result ≡ length (wanted (conditional_of both.now)) }
{
    both.len() - 1
}

fn group(kept: &Kept) -> &[Fmri]
    ensures { result.now ≡ grouped (dependency_of kept.now) }
{
    match kept {
        Kept::Group(fmri) => slice::from_ref(fmri),
        Kept::GroupAny(fmris) => fmris.as_slice(),
        Kept::Conditional(both) => ungrouped(both),
        _ => &[],
    }
}

// A conditional dependency names nothing of that kind.
fn ungrouped(both: &[Fmri; 2]) -> &[Fmri]
    ensures { result.now ≡ grouped (conditional_of both.now) }
{
    let [_, _] = both;
    &[]
}

// The dependency of this type with these predicates that is about these FMRIs.
fn keep(
    of_type: DependencyType,
    rooted: bool,
    predicates: Vec<Fmri>,
    fmris: Vec<Fmri>,
) -> Option<Kept>
    ensures { option_map dependency_of result ≡ made_of rooted of_type predicates.items fmris.items }
{
    if of_type.is_conditional() {
        return keep_conditional(predicates, fmris);
    }
    if !predicates.is_empty() {
        return None;
    }
    keep_plain(of_type, rooted, fmris)
}

// The conditional dependency of one predicate and one FMRI.
fn keep_conditional(predicates: Vec<Fmri>, fmris: Vec<Fmri>) -> Option<Kept>
    ensures { option_map dependency_of result ≡ conditional_made (sole_of predicates.items) (sole_of fmris.items) }
{
    let predicate = sole(predicates)?;
    let fmri = sole(fmris)?;
    Some(Kept::Conditional([predicate, fmri]))
}

// The dependency of this type without predicate that is about these FMRIs.
fn keep_plain(of_type: DependencyType, rooted: bool, fmris: Vec<Fmri>) -> Option<Kept>
    ensures { option_map dependency_of result ≡ plain_made rooted of_type fmris.items }
{
    match of_type {
        DependencyType::Require => Some(Kept::Require(sole(fmris)?)),
        DependencyType::Optional => Some(Kept::Optional(sole(fmris)?)),
        DependencyType::Incorporate => Some(Kept::Incorporate(sole(fmris)?)),
        DependencyType::Exclude => Some(Kept::Exclude(sole(fmris)?)),
        DependencyType::Conditional => None,
        DependencyType::RequireAny => Some(Kept::RequireAny(fmris)),
        DependencyType::Group => Some(Kept::Group(sole(fmris)?)),
        DependencyType::GroupAny => Some(Kept::GroupAny(fmris)),
        DependencyType::Parent => Some(Kept::Parent(fmris)),
        DependencyType::Origin => Some(Kept::Origin {
            rooted,
            fmri: sole(fmris)?,
        }),
    }
}

// The FMRI, where there is just one.
fn sole(fmris: Vec<Fmri>) -> Option<Fmri>
    ensures { result ≡ sole_of fmris.items }
{
    let mut fmris = fmris;
    let fmri = fmris.pop()?;
    if !fmris.is_empty() {
        return None;
    }
    Some(fmri)
}
