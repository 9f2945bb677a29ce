//! The types of dependencies.

ghost use Rattle.std.specs.Prelude.{◌≡◌, IfNone, IfSome};
ghost use Rattle.ips_depend.specs.declared.dependency_type.DependencyType as declared;
ghost use Rattle.ips_depend.specs.Dependency.{type_name};
ghost use Rattle.ips_depend.specs.Kept as kept;

/// The type of a dependency (pkg(7), "Depend Actions").
#[derive(Clone, Copy, Debug, PartialEq, Eq, Drop)]
pub enum DependencyType {
    /// The package has to be there.
    Require,
    /// The package has to be new enough, where it is there.
    Optional,
    /// The package has to be at the version or a refinement of it, where it is there.
    Incorporate,
    /// The package may not be there.
    Exclude,
    /// The package has to be there, where another one is.
    Conditional,
    /// One of the packages has to be there.
    RequireAny,
    /// The package has to be there, unless it is spared.
    Group,
    /// One of the packages has to be there, unless all of them are spared.
    GroupAny,
    /// The package has to be in the parent image, which is no matter of this one.
    Parent,
    /// The package has to have been new enough, where it was there before.
    Origin,
}

impl DependencyType {
    /// The type of this word; None where it is of no type.
    pub fn named(word: &str) -> Option<DependencyType>
        ensures some { IfSome result (λ t. word.now ≡ type_name t) }
        ensures none { IfNone result ((t : declared.DependencyType) → word.now ≡ type_name t → ⊥) }
    {
        match word {
            "require" => Some(DependencyType::Require),
            "optional" => Some(DependencyType::Optional),
            "incorporate" => Some(DependencyType::Incorporate),
            "exclude" => Some(DependencyType::Exclude),
            "conditional" => Some(DependencyType::Conditional),
            "require-any" => Some(DependencyType::RequireAny),
            "group" => Some(DependencyType::Group),
            "group-any" => Some(DependencyType::GroupAny),
            "parent" => Some(DependencyType::Parent),
            "origin" => Some(DependencyType::Origin),
            _ => None,
        }
    }

    /// Whether a dependency of the type has a predicate.
    pub fn is_conditional(self) -> bool
        ensures { result ≡ kept.is_conditional self }
    {
        matches!(self, DependencyType::Conditional)
    }
}
