//! The kinds of actions.

ghost use Rattle.std.specs.Prelude.{◌≡◌, IfNone, IfSome};
ghost use Rattle.ips_action.specs.declared.kind.ActionKind.{ActionKind};
ghost use Rattle.ips_action.specs.Kind.{kind_name};

/// What an action is about (pkg(7), "Actions").
#[derive(Clone, Copy, Drop)]
pub enum ActionKind {
    /// Describes the package: a name and its values.
    Set,
    /// Asks for another package.
    Depend,
    /// Delivers a directory.
    Dir,
    /// Delivers a file.
    File,
    /// Delivers a symbolic link.
    Link,
    /// Delivers a further name of a file.
    Hardlink,
    /// Adds a user.
    User,
    /// Adds a group of users.
    Group,
    /// Adds a device driver.
    Driver,
    /// Delivers the text of a license.
    License,
    /// Tells an older packaging system of the package.
    Legacy,
    /// Signs the manifest.
    Signature,
}

impl ActionKind {
    /// The name of the kind, with which a line begins.
    pub fn name(self) -> &'static str
        ensures { result.now ≡ kind_name self }
    {
        match self {
            ActionKind::Set => "set",
            ActionKind::Depend => "depend",
            ActionKind::Dir => "dir",
            ActionKind::File => "file",
            ActionKind::Link => "link",
            ActionKind::Hardlink => "hardlink",
            ActionKind::User => "user",
            ActionKind::Group => "group",
            ActionKind::Driver => "driver",
            ActionKind::License => "license",
            ActionKind::Legacy => "legacy",
            ActionKind::Signature => "signature",
        }
    }

    /// The kind of this name, or None where no kind has it.
    pub fn named(name: &str) -> Option<ActionKind>
        ensures some { IfSome result (λ kind. name.now ≡ kind_name kind) }
        ensures none { IfNone result ((kind : ActionKind) → name.now ≡ kind_name kind → ⊥) }
    {
        match name {
            "set" => Some(ActionKind::Set),
            "depend" => Some(ActionKind::Depend),
            "dir" => Some(ActionKind::Dir),
            "file" => Some(ActionKind::File),
            "link" => Some(ActionKind::Link),
            "hardlink" => Some(ActionKind::Hardlink),
            "user" => Some(ActionKind::User),
            "group" => Some(ActionKind::Group),
            "driver" => Some(ActionKind::Driver),
            "license" => Some(ActionKind::License),
            "legacy" => Some(ActionKind::Legacy),
            "signature" => Some(ActionKind::Signature),
            _ => None,
        }
    }
}
