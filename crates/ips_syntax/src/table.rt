//! The table of the commands.

ghost use Rattle.std.specs.Prelude.{◌≡◌, ◌==◌, IfSome, IfNone};
ghost use Rattle.ips_syntax.specs.Table as table;

/// Why a word is at fault.
#[derive(Clone, Copy, Debug, PartialEq, Eq, Drop)]
pub enum Why {
    /// A further word is needed.
    Missing,
    /// The word is no command or leading word; or it begins with `-` where no such option may stand; or a required option is
    /// still missing before it.
    Unknown,
    /// The word says again what may be said once.
    Repeated,
    /// The word doesn't have the form that is wanted here.
    BadValue,
    /// Behind the last word no further one may stand.
    Extra,
}

/// A command.
#[derive(Clone, Copy, Drop)]
pub enum Verb {
    ImageCreate,
    Install,
    Update,
    Uninstall,
    Fix,
    Verify,
    List,
    Contents,
    History,
    Search,
    RebuildIndex,
    ChangeFacet,
    ChangeVariant,
    SetMediator,
    UnsetMediator,
    Avoid,
    Unavoid,
    Freeze,
    Unfreeze,
    SetPublisher,
    UnsetPublisher,
    UpdateFormat,
    Gen,
}

/// What a word is on a command's line: an operand, or an option.
#[derive(Clone, Copy, Drop)]
pub enum Role {
    Operand,
    Accept,
    Actuator,
    Facet,
    Implementation,
    Manifest,
    NonSticky,
    Publisher,
    Reject,
    SearchFirst,
    SearchLimit,
    Sticky,
    Variant,
    Version,
}

/// The form of a word.
#[derive(Clone, Copy, Drop)]
pub enum Form {
    /// No word.
    Nothing,
    /// Any word.
    Any,
    /// A word that isn't empty.
    Filled,
    /// A word that is neither empty nor `-`.
    Implementation,
    /// The name of a publisher.
    Publisher,
    /// The name of a package.
    Stem,
    /// A pattern of packages' names.
    Pattern,
    /// The name of a package with its version.
    Freeze,
    /// Numbers joined by dots.
    Version,
    /// A decimal number from 1.
    Limit,
    /// A decimal number from 1 to 2,000.
    Count,
    /// A variant and its value.
    Variant,
    /// A facet, and true or false.
    Switch,
    /// A facet, and true, false or none.
    Setting,
}

/// The operands of a command: their form, and how many of them there are.
#[derive(Clone, Copy, Drop)]
pub struct Operands {
    pub form: Form,
    pub least: u64,
    pub most: u64,
}

/// The commands, in the order of the help.
pub const VERBS: [Verb; 23] = [
    Verb::ImageCreate,
    Verb::Install,
    Verb::Update,
    Verb::Uninstall,
    Verb::Fix,
    Verb::Verify,
    Verb::List,
    Verb::Contents,
    Verb::History,
    Verb::Search,
    Verb::RebuildIndex,
    Verb::ChangeFacet,
    Verb::ChangeVariant,
    Verb::SetMediator,
    Verb::UnsetMediator,
    Verb::Avoid,
    Verb::Unavoid,
    Verb::Freeze,
    Verb::Unfreeze,
    Verb::SetPublisher,
    Verb::UnsetPublisher,
    Verb::UpdateFormat,
    Verb::Gen,
];

/// The word of a command.
pub fn verb_name(verb: Verb) -> &'static str
    ensures { result.now ≡ table.verb_name verb }
{
    match verb {
        Verb::ImageCreate => "image-create",
        Verb::Install => "install",
        Verb::Update => "update",
        Verb::Uninstall => "uninstall",
        Verb::Fix => "fix",
        Verb::Verify => "verify",
        Verb::List => "list",
        Verb::Contents => "contents",
        Verb::History => "history",
        Verb::Search => "search",
        Verb::RebuildIndex => "rebuild-index",
        Verb::ChangeFacet => "change-facet",
        Verb::ChangeVariant => "change-variant",
        Verb::SetMediator => "set-mediator",
        Verb::UnsetMediator => "unset-mediator",
        Verb::Avoid => "avoid",
        Verb::Unavoid => "unavoid",
        Verb::Freeze => "freeze",
        Verb::Unfreeze => "unfreeze",
        Verb::SetPublisher => "set-publisher",
        Verb::UnsetPublisher => "unset-publisher",
        Verb::UpdateFormat => "update-format",
        Verb::Gen => "gen",
    }
}

/// The word of an option; of an operand there is none.
pub fn role_name(role: Role) -> &'static str
    ensures { result.now ≡ table.role_name role }
{
    match role {
        Role::Operand => "",
        Role::Accept => "--accept",
        Role::Actuator => "--actuator",
        Role::Facet => "--facet",
        Role::Implementation => "-I",
        Role::Manifest => "-m",
        Role::NonSticky => "--non-sticky",
        Role::Publisher => "-p",
        Role::Reject => "--reject",
        Role::SearchFirst => "--search-first",
        Role::SearchLimit => "--search-limit",
        Role::Sticky => "--sticky",
        Role::Variant => "--variant",
        Role::Version => "-V",
    }
}

/// The options of a command.
pub fn options_of(verb: Verb) -> &'static [Role]
    ensures { result.now ≡ table.options_of verb }
{
    match verb {
        Verb::ImageCreate => &[Role::Publisher, Role::Variant, Role::Facet, Role::Actuator],
        Verb::Install | Verb::Update => &[Role::Accept, Role::Reject, Role::SearchLimit],
        Verb::Uninstall => &[Role::SearchLimit],
        Verb::Contents => &[Role::Manifest],
        Verb::ChangeFacet | Verb::ChangeVariant => &[Role::Accept],
        Verb::SetMediator => &[Role::Version, Role::Implementation],
        Verb::SetPublisher => &[Role::SearchFirst, Role::Sticky, Role::NonSticky],
        _ => &[],
    }
}

/// The options of a command of which one is required.
pub fn required_of(verb: Verb) -> &'static [Role]
    ensures { result.now ≡ table.required_of verb }
{
    match verb {
        Verb::ImageCreate => &[Role::Publisher],
        Verb::SetMediator => &[Role::Version, Role::Implementation],
        _ => &[],
    }
}

/// The form of an option's value.
pub fn value_form(role: Role) -> Form
    ensures { result ≡ table.value_form role }
{
    match role {
        Role::Actuator => Form::Filled,
        Role::Facet => Form::Switch,
        Role::Implementation => Form::Implementation,
        Role::Publisher => Form::Publisher,
        Role::Reject => Form::Pattern,
        Role::SearchLimit => Form::Limit,
        Role::Variant => Form::Variant,
        Role::Version => Form::Version,
        _ => Form::Nothing,
    }
}

/// Whether a word of this role may stand more than once.
pub fn repeats(role: Role) -> bool
    ensures { result ≡ table.repeats role }
{
    matches!(role, Role::Facet | Role::Reject | Role::Variant)
}

/// What an option sets; two options of one number exclude each other.
pub fn sets(role: Role) -> u8
    ensures { result ≡ table.sets role }
{
    match role {
        Role::Operand => 0,
        Role::Accept => 1,
        Role::Actuator => 2,
        Role::Facet => 3,
        Role::Implementation => 4,
        Role::Manifest => 5,
        Role::NonSticky | Role::Sticky => 6,
        Role::Publisher => 7,
        Role::Reject => 8,
        Role::SearchFirst => 9,
        Role::SearchLimit => 10,
        Role::Variant => 11,
        Role::Version => 12,
    }
}

/// The operands of a command.
pub fn operands_of(verb: Verb) -> Operands
    ensures { result ≡ table.operands_of verb }
{
    match verb {
        Verb::Install | Verb::Uninstall => many(1, Form::Pattern),
        Verb::Update => many(0, Form::Pattern),
        Verb::Contents => one(Form::Pattern),
        Verb::Search => one(Form::Any),
        Verb::ChangeFacet => many(1, Form::Setting),
        Verb::ChangeVariant => one(Form::Variant),
        Verb::SetMediator | Verb::UnsetMediator => one(Form::Filled),
        Verb::Avoid | Verb::Unavoid | Verb::Unfreeze => many(1, Form::Stem),
        Verb::Freeze => many(1, Form::Freeze),
        Verb::SetPublisher | Verb::UnsetPublisher => one(Form::Publisher),
        Verb::Gen => one(Form::Count),
        _ => Operands {
            form: Form::Nothing,
            least: 0,
            most: 0,
        },
    }
}

// One operand.
fn one(form: Form) -> Operands
    ensures { result ≡ table.one form }
{
    Operands {
        form,
        least: 1,
        most: 1,
    }
}

// At least so many operands.
fn many(least: u64, form: Form) -> Operands
    ensures { result ≡ table.many least form }
{
    Operands {
        form,
        least,
        most: u64::MAX,
    }
}
