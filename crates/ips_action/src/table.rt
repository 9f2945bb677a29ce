//! The table of actions: which attributes each kind has, and what their values must be.

ghost use Rattle.std.specs.Prelude.{◌≡◌, map};
ghost use Rattle.ips_action.specs.Table.{table, row_seen};

use crate::check::Check;
use crate::kind::ActionKind;

/// How often an attribute may stand in an action.
#[derive(Clone, Copy, Drop)]
pub enum Times {
    /// Exactly once.
    Once,
    /// Once or more: its values are a list.
    OnceOrMore,
    /// Once or not at all.
    AtMostOnce,
    /// As often as one likes: its values are a list.
    AnyTimes,
}

/// A row of the table: an attribute, how often it may stand, and what each of its values must be. The row whose check is
/// `Check::Payload` is about the payload of the action and no attribute.
#[derive(Clone, Copy, Drop)]
pub struct Row<'a> {
    /// The key of the attribute.
    pub name: &'a str,
    /// How often it may stand.
    pub times: Times,
    /// What each value must be.
    pub check: Check,
}

static SET: [Row<'static>; 2] = [
    Row {
        name: "name",
        times: Times::Once,
        check: Check::Anything,
    },
    Row {
        name: "value",
        times: Times::AnyTimes,
        check: Check::Anything,
    },
];

static DEPEND: [Row<'static>; 3] = [
    Row {
        name: "fmri",
        times: Times::OnceOrMore,
        check: Check::Anything,
    },
    Row {
        name: "type",
        times: Times::Once,
        check: Check::Anything,
    },
    Row {
        name: "predicate",
        times: Times::AtMostOnce,
        check: Check::Anything,
    },
];

static DIR: [Row<'static>; 4] = [
    Row {
        name: "path",
        times: Times::Once,
        check: Check::Path,
    },
    Row {
        name: "mode",
        times: Times::Once,
        check: Check::Mode,
    },
    Row {
        name: "owner",
        times: Times::Once,
        check: Check::Anything,
    },
    Row {
        name: "group",
        times: Times::Once,
        check: Check::Anything,
    },
];

static FILE: [Row<'static>; 7] = [
    Row {
        name: "path",
        times: Times::Once,
        check: Check::Path,
    },
    Row {
        name: "mode",
        times: Times::Once,
        check: Check::Mode,
    },
    Row {
        name: "owner",
        times: Times::Once,
        check: Check::Anything,
    },
    Row {
        name: "group",
        times: Times::Once,
        check: Check::Anything,
    },
    Row {
        name: "payload",
        times: Times::Once,
        check: Check::Payload,
    },
    Row {
        name: "preserve",
        times: Times::AtMostOnce,
        check: Check::Preserve,
    },
    Row {
        name: "overlay",
        times: Times::AtMostOnce,
        check: Check::Overlay,
    },
];

static LINK: [Row<'static>; 6] = [
    Row {
        name: "path",
        times: Times::Once,
        check: Check::Path,
    },
    Row {
        name: "target",
        times: Times::Once,
        check: Check::LinkTarget,
    },
    Row {
        name: "mediator",
        times: Times::AtMostOnce,
        check: Check::Anything,
    },
    Row {
        name: "mediator-version",
        times: Times::AtMostOnce,
        check: Check::Numbers,
    },
    Row {
        name: "mediator-implementation",
        times: Times::AtMostOnce,
        check: Check::Anything,
    },
    Row {
        name: "mediator-priority",
        times: Times::AtMostOnce,
        check: Check::Priority,
    },
];

static HARDLINK: [Row<'static>; 6] = [
    Row {
        name: "path",
        times: Times::Once,
        check: Check::Path,
    },
    Row {
        name: "target",
        times: Times::Once,
        check: Check::HardlinkTarget,
    },
    Row {
        name: "mediator",
        times: Times::AtMostOnce,
        check: Check::Anything,
    },
    Row {
        name: "mediator-version",
        times: Times::AtMostOnce,
        check: Check::Numbers,
    },
    Row {
        name: "mediator-implementation",
        times: Times::AtMostOnce,
        check: Check::Anything,
    },
    Row {
        name: "mediator-priority",
        times: Times::AtMostOnce,
        check: Check::Priority,
    },
];

static USER: [Row<'static>; 8] = [
    Row {
        name: "username",
        times: Times::Once,
        check: Check::Account,
    },
    Row {
        name: "group",
        times: Times::Once,
        check: Check::Account,
    },
    Row {
        name: "uid",
        times: Times::AtMostOnce,
        check: Check::Id,
    },
    Row {
        name: "group-list",
        times: Times::AnyTimes,
        check: Check::Account,
    },
    Row {
        name: "gcos-field",
        times: Times::AtMostOnce,
        check: Check::Field,
    },
    Row {
        name: "home-dir",
        times: Times::AtMostOnce,
        check: Check::Field,
    },
    Row {
        name: "login-shell",
        times: Times::AtMostOnce,
        check: Check::Field,
    },
    Row {
        name: "password",
        times: Times::AtMostOnce,
        check: Check::Field,
    },
];

static GROUP: [Row<'static>; 2] = [
    Row {
        name: "groupname",
        times: Times::Once,
        check: Check::Account,
    },
    Row {
        name: "gid",
        times: Times::AtMostOnce,
        check: Check::Id,
    },
];

static DRIVER: [Row<'static>; 1] = [Row {
    name: "name",
    times: Times::Once,
    check: Check::Anything,
}];

static LICENSE: [Row<'static>; 4] = [
    Row {
        name: "license",
        times: Times::Once,
        check: Check::FileName,
    },
    Row {
        name: "payload",
        times: Times::Once,
        check: Check::Payload,
    },
    Row {
        name: "must-accept",
        times: Times::AtMostOnce,
        check: Check::Flag,
    },
    Row {
        name: "must-display",
        times: Times::AtMostOnce,
        check: Check::Flag,
    },
];

static LEGACY: [Row<'static>; 1] = [Row {
    name: "pkg",
    times: Times::Once,
    check: Check::FileName,
}];

static SIGNATURE: [Row<'static>; 1] = [Row {
    name: "payload",
    times: Times::AtMostOnce,
    check: Check::Payload,
}];

/// The rows of a kind of action, in the order in which they are judged. The first is the attribute that names the action,
/// where the kind has one (pkg(7), "Actions").
pub fn rows(kind: ActionKind) -> &'static [Row<'static>]
    ensures { map row_seen result.now ≡ table kind }
{
    match kind {
        ActionKind::Set => &SET,
        ActionKind::Depend => &DEPEND,
        ActionKind::Dir => &DIR,
        ActionKind::File => &FILE,
        ActionKind::Link => &LINK,
        ActionKind::Hardlink => &HARDLINK,
        ActionKind::User => &USER,
        ActionKind::Group => &GROUP,
        ActionKind::Driver => &DRIVER,
        ActionKind::License => &LICENSE,
        ActionKind::Legacy => &LEGACY,
        ActionKind::Signature => &SIGNATURE,
    }
}
