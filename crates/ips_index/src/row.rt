//! Rows of an index.

use ips_action::ActionKind;
use ips_text::Text;

/// A row of an index: a value of an action, and how it is found (pkg(1), "search").
#[derive(Drop)]
pub struct IndexRow {
    /// What it is found by: the value, or the last part of a path.
    pub token: Text,
    /// The index in which it stands: the name of an attribute, or `payload`.
    pub index: Text,
    /// The kind of the action.
    pub kind: ActionKind,
    /// The value.
    pub value: Text,
    /// The stem of the package.
    pub stem: Text,
}
