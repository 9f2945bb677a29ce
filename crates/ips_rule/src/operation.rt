//! What a rule does to an action.

use ips_text::Text;

/// What a rule does to an action that it applies to.
#[derive(Drop)]
pub enum Operation {
    /// Takes the action away.
    Drop,
    /// Puts the value behind those of the key.
    Add {
        key: Text,
        value: Text,
    },
    /// Puts the value where the key has none.
    Default {
        key: Text,
        value: Text,
    },
    /// Makes the value the only one of the key.
    Set {
        key: Text,
        value: Text,
    },
    /// Takes the matched values of the key away.
    Delete {
        key: Text,
        pattern: Text,
    },
    /// Replaces each match in the values of the key by what the template writes.
    Edit {
        key: Text,
        pattern: Text,
        template: Text,
    },
}
