//! Why a line is no action.

use ips_text::Text;

/// What is wrong. Places are counted in bytes of the line, from 0.
#[derive(Debug, Drop)]
pub enum ActionFault {
    /// No action has the name that begins here.
    UnknownAction { place: u64 },
    /// The first byte with which no line goes on, or the end, where the line stops too early; or a payload word begins here, and the action has no
    /// payload.
    BadWord { place: u64 },
    /// The quote isn't closed.
    OpenQuote { place: u64 },
    /// The attribute of this key has to stand, or the payload, and doesn't.
    MissingKey { name: Text },
    /// The attribute of this key, or the payload, stands too often, or has a value that it can't have.
    BadValue { name: Text },
}
