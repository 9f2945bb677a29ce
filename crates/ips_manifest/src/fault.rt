//! Why a text is no manifest.

use ips_action::ActionFault;

/// What is wrong with a line.
#[derive(Debug, Drop)]
pub enum LineFault {
    /// It isn't UTF-8.
    NotText,
    /// It is no action.
    Action(ActionFault),
}

/// What is wrong with a manifest.
#[derive(Debug, Drop)]
pub struct ManifestFault {
    /// The number of the line, from 1: of the first physical line that isn't UTF-8, and else of the first of the physical lines
    /// that make up the line that is no action.
    pub line: u64,
    /// What is wrong there.
    pub fault: LineFault,
}
