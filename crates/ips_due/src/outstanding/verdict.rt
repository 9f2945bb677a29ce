//! What is said of a path, and by which part of what is due.

ghost use Rattle.std.specs.Prelude.{◌≡◌};
ghost use Rattle.std.specs.Option.{option_map};
ghost use Rattle.ips_due.specs.outstanding.Verdicts as spec;

use ips_change::survey::Said;
use ips_text::RelPath;

/// What is said of a path, and by which part of what is due.
#[derive(Clone, Copy, Drop)]
pub enum Verdict {
    /// The account file of this number is laid.
    Account(usize),
    /// The record of this number is laid.
    Record(usize),
    /// A folder is made.
    Folder,
    /// What stands there is taken away.
    Gone,
}

/// A path that account files and records name: one of which they speak, or one above such.
#[derive(Drop)]
pub struct Named {
    /// The path.
    pub path: RelPath,
    /// What is said of it; nothing of one that is only above such.
    pub verdict: Option<Verdict>,
}

/// What is said of a path, without what is laid.
pub fn said_of(verdict: Option<Verdict>) -> Option<Said>
    ensures { result ≡ option_map spec.said_of verdict }
{
    match verdict {
        Some(Verdict::Gone) => Some(Said::Takes),
        Some(_) => Some(Said::Lays),
        None => None,
    }
}
