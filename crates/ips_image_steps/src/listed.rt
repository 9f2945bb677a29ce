//! Whether steps can be listed and staged.

ghost use Rattle.std.specs.Prelude.{◌↔◌, IsTrue};
ghost use Rattle.std.specs.List.{AllByRecursion};
ghost use Rattle.ips_contents.specs.Contents.{IsSeen};
ghost use Rattle.ips_image_steps.specs.Answers.{CanBeListed};

use ips_emit::{Emitted, count_puts, is_journal, is_private};
use ips_journal::Staged;

/// Whether a journal can list the steps, there is one content for each that puts a file, and none is taken from the updater's own names.
pub fn can_be_listed(emitted: &Emitted) -> bool
    ensures { IsTrue result ↔ CanBeListed emitted.now }
{
    is_journal(&emitted.steps)
        && count_puts(&emitted.steps) == emitted.staged.len() as u64
        && are_seen(&emitted.staged)
}

// Whether no content is taken from the updater's own names.
fn are_seen(staged: &[Staged]) -> bool
    ensures { IsTrue result ↔ AllByRecursion IsSeen staged.now }
{
    for i in 0..staged.len() {
        if !is_seen(&staged[i]) {
            return false;
        }
    }
    true
}

// Whether the content isn't taken from one of the updater's own names.
fn is_seen(content: &Staged) -> bool
    ensures { IsTrue result ↔ IsSeen content.now }
{
    match content {
        Staged::Standing(from) => !is_private(from.bytes()),
        _ => true,
    }
}
