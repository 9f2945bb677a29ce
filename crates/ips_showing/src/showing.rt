//! What is asked to be shown.

ghost use Rattle.std.specs.Prelude.{◌≡◌, option_map};
ghost use Rattle.ips_showing.specs.Asked.{asked, asked_by};

use ips_fmri::Pattern;
use ips_text::Text;
use ips_words::What;

/// What is asked to be shown of an image; patterns are lent.
#[derive(Clone, Copy, Drop)]
pub enum Showing<'a> {
    /// The installed packages.
    Listing,
    /// What was done.
    History,
    /// What the package that a pattern names delivers, or its manifest.
    Contents {
        pattern: &'a Pattern,
        manifest: bool,
    },
    /// What differs from the packages.
    Verify,
    /// Where a word stands in the packages.
    Search {
        pattern: &'a Text,
    },
}

impl<'a> Showing<'a> {
    /// What a command asks to be shown; None where it shows nothing of an image.
    pub fn of(what: &'a What) -> Option<Showing<'a>>
        ensures { option_map asked result ≡ asked_by what.now }
    {
        match what {
            What::List => Some(Showing::Listing),
            What::History => Some(Showing::History),
            What::Contents { pattern, manifest } => Some(Showing::Contents {
                pattern,
                manifest: *manifest,
            }),
            What::Verify => Some(Showing::Verify),
            What::Search { pattern } => Some(Showing::Search { pattern }),
            _ => None,
        }
    }
}
