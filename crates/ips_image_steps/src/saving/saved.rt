//! What is saved at a path.

use ips_aside::sides::Put;
use ips_found::Thing;
use ips_text::RelPath;

// What is saved at a path.
#[derive(Clone, Copy, Drop)]
pub(crate) enum Saved<'a> {
    // A thing that is salvaged.
    Thing(&'a Thing),
    // A file that is put beside a path.
    Beside { path: &'a RelPath, put: Put<'a> },
    // A directory on the way to what is saved below it.
    Way,
}
