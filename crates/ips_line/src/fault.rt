//! Why a text is no line.

ghost use Rattle.std.specs.Prelude.{◌≡◌, ◌≤◌};
ghost use Rattle.ips_line.specs.Reading.{fault_of, opened};

use ips_text::Stop;

/// What is wrong. Places are counted in bytes, from 0.
#[derive(Clone, Copy, Drop)]
pub enum WordFault {
    /// The first byte that no line continues, or the length of the text where it ends too early.
    BadWord { place: u64 },
    /// The quote that isn't closed, where the text ends behind one and could still be continued.
    OpenQuote { place: u64 },
}

/// What is being read.
#[derive(Clone, Copy, Drop)]
pub enum Part {
    /// A word.
    Word,
    /// A value behind a quote that isn't closed, and the number of bytes that were left before the quote.
    Quote { left: usize },
}

/// The fault of a text of this length at which reading stopped.
pub fn fault(length: usize, stop: Stop<Part>) -> WordFault
    requires left { stop.left ≤ length }
    requires open { opened stop.kind ≤ length }
    ensures { result ≡ fault_of length stop.kind stop.left }
{
    match stop.kind {
        Part::Word => WordFault::BadWord {
            place: (length - stop.left) as u64,
        },
        Part::Quote { left } => WordFault::OpenQuote {
            place: (length - left) as u64,
        },
    }
}
