//! The lines of the file `image`, one by one.

ghost use Rattle.std.specs.Prelude.{◌≡◌};
ghost use Rattle.ips_load.specs.HeadLines as head;

use crate::head_words::{
    format, named_origin, named_publisher, set_actuator, set_facet, set_variant,
};
use ips_records::Listing;
use ips_state::Origin;
use ips_text::Text;
use std::alloc::{AllocError, Global};

/// What a line of the file `image` says.
#[derive(Drop)]
pub enum HeadLine {
    /// The format of the records.
    Format(u8),
    /// The publisher.
    Publisher(Text),
    /// An origin.
    Origin(Origin),
    /// The actuator word.
    Actuator(Text),
    /// A variant's name and value.
    Variant(Text, Text),
    /// A facet's pattern, on or off.
    Facet(Text, bool),
}

/// The lines of the file `image`, as far as one line tells by itself and by the one before it.
pub struct HeadLines;

impl Listing for HeadLines {
    ghost use Rattle.ips_load.specs.HeadLines.{head_line_text, IsHeadLine, FollowsLine};

    type Item = HeadLine;

    ghost line = { head_line_text };

    ghost fits = { IsHeadLine };

    ghost follows = { FollowsLine };

    fn read(alloc: Global, bytes: &[u8]) -> Result<Option<HeadLine>, AllocError> {
        if let Some(n) = format(bytes) {
            return Ok(Some(HeadLine::Format(n)));
        }
        if let Some(name) = named_publisher(alloc, bytes)? {
            return Ok(Some(HeadLine::Publisher(name)));
        }
        if let Some(origin) = named_origin(alloc, bytes)? {
            return Ok(Some(HeadLine::Origin(origin)));
        }
        if let Some(word) = set_actuator(alloc, bytes)? {
            return Ok(Some(HeadLine::Actuator(word)));
        }
        if let Some((name, value)) = set_variant(alloc, bytes)? {
            return Ok(Some(HeadLine::Variant(name, value)));
        }
        if let Some((pattern, on)) = set_facet(alloc, bytes)? {
            return Ok(Some(HeadLine::Facet(pattern, on)));
        }
        Ok(None)
    }

    fn may_follow(earlier: &HeadLine, later: &HeadLine) -> bool {
        match (earlier, later) {
            (HeadLine::Origin(_), HeadLine::Origin(_)) => true,
            (HeadLine::Variant(name, _), HeadLine::Variant(next, _)) => name < next,
            (HeadLine::Facet(pattern, _), HeadLine::Facet(next, _)) => pattern < next,
            _ => rank(earlier) < rank(later),
        }
    }
}

// The place of a kind of line among the others.
fn rank(line: &HeadLine) -> u8
    ensures { result ≡ head.rank line.now }
{
    match line {
        HeadLine::Format(_) => 0,
        HeadLine::Publisher(_) => 1,
        HeadLine::Origin(_) => 2,
        HeadLine::Actuator(_) => 3,
        HeadLine::Variant(_, _) => 4,
        HeadLine::Facet(_, _) => 5,
    }
}
