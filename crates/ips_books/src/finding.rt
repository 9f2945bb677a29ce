//! Look-ups in the lines of a file.

ghost use Rattle.std.specs.Prelude.{◌≡◌};
ghost use Rattle.std.specs.List.{position};
ghost use Rattle.ips_books.specs.Accounts as spec;
ghost use Rattle.ips_books.specs.Writing as writing_spec;
ghost use Rattle.ips_books.specs.Seen.{as_line};

use crate::line::{Line, is_kept, is_of, number_of};

/// The place of the first line of a name.
pub fn place_of(lines: &[Line], name: &[u8]) -> Option<usize>
    ensures { result ≡ position (spec.is_of name.now) lines.now }
{
    lines.iter().position(|line| is_of(line.text(), name))
}

/// Whether the line has this number, and speaks of another name.
pub fn is_of_other(line: &[u8], name: &[u8], id: u32) -> bool
    ensures { result ≡ writing_spec.is_of_other name.now id (as_line line.now) }
{
    !is_kept(line) && number_of(line) == Some(id) && !is_of(line, name)
}
