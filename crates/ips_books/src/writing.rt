//! Lines that are written.

ghost use Rattle.std.specs.Prelude.{◌≡◌, ◌==◌, ◌<◌, ◌++◌, ◌∷◌, [], length, map, slice_index_or, slice_set, unwrap_or, if◌then◌else◌, IfOk, OnOk, OnErr};
ghost use Rattle.std.specs.List.{join_with_byte, slice_split};
ghost use Rattle.ips_books.specs.Lines as lines_spec;
ghost use Rattle.ips_books.specs.Accounts as spec;
ghost use Rattle.ips_books.specs.Writing as writing_spec;
ghost use Rattle.ips_books.specs.Seen.{as_line};

use crate::line::{Line, field};
use std::alloc::{AllocError, Global};

/// Adds a line at the end; a line that lacked its newline gets it. Where memory runs out, the lines are as before.
pub fn add(lines: &mut Vec<Line>, text: Vec<u8>) -> Result<(), AllocError>
    ensures added { OnOk result (lines.new.items ≡ writing_spec.added text.items lines.old.items) }
    ensures same { OnErr result (lines.new.items ≡ lines.old.items) }
{
    let count = lines.len();
    lines.push(Line::new(text, true))?;
    if count > 0 {
        lines[count - 1].end();
    }
    Ok(())
}

/// Puts the next line at a place, where there is one.
pub fn replace(lines: &mut [Line], place: usize, next: Option<Line>)
    requires { place < length lines.old }
    ensures { (line : lines_spec.AccountLine) → line ≡ slice_index_or lines.old place line → lines.new ≡ slice_set lines.old place (unwrap_or next line) }
{
    if let Some(line) = next {
        lines[place] = line;
    }
}

/// The members of the group of a line.
pub fn members_of<'a>(alloc: Global, line: &'a [u8]) -> Result<Vec<&'a [u8]>, AllocError>
    ensures { IfOk result (λ members. map (λ member. member.now) members.items ≡ spec.members_of (as_line line.now)) }
{
    members_in(alloc, field(line, 3))
}

// The names of a list of members.
fn members_in(alloc: Global, list: &[u8]) -> Result<Vec<&[u8]>, AllocError>
    ensures { IfOk result (λ members. map (λ member. member.now) members.items ≡ spec.members_in list.now) }
{
    if list.is_empty() {
        return Ok(Vec::new(alloc));
    }
    parts(alloc, list)
}

// What stands between the `,` of a list.
fn parts(alloc: Global, list: &[u8]) -> Result<Vec<&[u8]>, AllocError>
    ensures { IfOk result (λ parts. map (λ part. part.now) parts.items ≡ slice_split (λ b. b == 44) list.now) }
{
    list.split(|b| *b == b',').collect(alloc)
}

/// The line of a group with these members.
pub fn with_members(alloc: Global, line: &Line, members: &[&[u8]]) -> Result<Line, AllocError>
    ensures { IfOk result (λ next. next ≡ writing_spec.with_members (map (λ member. member.now) members.now) line.now) }
{
    let members = join(alloc, b',', members)?;
    let text = line.text();
    let text = join(
        alloc,
        b':',
        &[field(text, 0), field(text, 1), field(text, 2), &members],
    )?;
    Ok(Line::new(text, line.is_ended()))
}

/// The parts with a mark between them.
pub fn join(alloc: Global, mark: u8, parts: &[&[u8]]) -> Result<Vec<u8>, AllocError>
    ensures { IfOk result (λ text. text.items ≡ join_with_byte mark (map (λ part. part.now) parts.now)) }
{
    let mut text = Vec::new(alloc);
    let mut is_behind = false;
    for part in parts {
        push_part(&mut text, is_behind, mark, part)?;
        is_behind = true;
    }
    Ok(text)
}

// Writes the part behind the text, and before it the mark where it is behind another.
fn push_part(text: &mut Vec<u8>, is_behind: bool, mark: u8, part: &[u8]) -> Result<(), AllocError>
    ensures { OnOk result (text.new.items ≡ text.old.items ++ ((if is_behind then mark ∷ [] else []) ++ part.now)) }
{
    if is_behind {
        text.push(mark)?;
    }
    text.extend_from_slice(part)
}
