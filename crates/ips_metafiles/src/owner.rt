//! Who owns what.

ghost use Rattle.std.specs.Prelude.{◌≡◌, ◌++◌, ◌∷◌, [], IfOk, OnOk, string_bytes};
ghost use Rattle.ips_metafiles.specs.Records.{owner_line, owners_text};

use ips_text::{RelPath, Text, show_path};
use std::alloc::{AllocError, Global};

/// The owner of a path.
#[derive(Drop)]
pub struct OwnerRow {
    /// The path.
    pub path: RelPath,
    /// The name of the user.
    pub owner: Text,
    /// The name of the group.
    pub group: Text,
    /// The number of the user.
    pub uid: u32,
    /// The number of the group.
    pub gid: u32,
}

/// The record of owners, `var/pkg/owners`: for each row, in order, a line of both numbers, both names and the shown path.
pub fn owners(alloc: Global, rows: &[OwnerRow]) -> Result<Vec<u8>, AllocError>
    ensures { IfOk result (λ bytes. bytes.items ≡ owners_text rows.now) }
{
    let mut out = String::new(alloc);
    for row in rows {
        push_owner(alloc, &mut out, row)?;
    }
    Ok(out.into_bytes())
}

// Writes the line of a row.
fn push_owner(alloc: Global, out: &mut String, row: &OwnerRow) -> Result<(), AllocError>
    ensures { OnOk result (string_bytes out.new ≡ string_bytes out.old ++ owner_line row.now ++ 10 ∷ []) }
{
    write!(out, "{} {}", row.uid, row.gid)?;
    push_word(out, &row.owner)?;
    push_word(out, &row.group)?;
    let path = show_path(alloc, &row.path)?;
    push_word(out, &path)?;
    out.push_str("\n")?;
    Ok(())
}

// Writes a blank and the word.
fn push_word(out: &mut String, word: &Text) -> Result<(), AllocError>
    ensures { OnOk result (string_bytes out.new ≡ string_bytes out.old ++ 32 ∷ word.now) }
{
    out.push_str(" ")?;
    out.push_str(word.as_str())
}
