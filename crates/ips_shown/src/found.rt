//! Rows of the index as text.

ghost use Rattle.std.specs.Prelude.{◌≡◌, ◌++◌, ◌∷◌, [], IfOk, OnOk, map, string_bytes};
ghost use Rattle.ips_index.specs.Rows.{row_seen};
ghost use Rattle.ips_shown.specs.Shown as spec;
ghost use Rattle.ips_shown.specs.Shown.{found_line};

use ips_index::IndexRow;
use ips_text::Text;
use std::alloc::{AllocError, Global};

/// The text of `search`: a line for each row, with its index, the kind of its action, the stem of its package and its value (pkg(1), "search").
pub fn found_text(alloc: Global, rows: &[IndexRow]) -> Result<Text, AllocError>
    ensures { IfOk result (λ text. text ≡ spec.found_text (map row_seen rows.now)) }
{
    let mut out = String::new(alloc);
    push_rows(&mut out, rows)?;
    Ok(Text::from_string(out))
}

// Writes the line of each row.
fn push_rows(out: &mut String, rows: &[IndexRow]) -> Result<(), AllocError>
    ensures { OnOk result (string_bytes out.new ≡ string_bytes out.old ++ spec.found_text (map row_seen rows.now)) }
{
    for row in rows {
        push_row(out, row)?;
    }
    Ok(())
}

// Writes the line of a row.
fn push_row(out: &mut String, row: &IndexRow) -> Result<(), AllocError>
    ensures { OnOk result (string_bytes out.new ≡ string_bytes out.old ++ found_line (row_seen row.now)) }
{
    push_word(out, row.index.as_str())?;
    push_word(out, row.kind.name())?;
    push_word(out, row.stem.as_str())?;
    out.push_str(row.value.as_str())?;
    out.push_str("\n")?;
    Ok(())
}

// Writes a word and a blank.
fn push_word(out: &mut String, word: &str) -> Result<(), AllocError>
    ensures { OnOk result (string_bytes out.new ≡ string_bytes out.old ++ word.now ++ 32 ∷ []) }
{
    out.push_str(word)?;
    out.push_str(" ")
}
