//! The text of an index.

ghost use Rattle.std.specs.Prelude.{◌≡◌, ◌++◌, ◌∷◌, [], IfOk, OnOk, string_bytes};
ghost use Rattle.ips_text.specs.Quote.{quoted};
ghost use Rattle.ips_index.specs.Rows.{row_line, index_text};

use crate::entry::Entry;
use ips_text::quote;
use std::alloc::{AllocError, Global};
use std::collections::BTreeSet;

/// The first line, and a line for each row.
pub(crate) fn print(alloc: Global, rows: &BTreeSet<Entry>) -> Result<Vec<u8>, AllocError>
    ensures { IfOk result (λ bytes. bytes.items ≡ index_text rows.now.keys) }
{
    let mut out = String::new(alloc);
    out.push_str("index 1\n")?;
    for row in rows {
        push_row(alloc, &mut out, row)?;
    }
    Ok(out.into_bytes())
}

fn push_row(alloc: Global, out: &mut String, row: &Entry) -> Result<(), AllocError>
    ensures { OnOk result (string_bytes out.new ≡ string_bytes out.old ++ row_line row.now ++ 10 ∷ []) }
{
    push_quoted(alloc, out, row.token())?;
    push_word(out, row.index())?;
    push_word(out, row.kind_name())?;
    out.push_str(" ")?;
    push_quoted(alloc, out, row.value())?;
    push_word(out, row.stem())?;
    out.push_str("\n")?;
    Ok(())
}

// Writes a blank and the word.
fn push_word(out: &mut String, word: &str) -> Result<(), AllocError>
    ensures { OnOk result (string_bytes out.new ≡ string_bytes out.old ++ 32 ∷ word.now) }
{
    out.push_str(" ")?;
    out.push_str(word)
}

// Writes the quoted form.
fn push_quoted(alloc: Global, out: &mut String, text: &str) -> Result<(), AllocError>
    ensures { OnOk result (string_bytes out.new ≡ string_bytes out.old ++ quoted text.now) }
{
    let form = quote(alloc, text.as_bytes())?;
    out.push_str(form.as_str())
}
