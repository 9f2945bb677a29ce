//! The lines of the history as text.

ghost use Rattle.std.specs.Prelude.{◌≡◌, ◌++◌, IfOk, OnOk, string_bytes};
ghost use Rattle.ips_records.specs.Lines.{lines_text};

use ips_text::Text;
use std::alloc::{AllocError, Global};

/// The text of `history`: each line that the image keeps of a request (pkg(1), "history").
pub fn history_text(alloc: Global, lines: &[Text]) -> Result<Text, AllocError>
    ensures { IfOk result (λ text. text ≡ lines_text lines.now) }
{
    let mut out = String::new(alloc);
    push_lines(&mut out, lines)?;
    Ok(Text::from_string(out))
}

// Writes each line.
fn push_lines(out: &mut String, lines: &[Text]) -> Result<(), AllocError>
    ensures { OnOk result (string_bytes out.new ≡ string_bytes out.old ++ lines_text lines.now) }
{
    for line in lines {
        out.push_str(line.as_str())?;
        out.push_str("\n")?;
    }
    Ok(())
}
