//! Pieces of reports, each written behind what was told before, as long as that was told whole.

ghost use Rattle.std.specs.Prelude.{◌∷◌, ◌++◌, [], codes};
ghost use Rattle.std.specs.Fmt.{decimal};
ghost use Rattle.ips_report.specs.Report.{behind_blanks, counts_text, line, prefixed_lines, sorts_text, three};
ghost use Rattle.ips_tell.specs.telling.Finishing.{Adds};

use ips_counts::{Counts, Sorts};
use ips_files::tell;
use ips_outside::Sink;
use ips_text::Text;
use itoa::Buffer;

/// Writes a piece, and answers whether all was told.
pub(crate) fn put<O: Sink>(out: &mut O, told: bool, piece: &[u8]) -> bool
    ensures { Adds O.taking piece.now out.old told out.new result }
{
    if told { tell(out, piece) } else { false }
}

/// Writes a number in decimal digits.
pub(crate) fn put_number<O: Sink>(out: &mut O, told: bool, number: u64) -> bool
    ensures { Adds O.taking (decimal number) out.old told out.new result }
{
    let mut buffer = Buffer::new();
    put(out, told, buffer.format(number).as_bytes())
}

/// Writes a text and a number.
pub(crate) fn put_numbered<O: Sink>(out: &mut O, told: bool, text: &[u8], number: u64) -> bool
    ensures { Adds O.taking (text.now ++ decimal number) out.old told out.new result }
{
    let told = put(out, told, text);
    put_number(out, told, number)
}

/// Writes the words, each behind a blank.
pub(crate) fn put_words<O: Sink>(out: &mut O, told: bool, words: &[Text]) -> bool
    ensures { Adds O.taking (behind_blanks words.now) out.old told out.new result }
{
    let mut all = told;
    for word in words {
        all = put_word(out, all, word);
    }
    all
}

// Writes a word behind a blank.
fn put_word<O: Sink>(out: &mut O, told: bool, word: &Text) -> bool
    ensures { Adds O.taking (32 ∷ word.now) out.old told out.new result }
{
    let told = put(out, told, b" ");
    put(out, told, word.as_str().as_bytes())
}

/// Writes a line for each text, which begins so.
pub(crate) fn put_lines<O: Sink>(out: &mut O, told: bool, front: &[u8], texts: &[Text]) -> bool
    ensures { Adds O.taking (prefixed_lines front.now texts.now) out.old told out.new result }
{
    let mut all = told;
    for text in texts {
        all = put_line(out, all, front, text);
    }
    all
}

// Writes a line of two texts.
fn put_line<O: Sink>(out: &mut O, told: bool, front: &[u8], text: &Text) -> bool
    ensures { Adds O.taking (line (front.now ++ text.now)) out.old told out.new result }
{
    let told = put(out, told, front);
    let told = put(out, told, text.as_str().as_bytes());
    put(out, told, b"\n")
}

// Writes three numbers, each behind a text.
fn put_three<O: Sink>(
    out: &mut O,
    told: bool,
    a: &[u8],
    x: u64,
    b: &[u8],
    y: u64,
    c: &[u8],
    z: u64,
) -> bool
    ensures { Adds O.taking (three a.now x b.now y c.now z) out.old told out.new result }
{
    let told = put_numbered(out, told, a, x);
    let told = put_numbered(out, told, b, y);
    put_numbered(out, told, c, z)
}

/// Writes how many packages were installed, updated and removed.
pub(crate) fn put_counts<O: Sink>(out: &mut O, told: bool, counts: &Counts) -> bool
    ensures { Adds O.taking (counts_text counts.now) out.old told out.new result }
{
    let told = put_three(
        out,
        told,
        b"install ",
        counts.installs,
        b", update ",
        counts.updates,
        b", remove ",
        counts.removes,
    );
    put(out, told, b"\n")
}

/// Writes the steps, by their sorts.
pub(crate) fn put_sorts<O: Sink>(out: &mut O, told: bool, sorts: &Sorts) -> bool
    ensures { Adds O.taking (sorts_text sorts.now) out.old told out.new result }
{
    let told = put_three(
        out,
        told,
        b"steps: gone ",
        sorts.gone,
        b", fresh ",
        sorts.fresh,
        b", mode ",
        sorts.mode,
    );
    let told = put_three(
        out, told, b", put ", sorts.put, b", link ", sorts.link, b", hard ", sorts.hard,
    );
    put(out, told, b"\n")
}
