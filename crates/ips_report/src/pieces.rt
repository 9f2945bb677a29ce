//! Pieces of reports.

ghost use Rattle.std.specs.Prelude.{◌≡◌, ◌++◌, codes};
ghost use Rattle.std.specs.Fmt.{decimal};
ghost use Rattle.ips_report.specs.Report as report;
ghost use Rattle.ips_report.specs.Report.{behind_blanks, counts_text, line, prefixed_lines, sorts_text, three, why_text};

use crate::paper::Paper;
use ips_accounts::Book;
use ips_counts::{Counts, Sorts};
use ips_meaning::Damage;
use ips_text::Text;
use ips_words::Why;

/// Writes a number between two texts.
pub fn put_number(out: &mut Paper, before: &str, number: u64, behind: &str)
    ensures text { out.new.text ≡ out.old.text ++ before.now ++ decimal number ++ behind.now }
    ensures room { out.new.room ≡ out.old.room }
{
    out.put(before);
    out.put_number(number);
    out.put(behind);
}

/// Writes a line of a text and a number.
pub fn put_numbered(out: &mut Paper, before: &str, number: u64)
    ensures text { out.new.text ≡ out.old.text ++ line (before.now ++ decimal number) }
    ensures room { out.new.room ≡ out.old.room }
{
    out.put(before);
    out.put_number(number);
    out.put("\n");
}

/// Writes a line of two texts.
pub fn put_line(out: &mut Paper, before: &str, text: &str)
    ensures text { out.new.text ≡ out.old.text ++ line (before.now ++ text.now) }
    ensures room { out.new.room ≡ out.old.room }
{
    out.put(before);
    out.put(text);
    out.put("\n");
}

/// Writes a line of two texts.
pub fn put_text(out: &mut Paper, before: &str, text: &Text)
    ensures { out.new.text ≡ out.old.text ++ line (before.now ++ text.now) }
{
    put_line(out, before, text.as_str());
}

/// Writes a line of a text and a number, each behind a text.
pub fn put_text_number(out: &mut Paper, a: &str, text: &str, b: &str, number: u64)
    ensures { out.new.text ≡ out.old.text ++ line (a.now ++ text.now ++ b.now ++ decimal number) }
{
    out.put(a);
    out.put(text);
    put_number(out, b, number, "\n");
}

/// Writes a line of a number and a text, each behind a text.
pub fn put_number_text(out: &mut Paper, a: &str, number: u64, b: &str, text: &str)
    ensures { out.new.text ≡ out.old.text ++ line (a.now ++ decimal number ++ b.now ++ text.now) }
{
    put_number(out, a, number, b);
    out.put(text);
    out.put("\n");
}

/// Writes the line of a package and the number of a line of its manifest.
pub fn put_manifest_line(out: &mut Paper, before: &str, fmri: &Text, number: u64)
    ensures { out.new.text ≡ out.old.text ++ line (before.now ++ fmri.now ++ codes " line " ++ decimal number) }
{
    out.put(before);
    out.put(fmri.as_str());
    put_number(out, " line ", number, "\n");
}

/// Writes the words, each behind a blank.
pub fn put_blanks(out: &mut Paper, words: &[Text])
    ensures text { out.new.text ≡ out.old.text ++ behind_blanks words.now }
    ensures room { out.new.room ≡ out.old.room }
{
    for word in words {
        out.put(" ");
        out.put(word.as_str());
    }
}

/// Writes a line for each text.
pub fn put_lines(out: &mut Paper, front: &str, texts: &[Text])
    ensures text { out.new.text ≡ out.old.text ++ prefixed_lines front.now texts.now }
    ensures room { out.new.room ≡ out.old.room }
{
    for text in texts {
        out.put(front);
        out.put(text.as_str());
        out.put("\n");
    }
}

// Writes three numbers, each behind a text.
fn put_three(out: &mut Paper, a: &str, x: u64, b: &str, y: u64, c: &str, z: u64)
    ensures text { out.new.text ≡ out.old.text ++ three a.now x b.now y c.now z }
    ensures room { out.new.room ≡ out.old.room }
{
    put_number(out, a, x, b);
    out.put_number(y);
    out.put(c);
    out.put_number(z);
}

/// Writes the line of the packages that were changed.
pub fn put_counts(out: &mut Paper, counts: &Counts)
    ensures text { out.new.text ≡ out.old.text ++ counts_text counts.now }
    ensures room { out.new.room ≡ out.old.room }
{
    let Counts {
        installs,
        updates,
        removes,
    } = *counts;
    put_three(
        out,
        "install ",
        installs,
        ", update ",
        updates,
        ", remove ",
        removes,
    );
    out.put("\n");
}

/// Writes the line of the steps.
pub fn put_sorts(out: &mut Paper, sorts: &Sorts)
    ensures text { out.new.text ≡ out.old.text ++ sorts_text sorts.now }
    ensures room { out.new.room ≡ out.old.room }
{
    put_three(
        out,
        "steps: gone ",
        sorts.gone,
        ", fresh ",
        sorts.fresh,
        ", mode ",
        sorts.mode,
    );
    put_three(
        out, ", put ", sorts.put, ", link ", sorts.link, ", hard ", sorts.hard,
    );
    out.put("\n");
}

/// What is wrong with a word.
pub fn why_name(why: Why) -> &'static str
    ensures { result.now ≡ why_text why }
{
    match why {
        Why::Missing => "missing",
        Why::Unknown => "unknown",
        Why::Repeated => "repeated",
        Why::BadValue => "bad value",
        Why::Extra => "extra",
    }
}

/// An account file.
pub fn book_name(book: Book) -> &'static str
    ensures { result.now ≡ report.book_text book }
{
    match book {
        Book::Passwd => "passwd",
        Book::Shadow => "shadow",
        Book::Group => "group",
    }
}

/// What is wrong at a path.
pub fn damage_name(damage: Damage) -> &'static str
    ensures { result.now ≡ report.damage_text damage }
{
    match damage {
        Damage::Missing => "missing",
        Damage::WrongKind => "wrong kind",
        Damage::WrongContent => "wrong content",
        Damage::WrongMode => "wrong mode",
        Damage::WrongTarget => "wrong target",
        Damage::NotSame => "not same",
    }
}

/// Behind the commit, or before it.
pub fn when_name(after: bool) -> &'static str
    ensures { result.now ≡ report.when_text after }
{
    if after { "after" } else { "before" }
}
