//! The texts of outcomes.

ghost use Rattle.std.specs.Prelude.{◌≡◌, ◌<◌, ◌++◌, ◌∷◌, [], OnOk, codes, length, slice_index};
ghost use Rattle.std.specs.Fmt.{decimal};
ghost use Rattle.std.specs.List.{flat_map};
ghost use Rattle.hex.specs.Hex.{encode_lower, lower_digits};
ghost use Rattle.ips_text.specs.Quote.{shown};
ghost use Rattle.ips_digest.specs.Name.{spelling};
ghost use Rattle.ips_refute.specs.Text.{entries, refutation_text};
ghost use Rattle.ips_report.specs.Report.{IsLate, behind_blanks, book_text, done_text, failed_text, finding_text, folder_text, line, recovered_text, report_text, tried_texts, when_text, why_text};

use crate::outcome::Outcome;
use crate::paper::Paper;
use crate::pieces::{
    book_name, damage_name, put_blanks, put_counts, put_line, put_lines, put_manifest_line,
    put_number, put_number_text, put_numbered, put_sorts, put_text, put_text_number, when_name,
    why_name,
};
use crate::unsolved::{Tried, put_stems};
use ips_accounts::Book;
use ips_conflict::Clash;
use ips_counts::{Counts, Sorts};
use ips_digest::PayloadName;
use ips_meaning::Finding;
use ips_refute::Refutation;
use ips_text::{RelPath, Text, show_path};
use ips_words::Why;
use std::alloc::{AllocError, Global};

/// Writes the text of an outcome that may come behind the first change, without memory as long as it fits into the room.
pub fn put_late(out: &mut Paper, outcome: &Outcome)
    requires { IsLate outcome.now }
    ensures text { out.new.text ≡ out.old.text ++ report_text outcome.now }
    ensures room { out.new.room ≡ out.old.room }
{
    match outcome {
        Outcome::Done {
            counts,
            steps,
            licenses,
        } => put_done(out, counts, steps, licenses.as_slice()),
        Outcome::Recovered { forward } => put_recovered(out, *forward),
        Outcome::BadJournal { line } => put_numbered(out, "bad journal line ", *line),
        Outcome::ActuatorFailed {
            after,
            words,
            status,
        } => put_actuator(out, *after, words.as_slice(), *status),
        Outcome::SpawnFault { after } => put_spawn(out, *after),
        Outcome::FolderFault { unfinished } => put_folder(out, *unfinished),
        _ => unreachable!(),
    }
}

// Writes what was changed.
fn put_done(out: &mut Paper, counts: &Counts, steps: &Sorts, licenses: &[Text])
    ensures text { out.new.text ≡ out.old.text ++ done_text counts.now steps.now licenses.now }
    ensures room { out.new.room ≡ out.old.room }
{
    put_lines(out, "license: ", licenses);
    put_counts(out, counts);
    put_sorts(out, steps);
    out.put("done\n");
}

// Writes what a recovery did.
fn put_recovered(out: &mut Paper, forward: bool)
    ensures text { out.new.text ≡ out.old.text ++ recovered_text forward }
    ensures room { out.new.room ≡ out.old.room }
{
    if forward {
        out.put("recovered: new image\n");
    } else {
        out.put("recovered: leftovers cleared\n");
    }
}

// Writes when an actuator couldn't be run.
fn put_spawn(out: &mut Paper, after: bool)
    ensures text { out.new.text ≡ out.old.text ++ line (codes "spawn fault " ++ when_text after) }
    ensures room { out.new.room ≡ out.old.room }
{
    put_line(out, "spawn fault ", when_name(after));
}

// Writes how far a change came.
fn put_folder(out: &mut Paper, unfinished: bool)
    ensures text { out.new.text ≡ out.old.text ++ folder_text unfinished }
    ensures room { out.new.room ≡ out.old.room }
{
    if unfinished {
        out.put("folder fault: unfinished\n");
    } else {
        out.put("folder fault: unchanged\n");
    }
}

// Writes the line of an actuator that failed.
fn put_actuator(out: &mut Paper, after: bool, words: &[Text], status: u8)
    ensures text { out.new.text ≡ out.old.text ++ line (failed_text after status ++ behind_blanks words.now) }
    ensures room { out.new.room ≡ out.old.room }
{
    put_failed(out, after, status);
    put_blanks(out, words);
    out.put("\n");
}

// Writes when an actuator failed and how.
fn put_failed(out: &mut Paper, after: bool, status: u8)
    ensures text { out.new.text ≡ out.old.text ++ failed_text after status }
    ensures room { out.new.room ≡ out.old.room }
{
    out.put("actuator failed ");
    out.put(when_name(after));
    put_number(out, " ", u64::from(status), ":");
}

/// Writes the text of an outcome.
pub fn put_outcome(alloc: Global, out: &mut Paper, outcome: &Outcome) -> Result<(), AllocError>
    ensures { OnOk result (out.new.text ≡ out.old.text ++ report_text outcome.now) }
{
    match outcome {
        Outcome::Usage { place, why } => put_usage(out, *place, *why),
        Outcome::Unfinished => out.put("unfinished: run fix\n"),
        Outcome::NoImage => out.put("no image\n"),
        Outcome::ImageExists => out.put("image exists\n"),
        Outcome::BadImage { file, line } => put_bad_image(alloc, out, file, *line)?,
        Outcome::OldFormat => out.put("old format: run update-format\n"),
        Outcome::NoIndex => out.put("no index\n"),
        Outcome::NoRepository => out.put("no repository\n"),
        Outcome::BadCatalog { .. } => out.put("bad catalog\n"),
        Outcome::NoMatch { pattern } => put_text(out, "no match ", pattern),
        Outcome::Ambiguous { pattern, stems } => put_ambiguous(out, pattern, stems),
        Outcome::ManifestMissing { fmri } => put_text(out, "manifest missing ", fmri),
        Outcome::BadManifest { fmri, fault } => {
            put_manifest_line(out, "bad manifest ", fmri, fault.line)
        }
        Outcome::BadDepend { fmri, line } => put_manifest_line(out, "bad depend ", fmri, *line),
        Outcome::NoSolution { stems, refutation } => {
            put_no_solution(alloc, out, stems, refutation)?
        }
        Outcome::SearchSpent { limit } => put_number(out, "search limit ", *limit, " spent\n"),
        Outcome::NothingToDo => out.put("nothing to do\n"),
        Outcome::Reserved { path } => put_path(alloc, out, "reserved ", path)?,
        Outcome::Clash(clash) => put_clash(out, clash),
        Outcome::BadAccountLine { book, line } => put_account(out, *book, *line),
        Outcome::IdTaken { id } => put_number(out, "id taken ", u64::from(*id), "\n"),
        Outcome::UnknownOwner { path, name } => put_owner(alloc, out, path, name)?,
        Outcome::LicenseNeeded { list } => put_lines(out, "license needed: ", list),
        Outcome::Unmovable { path } => put_path(alloc, out, "unmovable ", path)?,
        Outcome::PayloadMissing { name } => put_named(out, "payload missing ", name),
        Outcome::PayloadDamaged { name, found } => {
            put_found(out, "payload damaged ", name, found)
        }
        Outcome::Compressed { name, found } => put_found(out, "compressed ", name, found),
        Outcome::TooLarge { count, .. } => put_number(out, "too large: ", *count, "\n"),
        Outcome::SourceFault => out.put("source fault\n"),
        Outcome::Damaged { findings } => put_findings(alloc, out, findings)?,
        Outcome::Shown { text } => out.put(text.as_str()),
        Outcome::OutOfMemory => out.put("out of memory\n"),
        _ => put_late(out, outcome),
    }
    Ok(())
}

// Writes the line of a word at fault.
fn put_usage(out: &mut Paper, place: u64, why: Why)
    ensures { out.new.text ≡ out.old.text ++ line (codes "usage: word " ++ decimal place ++ codes ": " ++ why_text why) }
{
    put_number_text(out, "usage: word ", place, ": ", why_name(why));
}

// Writes the line of a line of an account file.
fn put_account(out: &mut Paper, book: Book, number: u64)
    ensures { out.new.text ≡ out.old.text ++ line (codes "bad account line " ++ book_text book ++ codes " " ++ decimal number) }
{
    put_text_number(out, "bad account line ", book_name(book), " ", number);
}

// Writes a line of a text and a payload's name.
fn put_named(out: &mut Paper, before: &str, name: &PayloadName)
    ensures { out.new.text ≡ out.old.text ++ line (before.now ++ spelling name.now) }
{
    out.put(before);
    put_name(out, name);
    out.put("\n");
}

// Writes the line of a file of the image's records.
fn put_bad_image(
    alloc: Global,
    out: &mut Paper,
    file: &RelPath,
    number: u64,
) -> Result<(), AllocError>
    ensures { OnOk result (out.new.text ≡ out.old.text ++ line (codes "bad image " ++ shown file.now.bytes ++ codes " line " ++ decimal number)) }
{
    let file = show_path(alloc, file)?;
    put_manifest_line(out, "bad image ", &file, number);
    Ok(())
}

// Writes the line of a path.
fn put_path(alloc: Global, out: &mut Paper, before: &str, path: &RelPath) -> Result<(), AllocError>
    ensures { OnOk result (out.new.text ≡ out.old.text ++ line (before.now ++ shown path.now.bytes)) }
{
    let path = show_path(alloc, path)?;
    put_text(out, before, &path);
    Ok(())
}

// Writes the line of an owner that isn't known.
fn put_owner(alloc: Global, out: &mut Paper, path: &RelPath, name: &Text) -> Result<(), AllocError>
    ensures { OnOk result (out.new.text ≡ out.old.text ++ line (codes "unknown owner " ++ name.now ++ codes " of " ++ shown path.now.bytes)) }
{
    let path = show_path(alloc, path)?;
    out.put("unknown owner ");
    out.put(name.as_str());
    put_text(out, " of ", &path);
    Ok(())
}

// Writes the line of a pattern and of the stems that it matches.
fn put_ambiguous(out: &mut Paper, pattern: &Text, stems: &[Text])
    ensures { out.new.text ≡ out.old.text ++ line (codes "ambiguous " ++ pattern.now ++ codes ":" ++ behind_blanks stems.now) }
{
    out.put("ambiguous ");
    out.put(pattern.as_str());
    out.put(":");
    put_blanks(out, stems);
    out.put("\n");
}

// Writes the line of a clash.
fn put_clash(out: &mut Paper, clash: &Clash)
    ensures { out.new.text ≡ out.old.text ++ line (codes "clash " ++ clash.now.key ++ codes " " ++ clash.now.first ++ codes " " ++ clash.now.second) }
{
    out.put("clash ");
    out.put(clash.key.as_str());
    out.put(" ");
    out.put(clash.first.as_str());
    put_text(out, " ", &clash.second);
}

// Writes what was tried where nothing fits, and why nothing does.
fn put_no_solution(
    alloc: Global,
    out: &mut Paper,
    stems: &[Tried],
    refutation: &Refutation,
) -> Result<(), AllocError>
    ensures { OnOk result (out.new.text ≡ out.old.text ++ line (codes "no solution") ++ tried_texts 0 stems.now ++ refutation_text (entries refutation.now.nogoods.items)) }
{
    let refuted = refutation.print(alloc)?;
    out.put("no solution\n");
    put_stems(alloc, out, stems)?;
    out.put(refuted.as_str());
    Ok(())
}

// Writes the digits of a payload's name.
#[tactic(auto, unfolding(ips_digest::specs::Name::spelling))]
fn put_name(out: &mut Paper, name: &PayloadName)
    ensures { out.new.text ≡ out.old.text ++ spelling name.now }
{
    match name {
        PayloadName::Sha1(bytes) => put_digits(out, bytes),
        PayloadName::Sha256(bytes) => put_digits(out, bytes),
    }
}

// Writes two hexadecimal digits for each byte.
#[tactic(auto, unfolding(hex::specs::Hex::encode_with))]
fn put_digits(out: &mut Paper, bytes: &[u8])
    ensures { out.new.text ≡ out.old.text ++ encode_lower bytes.now }
{
    let mut rest = bytes;
    while let [byte, after @ ..] = rest {
        out.put(digit(*byte / 16));
        out.put(digit(*byte % 16));
        rest = after;
    }
}

// A hexadecimal digit.
fn digit(number: u8) -> &'static str
    requires { number < 16 }
    ensures { result.now ≡ slice_index lower_digits number ∷ [] }
{
    match number {
        0 => "0",
        1 => "1",
        2 => "2",
        3 => "3",
        4 => "4",
        5 => "5",
        6 => "6",
        7 => "7",
        8 => "8",
        9 => "9",
        10 => "a",
        11 => "b",
        12 => "c",
        13 => "d",
        14 => "e",
        _ => "f",
    }
}

// Writes the line of a payload's name and of the digest that was found.
fn put_found(out: &mut Paper, before: &str, name: &PayloadName, found: &PayloadName)
    ensures { out.new.text ≡ out.old.text ++ line (before.now ++ spelling name.now ++ codes " found " ++ spelling found.now) }
{
    out.put(before);
    put_name(out, name);
    out.put(" found ");
    put_name(out, found);
    out.put("\n");
}

// Writes a line for each finding, and their number.
fn put_findings(alloc: Global, out: &mut Paper, findings: &[Finding]) -> Result<(), AllocError>
    ensures { OnOk result (out.new.text ≡ out.old.text ++ flat_map finding_text findings.now ++ line (codes "damaged " ++ decimal (length findings.now))) }
{
    for finding in findings {
        put_finding(alloc, out, finding)?;
    }
    put_number(out, "damaged ", findings.len() as u64, "\n");
    Ok(())
}

// Writes the line of a finding.
fn put_finding(alloc: Global, out: &mut Paper, finding: &Finding) -> Result<(), AllocError>
    ensures { OnOk result (out.new.text ≡ out.old.text ++ finding_text finding.now) }
{
    let path = show_path(alloc, &finding.path)?;
    out.put(damage_name(finding.damage));
    put_text(out, " ", &path);
    Ok(())
}
