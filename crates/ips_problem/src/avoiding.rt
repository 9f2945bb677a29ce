//! The stems that are avoided from a choice on.

ghost use Rattle.std.specs.Prelude.{◌≡◌, ◌++◌, ◌↔◌, ℕ, List, IfOk, OnOk, Contains, length, slice_get};
ghost use Rattle.std.specs.List.{list_any};
ghost use Rattle.std.specs.Option.{option_map};
ghost use Rattle.ips_depend.specs.Selection as selection;
ghost use Rattle.ips_refute.specs.Meaning.{pairs};
ghost use Rattle.ips_state.specs.Lawful.{AreStems};
ghost use Rattle.ips_state.specs.State.{Ascend};
ghost use Rattle.ips_problem.specs.Avoided.{AreAvoided, absent_stem, missed_among, missed_by};
ghost use Rattle.ips_problem.specs.Held.{posed_of};
ghost use Rattle.ips_problem.specs.Posed.{is_number, picked};
ghost use Rattle.ips_problem.specs.Recordable.{IsRecordable};
ghost use Rattle.ips_problem.specs.Seen.{puzzle_of, seen_test};
ghost use Rattle.ips_problem.specs.Taken.{IsChoice};

use crate::picked::version_of;
use crate::problem::Problem;
use crate::rows::{Numbered, Row};
use indexmap::IndexSet;
use ips_depend::reaches;
use ips_fmri::{Fmri, Version};
use ips_request::number;
use ips_text::Text;
use std::alloc::{AllocError, Global};

impl Problem {
    /// The stems that are avoided from a choice on, by their bytes: the avoided ones that the request doesn't ask for, and each
    /// absent stem that a group dependency of a selected package names, or a group-any dependency of one of whose FMRIs none is
    /// present. The choice has a candidate for each stem, by its number.
    pub fn avoid(&self, alloc: Global, chosen: &[u32]) -> Result<Vec<Text>, AllocError>
        requires { IsChoice (posed_of self.now) chosen.now }
        ensures avoided { IfOk result (λ stems. AreAvoided (posed_of self.now) chosen.now stems.items) }
        ensures lawful { IfOk result (λ stems. IsRecordable (posed_of self.now) → AreStems stems.items) }
    {
        let mut stems = copies(alloc, &self.avoid)?;
        for test in &self.tests {
            add_missed(alloc, &self.stems, &self.rows, chosen, test, &mut stems)?;
        }
        in_order(stems)
    }
}

// The same texts.
fn copies(alloc: Global, texts: &[Text]) -> Result<Vec<Text>, AllocError>
    ensures { IfOk result (λ copies. copies.items ≡ texts.now) }
{
    let mut copies = Vec::with_capacity(alloc, texts.len())?;
    for text in texts {
        copies.push(text.copy(alloc)?)?;
    }
    Ok(copies)
}

// The texts by their bytes, each once.
fn in_order(texts: Vec<Text>) -> Result<Vec<Text>, AllocError>
    ensures order { IfOk result (λ sorted. Ascend sorted.items) }
    ensures each { IfOk result (λ sorted. (text : List ℕ) → Contains sorted.items text ↔ Contains texts.items text) }
{
    let mut sorted = texts;
    sorted.sort()?;
    sorted.dedup();
    Ok(sorted)
}

// Adds the stems that the choice misses by the test.
fn add_missed(
    alloc: Global,
    stems: &IndexSet<String>,
    rows: &[Row],
    chosen: &[u32],
    test: &Numbered,
    missed: &mut Vec<Text>,
) -> Result<(), AllocError>
    requires rows { length rows.now ≡ length stems.now.keys }
    requires chosen { length chosen.now ≡ length stems.now.keys }
    ensures { OnOk result (missed.new.items ≡ missed.old.items ++ missed_by (puzzle_of stems.now.keys rows.now) chosen.now (seen_test test.now)) }
{
    if !is_chosen(chosen, test) {
        return Ok(());
    }
    add_missed_among(alloc, stems, rows, chosen, test.test.group(), missed)
}

// Adds the stems of the FMRIs that are absent in the selection that the choice makes, where none of the FMRIs is present.
fn add_missed_among(
    alloc: Global,
    stems: &IndexSet<String>,
    rows: &[Row],
    chosen: &[u32],
    fmris: &[Fmri],
    missed: &mut Vec<Text>,
) -> Result<(), AllocError>
    requires rows { length rows.now ≡ length stems.now.keys }
    requires chosen { length chosen.now ≡ length stems.now.keys }
    ensures { OnOk result (missed.new.items ≡ missed.old.items ++ missed_among (picked (puzzle_of stems.now.keys rows.now) (pairs chosen.now)) fmris.now) }
{
    if is_any_present(stems, rows, chosen, fmris) {
        return Ok(());
    }
    for fmri in fmris {
        add_absent(alloc, stems, rows, chosen, fmri, missed)?;
    }
    Ok(())
}

// Adds the FMRI's stem, where it is absent in the selection that the choice makes.
fn add_absent(
    alloc: Global,
    stems: &IndexSet<String>,
    rows: &[Row],
    chosen: &[u32],
    fmri: &Fmri,
    missed: &mut Vec<Text>,
) -> Result<(), AllocError>
    requires rows { length rows.now ≡ length stems.now.keys }
    requires chosen { length chosen.now ≡ length stems.now.keys }
    ensures { OnOk result (missed.new.items ≡ missed.old.items ++ absent_stem (picked (puzzle_of stems.now.keys rows.now) (pairs chosen.now)) fmri.now) }
{
    if picked_version(stems, rows, chosen, fmri.stem.as_str()).is_none() {
        missed.push(fmri.stem.copy(alloc)?)?;
    }
    Ok(())
}

// Whether the choice has the candidate of the test.
fn is_chosen(chosen: &[u32], test: &Numbered) -> bool
    ensures { result ≡ is_number (slice_get chosen.now test.now.stem) test.now.candidate }
{
    match chosen.get(test.stem as usize) {
        Some(number) => *number == test.candidate,
        None => false,
    }
}

// Whether one of the FMRIs is present in the selection that the choice makes.
fn is_any_present(stems: &IndexSet<String>, rows: &[Row], chosen: &[u32], fmris: &[Fmri]) -> bool
    requires rows { length rows.now ≡ length stems.now.keys }
    requires chosen { length chosen.now ≡ length stems.now.keys }
    ensures { result ≡ list_any (selection.is_present (picked (puzzle_of stems.now.keys rows.now) (pairs chosen.now))) fmris.now }
{
    for fmri in fmris {
        if is_present(stems, rows, chosen, fmri) {
            return true;
        }
    }
    false
}

// Whether the FMRI is present in the selection that the choice makes.
fn is_present(stems: &IndexSet<String>, rows: &[Row], chosen: &[u32], fmri: &Fmri) -> bool
    requires rows { length rows.now ≡ length stems.now.keys }
    requires chosen { length chosen.now ≡ length stems.now.keys }
    ensures { result ≡ selection.is_present (picked (puzzle_of stems.now.keys rows.now) (pairs chosen.now)) fmri.now }
{
    match picked_version(stems, rows, chosen, fmri.stem.as_str()) {
        Some(version) => reaches(version, &fmri.version),
        None => false,
    }
}

// The version of the stem in the selection that the choice makes.
fn picked_version<'a>(
    stems: &IndexSet<String>,
    rows: &'a [Row],
    chosen: &[u32],
    stem: &str,
) -> Option<&'a Version>
    requires rows { length rows.now ≡ length stems.now.keys }
    requires chosen { length chosen.now ≡ length stems.now.keys }
    ensures { option_map (λ v. v.now) result ≡ picked (puzzle_of stems.now.keys rows.now) (pairs chosen.now) stem.now }
{
    match number(stems, stem) {
        Some(number) => version_of(&rows[number], chosen[number]),
        None => None,
    }
}
