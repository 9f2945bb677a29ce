//! What was tried where nothing fits.

ghost use Rattle.std.specs.Prelude.{◌≡◌, ◌++◌, OnOk};
ghost use Rattle.std.specs.List.{flat_map};
ghost use Rattle.ips_report.specs.Report.{candidate_text, tried_text, tried_texts};

use crate::paper::Paper;
use ips_fmri::Version;
use ips_text::Text;
use std::alloc::{AllocError, Global};

/// A stem in reach, and what was tried of it.
#[derive(Drop)]
pub struct Tried {
    /// The stem.
    pub stem: Text,
    /// Its candidates in order; None is absence.
    pub candidates: Vec<Option<Version>>,
}

/// Writes a line for each stem, with its number from 0.
pub fn put_stems(alloc: Global, out: &mut Paper, stems: &[Tried]) -> Result<(), AllocError>
    ensures { OnOk result (out.new.text ≡ out.old.text ++ tried_texts 0 stems.now) }
{
    let mut rest = stems;
    let mut number: u64 = 0;
    while let [tried, after @ ..] = rest {
        put_tried(alloc, out, number, tried)?;
        number += 1;
        rest = after;
    }
    Ok(())
}

// Writes the line of a stem.
fn put_tried(alloc: Global, out: &mut Paper, number: u64, tried: &Tried) -> Result<(), AllocError>
    ensures { OnOk result (out.new.text ≡ out.old.text ++ tried_text number tried.now) }
{
    out.put("stem ");
    out.put_number(number);
    out.put(" ");
    out.put(tried.stem.as_str());
    put_candidates(alloc, out, &tried.candidates)?;
    out.put("\n");
    Ok(())
}

// Writes each candidate behind a blank.
fn put_candidates(
    alloc: Global,
    out: &mut Paper,
    candidates: &[Option<Version>],
) -> Result<(), AllocError>
    ensures { OnOk result (out.new.text ≡ out.old.text ++ flat_map candidate_text candidates.now) }
{
    for candidate in candidates {
        put_candidate(alloc, out, candidate)?;
    }
    Ok(())
}

// Writes a candidate behind a blank.
fn put_candidate(
    alloc: Global,
    out: &mut Paper,
    candidate: &Option<Version>,
) -> Result<(), AllocError>
    ensures { OnOk result (out.new.text ≡ out.old.text ++ candidate_text candidate.now) }
{
    match candidate {
        Some(version) => {
            let version = version.print(alloc)?;
            out.put(" ");
            out.put(version.as_str());
        }
        None => out.put(" -"),
    }
    Ok(())
}
