//! The packages that a choice selects.

ghost use Rattle.std.specs.Prelude.{◌≡◌, IfOk, Some, length, map};
ghost use Rattle.std.specs.Option.{option_map};
ghost use Rattle.ips_state.specs.Lawful.{ArePackages};
ghost use Rattle.ips_state.specs.State.{installed};
ghost use Rattle.ips_problem.specs.Held.{posed_of};
ghost use Rattle.ips_problem.specs.Recordable.{IsRecordable};
ghost use Rattle.ips_problem.specs.Seen.{puzzle_of, seen_read, seen_row};
ghost use Rattle.ips_problem.specs.Taken.{AreTaken, IsChoice, offer_at, package_of, selected_below};

use crate::problem::Problem;
use crate::rows::Row;
use ips_manifest::Package;
use ips_request::Read;
use ips_text::Text;
use std::alloc::{AllocError, Global};

impl Problem {
    /// The packages that a choice selects, by the bytes of their stems. The choice has a candidate for each stem, by its number:
    /// a stem whose candidate isn't absence is a package of that version and manifest.
    pub fn take(&self, alloc: Global, chosen: &[u32]) -> Result<Vec<Package>, AllocError>
        requires { IsChoice (posed_of self.now) chosen.now }
        ensures taken { IfOk result (λ packages. AreTaken (posed_of self.now) chosen.now (map installed packages.items)) }
        ensures lawful { IfOk result (λ packages. IsRecordable (posed_of self.now) → ArePackages (map installed packages.items)) }
    {
        let mut packages = selected(alloc, self.stems.as_slice(), &self.rows, chosen)?;
        packages.sort_by(|a, b| a.stem.cmp(&b.stem))?;
        Ok(packages)
    }
}

// The packages that a choice selects, in the order of their stems' numbers.
fn selected(
    alloc: Global,
    stems: &[String],
    rows: &[Row],
    chosen: &[u32],
) -> Result<Vec<Package>, AllocError>
    requires rows { length rows.now ≡ length stems.now }
    requires chosen { length chosen.now ≡ length stems.now }
    ensures { IfOk result (λ packages. map installed packages.items ≡ selected_below (puzzle_of stems.now rows.now) chosen.now (length stems.now)) }
{
    let mut packages = Vec::new(alloc);
    for (number, stem) in stems.iter().enumerate() {
        if let Some(package) = selected_at(alloc, stem.as_str(), &rows[number], chosen[number])? {
            packages.push(package)?;
        }
    }
    Ok(packages)
}

// The package of a stem's candidate with this number; None where that is absence.
fn selected_at(
    alloc: Global,
    stem: &str,
    row: &Row,
    candidate: u32,
) -> Result<Option<Package>, AllocError>
    ensures { IfOk result (λ p. option_map installed p ≡ package_of (Some stem.now) (offer_at (Some (seen_row row.now)) (Some candidate))) }
{
    let Some(read) = read_of(row, candidate) else {
        return Ok(None);
    };
    Ok(Some(make_package(alloc, stem, read)?))
}

// The package of a stem that was read so.
fn make_package(alloc: Global, stem: &str, read: &Read) -> Result<Package, AllocError>
    ensures { IfOk result (λ p. Some (installed p) ≡ package_of (Some stem.now) (Some (seen_read read.now))) }
{
    Ok(Package {
        stem: Text::new(alloc, stem)?,
        version: read.version.copy(alloc)?,
        manifest: read.manifest.copy(alloc)?,
    })
}

// What was read of the candidate with this number; None where that is absence.
fn read_of(row: &Row, candidate: u32) -> Option<&Read>
    ensures { option_map (λ read. seen_read read.now) result ≡ offer_at (Some (seen_row row.now)) (Some candidate) }
{
    let number = (*row.candidates.get(candidate as usize)?)?;
    row.reads.get(number)
}
