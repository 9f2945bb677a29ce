//! What there is to try of the stems of a puzzle.

ghost use Rattle.std.specs.Prelude.{◌≡◌, ◌<◌, IfOk, Some, length, map, slice_get};
ghost use Rattle.std.specs.Option.{option_map};
ghost use Rattle.ips_problem.specs.Held.{posed_of};
ghost use Rattle.ips_next.specs.Tried.{offered_in, seen_tried, tried_rows};

use ips_fmri::Version;
use ips_problem::Problem;
use ips_refute::Puzzle;
use ips_report::Tried;
use ips_text::Text;
use std::alloc::{AllocError, Global};

/// What there is to try of the stems of a problem.
pub fn tried_in(alloc: Global, problem: &Problem) -> Result<Vec<Tried>, AllocError>
    ensures { IfOk result (λ tried. map seen_tried tried.items ≡ tried_rows (posed_of problem.now).stems (posed_of problem.now).rows) }
{
    let mut stems = Vec::new(alloc);
    for stem in 0..problem.stems() {
        let tried = tried_of(alloc, problem, stem)?;
        stems.push(tried)?;
    }
    Ok(stems)
}

// What there is to try of the stem with this number.
fn tried_of(alloc: Global, problem: &Problem, stem: u32) -> Result<Tried, AllocError>
    requires { stem < length (posed_of problem.now).stems }
    ensures stem { IfOk result (λ tried. slice_get (posed_of problem.now).stems stem ≡ Some tried.stem) }
    ensures candidates { IfOk result (λ tried. tried.candidates.items ≡ offered_in (slice_get (posed_of problem.now).rows stem)) }
{
    let name = Text::new(alloc, problem.stem(stem))?;
    let mut candidates = Vec::new(alloc);
    for candidate in 0..problem.candidates(stem) {
        let version = copy_version(alloc, problem.version(stem, candidate))?;
        candidates.push(version)?;
    }
    Ok(Tried {
        stem: name,
        candidates,
    })
}

// A copy of a version, where there is one.
fn copy_version(alloc: Global, version: Option<&Version>) -> Result<Option<Version>, AllocError>
    ensures { IfOk result (λ copy. copy ≡ option_map (λ v. v.now) version.entry) }
{
    match version {
        Some(version) => Ok(Some(version.copy(alloc)?)),
        None => Ok(None),
    }
}
