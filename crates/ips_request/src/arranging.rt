//! The candidates of a stem, in order, out of the versions to which it may come.

ghost use Rattle.std.specs.Prelude.{◌≡◌, ◌++◌, ◌∷◌, [], not, map, filter, Some, None, IfOk, OnOk};
ghost use Rattle.ips_request.specs.Candidates.{beyond, candidates_in, present, present_or_gone};
ghost use Rattle.ips_request.specs.Reads.{is_gone_at, is_same, stands_at};

use crate::kind::Kind;
use crate::read::Read;
use crate::role::Role;
use std::alloc::{AllocError, Global};

/// The candidates of a stem in a role, by the numbers of the versions that were read: absence is None. `coming` has the numbers
/// of those to which the stem may come, newest first.
pub fn arranged(
    alloc: Global,
    role: Role,
    kind: Kind,
    reads: &[Read],
    coming: &[usize],
) -> Result<Vec<Option<usize>>, AllocError>
    ensures { IfOk result (λ out. out.items ≡ candidates_in role kind (is_gone_at reads.now) (stands_at reads.now) coming.now) }
{
    let mut out = Vec::new(alloc);
    match role {
        Role::Refused => {}
        Role::Gone => add_absence(&mut out)?,
        Role::Asked => add_present(&mut out, reads, coming)?,
        Role::Renewed => add_present_or_gone(&mut out, reads, coming)?,
        Role::Standing => add_standing(alloc, &mut out, kind, reads, coming)?,
        Role::Free => {
            add_absence(&mut out)?;
            add_present(&mut out, reads, coming)?;
        }
    }
    Ok(out)
}

// Adds absence.
fn add_absence(out: &mut Vec<Option<usize>>) -> Result<(), AllocError>
    ensures { OnOk result (out.new.items ≡ out.old.items ++ None ∷ []) }
{
    out.push(None)?;
    Ok(())
}

// Adds those that aren't gone.
fn add_present(
    out: &mut Vec<Option<usize>>,
    reads: &[Read],
    numbers: &[usize],
) -> Result<(), AllocError>
    ensures { OnOk result (out.new.items ≡ out.old.items ++ present (is_gone_at reads.now) numbers.now) }
{
    for number in numbers {
        if !is_gone(reads, *number) {
            out.push(Some(*number))?;
        }
    }
    Ok(())
}

// Adds those that aren't gone, with absence at the place of the first that is.
fn add_present_or_gone(
    out: &mut Vec<Option<usize>>,
    reads: &[Read],
    numbers: &[usize],
) -> Result<(), AllocError>
    ensures { OnOk result (out.new.items ≡ out.old.items ++ present_or_gone (is_gone_at reads.now) numbers.now) }
{
    let mut rest = numbers;
    while let Some((number, others)) = rest.split_first() {
        if is_gone(reads, *number) {
            add_absence(out)?;
            add_present(out, reads, others)?;
            return Ok(());
        }
        out.push(Some(*number))?;
        rest = others;
    }
    Ok(())
}

// Adds the one that stands, and those beyond it.
fn add_standing(
    alloc: Global,
    out: &mut Vec<Option<usize>>,
    kind: Kind,
    reads: &[Read],
    numbers: &[usize],
) -> Result<(), AllocError>
    ensures { OnOk result (out.new.items ≡ out.old.items ++ candidates_in Role.Standing kind (is_gone_at reads.now) (stands_at reads.now) numbers.now) }
{
    let standing = those(alloc, reads, numbers, true)?;
    let others = those(alloc, reads, numbers, false)?;
    add_all(out, standing.as_slice())?;
    add_beyond(out, kind, reads, others.as_slice())?;
    Ok(())
}

// Adds those beyond the one that stands.
fn add_beyond(
    out: &mut Vec<Option<usize>>,
    kind: Kind,
    reads: &[Read],
    numbers: &[usize],
) -> Result<(), AllocError>
    ensures { OnOk result (out.new.items ≡ out.old.items ++ beyond kind (is_gone_at reads.now) numbers.now) }
{
    match kind {
        Kind::Install => add_present(out, reads, numbers)?,
        Kind::Update => add_present_or_gone(out, reads, numbers)?,
        Kind::Uninstall | Kind::Keep => {}
    }
    Ok(())
}

// Adds all of them.
fn add_all(out: &mut Vec<Option<usize>>, numbers: &[usize]) -> Result<(), AllocError>
    ensures { OnOk result (out.new.items ≡ out.old.items ++ map (λ x. Some x) numbers.now) }
{
    for number in numbers {
        out.push(Some(*number))?;
    }
    Ok(())
}

// Those of the numbers whose version stands, or those whose version doesn't.
fn those(
    alloc: Global,
    reads: &[Read],
    numbers: &[usize],
    standing: bool,
) -> Result<Vec<usize>, AllocError>
    ensures { IfOk result (λ v. v.items ≡ filter (λ x. is_same (stands_at reads.now x) standing) numbers.now) }
{
    let mut out = Vec::new(alloc);
    for number in numbers {
        if stands(reads, *number) == standing {
            out.push(*number)?;
        }
    }
    Ok(out)
}

// Whether the version that was read with this number is obsolete.
fn is_gone(reads: &[Read], number: usize) -> bool
    ensures { result ≡ is_gone_at reads.now number }
{
    match reads.get(number) {
        Some(read) => read.gone,
        None => false,
    }
}

// Whether the version that was read with this number is installed.
fn stands(reads: &[Read], number: usize) -> bool
    ensures { result ≡ stands_at reads.now number }
{
    match reads.get(number) {
        Some(read) => read.stands,
        None => false,
    }
}
