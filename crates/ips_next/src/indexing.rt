//! The index of the chosen packages.

ghost use Rattle.std.specs.Prelude.{◌≡◌, false, List, map, IfOk, IfSome, OnOk};
ghost use Rattle.ips_fmri.specs.Name.{IsStem};
ghost use Rattle.ips_index.specs.Scan.{IsPut};
ghost use Rattle.ips_index.specs.Rows.{scanned};
ghost use Rattle.ips_index.specs.Text.{AreIndexRows};
ghost use Rattle.ips_state.specs.Lawful.{ArePackages};
ghost use Rattle.ips_state.specs.State.{installed};
ghost use Rattle.ips_manifest.specs.declared.line.Line as declared;
ghost use Rattle.ips_next.specs.Next as next;
ghost use Rattle.ips_next.specs.Next.{IsIndexOf, IsIndexed, scanned_of};

use ips_action::Action;
use ips_index::Index;
use ips_manifest::{Line, Package};
use ips_words::What;
use std::alloc::{AllocError, Global};

/// The index of the packages, where one is due.
pub fn indexed(
    alloc: Global,
    what: &What,
    has: bool,
    packages: &[Package],
) -> Result<Option<Index>, AllocError>
    requires { ArePackages (map installed packages.now) }
    ensures indexed { IfOk result (IsIndexed (next.is_index_due what.now has) (map installed packages.now)) }
    ensures rows { IfOk result (λ index. IfSome index AreIndexRows) }
{
    if !is_due(what, has) {
        return Ok(None);
    }
    let index = index_of(alloc, packages)?;
    Ok(Some(index))
}

// Whether an index is due.
fn is_due(what: &What, has: bool) -> bool
    ensures { result ≡ next.is_index_due what.now has }
{
    match what {
        What::RebuildIndex => true,
        _ => has,
    }
}

// The index of the packages, which are put in from the last to the first.
fn index_of(alloc: Global, packages: &[Package]) -> Result<Index, AllocError>
    requires { ArePackages (map installed packages.now) }
    ensures { IfOk result (IsIndexOf (map installed packages.now)) }
{
    let mut index = Index::new(alloc);
    let mut left = packages;
    while let Some((package, others)) = left.split_last() {
        put(alloc, &mut index, package)?;
        left = others;
    }
    Ok(index)
}

// Puts the rows of a package in.
fn put(alloc: Global, index: &mut Index, single: &Package) -> Result<(), AllocError>
    requires { IsStem false single.now.stem }
    ensures put { OnOk result (IsPut (scanned_of (installed single.now)).stem (scanned (scanned_of (installed single.now)).stem (scanned_of (installed single.now)).actions) index.old index.new) }
    ensures rows { OnOk result (AreIndexRows index.new) }
{
    let actions = actions_of(alloc, &single.manifest.lines)?;
    index.put(alloc, single.stem.as_str(), &actions)
}

// The actions of the lines.
fn actions_of(alloc: Global, lines: &[Line]) -> Result<Vec<Action>, AllocError>
    ensures { IfOk result (λ actions. actions.items ≡ map (λ (l : declared.Line). l.action) lines.now) }
{
    let mut actions = Vec::with_capacity(alloc, lines.len())?;
    for line in lines {
        actions.push(line.action.copy(alloc)?)?;
    }
    Ok(actions)
}
