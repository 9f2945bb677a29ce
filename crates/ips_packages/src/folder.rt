//! The packages of format 2: a record for each, in one folder.

ghost use Rattle.std.specs.Prelude.{◌≡◌, ◌↔◌, [], IsTrue, IsErr, IfOk, OnOk, map};
ghost use Rattle.std.specs.List.{AllByRecursion};
ghost use Rattle.std.specs.List.Sorted.{IsPermutation};
ghost use Rattle.ips_text.specs.Reading.{IfBad};
ghost use Rattle.ips_text.specs.declared.refusal.Or.TheVariants.{Bad};
ghost use Rattle.ips_outside.specs.Image.{is_dir};
ghost use Rattle.ips_outside.specs.Outside.{Reads};
ghost use Rattle.ips_folder.specs.Listing.{IsListing};
ghost use Rattle.ips_state.specs.State.{Installed, installed, Ascend};
ghost use Rattle.ips_state.specs.Form.{IsPackage};
ghost use Rattle.ips_state.specs.Lawful.{ArePackages};
ghost use Rattle.ips_state.specs.Records.{packages_path};
ghost use Rattle.ips_load.specs.Held.{HoldsPackage, HoldsFolder};
ghost use Rattle.ips_load.specs.Fault.{HasRecords, IsChildrenFault};
ghost use Rattle.ips_load.specs.declared.fault.StateFault.TheVariants as fault;
ghost use Rattle.ips_packages.specs.Placed.{IsPackagesFault, places};

use crate::child::load_child;
use ips_folder::{Folder, ListFault, Listing};
use ips_load::{StateFault, bad_line, path_of};
use ips_manifest::Package;
use ips_outside::{Failed, Look, Source};
use ips_text::{Or, RelPath};
use std::alloc::{AllocError, Global};

/// Adds the packages whose records stand in their folder to a list that is empty, by the bytes of their stems.
pub fn load_folder<F: Folder>(
    alloc: Global,
    folder: &mut F,
    packages: &mut Vec<Package>,
) -> Result<(), Or<StateFault>>
    requires empty { packages.old.items ≡ [] }
    ensures lawful { OnOk result (ArePackages (map installed packages.new.items)) }
    ensures found { IsTrue (F.outside.tells folder.old) → OnOk result (HoldsFolder (F.outside.state folder.old).held (map installed packages.new.items)) }
    ensures children { IsTrue (F.outside.tells folder.old) → OnOk result (HasRecords (F.outside.state folder.old).held) }
    ensures fault { IsTrue (F.outside.tells folder.old) → IfBad result (IsPackagesFault (F.outside.state folder.old).held) }
    ensures reads { Reads F.outside folder.old folder.new (result ≡ Err (Bad fault.FolderFault)) }
{
    let path = path_of(alloc, b"var/pkg/packages")?;
    match is_directory(folder, &path) {
        Ok(true) => load_directory(alloc, folder, &path, packages),
        Ok(false) => Err(bad_line(alloc, &path, 0)),
        Err(_) => Err(Or::Bad(StateFault::FolderFault)),
    }
}

// Whether a directory stands at the path.
fn is_directory<F: Source>(folder: &mut F, path: &RelPath) -> Result<bool, Failed>
    ensures found { IsTrue (F.outside.tells folder.old) → IfOk result (λ is. is ≡ is_dir ((F.outside.state folder.old).held.look path.now.bytes)) }
    ensures reads { Reads F.outside folder.old folder.new (IsErr result) }
{
    match folder.look(path) {
        Ok(Look::Dir { .. }) => Ok(true),
        Ok(_) => Ok(false),
        Err(failed) => Err(failed),
    }
}

// Adds the packages whose records stand in the directory.
fn load_directory<F: Folder>(
    alloc: Global,
    folder: &mut F,
    path: &RelPath,
    packages: &mut Vec<Package>,
) -> Result<(), Or<StateFault>>
    requires path { path.now.bytes ≡ packages_path }
    requires dir { IsTrue (F.outside.tells folder.old) → IsTrue (is_dir ((F.outside.state folder.old).held.look path.now.bytes)) }
    requires empty { packages.old.items ≡ [] }
    ensures lawful { OnOk result (ArePackages (map installed packages.new.items)) }
    ensures found { IsTrue (F.outside.tells folder.old) → OnOk result (HoldsFolder (F.outside.state folder.old).held (map installed packages.new.items)) }
    ensures children { IsTrue (F.outside.tells folder.old) → OnOk result (HasRecords (F.outside.state folder.old).held) }
    ensures fault { IsTrue (F.outside.tells folder.old) → IfBad result (IsPackagesFault (F.outside.state folder.old).held) }
    ensures reads { Reads F.outside folder.old folder.new (result ≡ Err (Bad fault.FolderFault)) }
{
    match folder.list(alloc, path) {
        Ok(listing) => load_listing(alloc, folder, path, &listing, packages),
        Err(ListFault::Failed) => Err(Or::Bad(StateFault::FolderFault)),
        Err(ListFault::OutOfMemory) => Err(Or::OutOfMemory),
    }
}

// Adds the packages whose records are the children of the directory.
fn load_listing<F: Folder>(
    alloc: Global,
    folder: &mut F,
    path: &RelPath,
    listing: &Listing,
    packages: &mut Vec<Package>,
) -> Result<(), Or<StateFault>>
    requires path { path.now.bytes ≡ packages_path }
    requires dir { IsTrue (F.outside.tells folder.old) → IsTrue (is_dir ((F.outside.state folder.old).held.look path.now.bytes)) }
    requires listing { IsTrue (F.outside.tells folder.old) → IsListing (F.outside.state folder.old).held path.now.bytes listing.now }
    requires empty { packages.old.items ≡ [] }
    ensures lawful { OnOk result (ArePackages (map installed packages.new.items)) }
    ensures found { IsTrue (F.outside.tells folder.old) → OnOk result (HoldsFolder (F.outside.state folder.old).held (map installed packages.new.items)) }
    ensures children { IsTrue (F.outside.tells folder.old) → OnOk result (HasRecords (F.outside.state folder.old).held) }
    ensures fault { IsTrue (F.outside.tells folder.old) → IfBad result (IsPackagesFault (F.outside.state folder.old).held) }
    ensures reads { Reads F.outside folder.old folder.new (result ≡ Err (Bad fault.FolderFault)) }
{
    let children = listing.names.as_slice();
    if listing.foreign || !in_order(children) {
        return Err(bad_line(alloc, path, 0));
    }
    match load_children(alloc, folder, children, packages) {
        Ok(()) => match by_stem(packages) {
            Ok(()) => Ok(()),
            Err(_) => Err(Or::OutOfMemory),
        },
        Err(fault) => Err(fault),
    }
}

// Whether the paths are in the order of their bytes, each once. A folder that tells what it holds lists them so.
fn in_order(paths: &[RelPath]) -> bool
    ensures { IsTrue result ↔ Ascend (map (λ p. p.bytes) paths.now) }
{
    paths.is_sorted_by(|a, b| a < b)
}

// Adds the packages whose records stand at these paths.
fn load_children<F: Source>(
    alloc: Global,
    folder: &mut F,
    children: &[RelPath],
    packages: &mut Vec<Package>,
) -> Result<(), Or<StateFault>>
    requires empty { packages.old.items ≡ [] }
    ensures places { OnOk result (places (map installed packages.new.items) ≡ map (λ p. p.bytes) children.now) }
    ensures lawful { OnOk result (AllByRecursion IsPackage (map installed packages.new.items)) }
    ensures found { IsTrue (F.outside.tells folder.old) → OnOk result (AllByRecursion (HoldsPackage (F.outside.state folder.old).held) (map installed packages.new.items)) }
    ensures fault { IsTrue (F.outside.tells folder.old) → IfBad result (IsChildrenFault (F.outside.state folder.old).held (map (λ p. p.bytes) children.now)) }
    ensures reads { Reads F.outside folder.old folder.new (result ≡ Err (Bad fault.FolderFault)) }
{
    for child in children {
        let package = match load_child(alloc, folder, child) {
            Ok(package) => package,
            Err(fault) => return Err(fault),
        };
        packages.push(package)?;
    }
    Ok(())
}

// Puts packages whose records stand by the bytes of their paths in the order of their stems.
fn by_stem(packages: &mut Vec<Package>) -> Result<(), AllocError>
    requires order { Ascend (places (map installed packages.old.items)) }
    ensures moved { OnOk result (IsPermutation packages.old.items packages.new.items) }
    ensures order { OnOk result (Ascend (map (λ (p : Installed). p.stem) (map installed packages.new.items))) }
{
    packages.sort_by(|a, b| a.stem.cmp(&b.stem))?;
    Ok(())
}
