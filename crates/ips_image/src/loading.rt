//! The whole state of an image, loaded file by file.

ghost use Rattle.std.specs.Prelude.{◌≡◌, ◌==◌, [], true, false, IsTrue, IfOk, OnOk, map};
ghost use Rattle.std.specs.List.{AllByRecursion};
ghost use Rattle.ips_text.specs.Reading.{IfBad};
ghost use Rattle.ips_text.specs.declared.refusal.Or.TheVariants.{Bad};
ghost use Rattle.ips_outside.specs.Outside.{Reads};
ghost use Rattle.ips_records.specs.Lines.{lines_text};
ghost use Rattle.ips_state.specs.State.{installed, recorded};
ghost use Rattle.ips_state.specs.Text.{head_lines, versioned_stem};
ghost use Rattle.ips_state.specs.Form.{IsPackage};
ghost use Rattle.ips_state.specs.Lawful.{ArePackages, AreVersioned, IsHead, IsLawful};
ghost use Rattle.ips_state.specs.Records.{image_path};
ghost use Rattle.ips_load.specs.HeadLines.{head_read};
ghost use Rattle.ips_load.specs.Held.{Holds, HoldsFolder, HoldsListed, HoldsManifest, HoldsPackages, Stands};
ghost use Rattle.ips_load.specs.Fault.{IsRestFault};
ghost use Rattle.ips_load.specs.declared.fault.StateFault.TheVariants as fault;
ghost use Rattle.ips_image.specs.Held.{AreLists, HoldsLists};
ghost use Rattle.ips_image.specs.Whole.{AreBehind, HoldsBehind, IsBehindFault, IsFilesFault, IsNamedFault, IsStateFault};

use crate::heading::load_heading;
use crate::index::index_of;
use crate::lists::{Lists, load_lists};
use ips_fmri::Fmri;
use ips_folder::Folder;
use ips_index::Index;
use ips_load::{Heading, StateFault, load_names, path_of};
use ips_manifest::Package;
use ips_outside::Source;
use ips_packages::{load_folder, load_manifests};
use ips_state::State;
use ips_text::Or;
use std::alloc::Global;

/// The state that the records of an image tell, in its own format. Where they don't tell one, the fault is that of the first
/// record, in the order of loading, that isn't as it should be.
pub fn load<F: Folder>(alloc: Global, folder: &mut F) -> Result<State, Or<StateFault>>
    ensures lawful { IfOk result (λ state. IsLawful (recorded state)) }
    ensures found { IsTrue (F.outside.tells folder.old) → IfOk result (λ state. Holds (F.outside.state folder.old).held (recorded state)) }
    ensures fault { IsTrue (F.outside.tells folder.old) → IfBad result (IsStateFault (F.outside.state folder.old).held) }
    ensures reads { Reads F.outside folder.old folder.new (result ≡ Err (Bad fault.FolderFault)) }
{
    match load_heading(alloc, folder) {
        Ok(heading) => load_behind(alloc, folder, heading),
        Err(fault) => Err(fault),
    }
}

// The state of an image that is this by itself.
fn load_behind<F: Folder>(
    alloc: Global,
    folder: &mut F,
    heading: Heading,
) -> Result<State, Or<StateFault>>
    requires head { IsHead (head_read heading) }
    requires stands { IsTrue (F.outside.tells folder.old) → Stands (F.outside.state folder.old).held image_path (lines_text (head_lines (head_read heading))) }
    ensures lawful { IfOk result (λ state. IsLawful (recorded state)) }
    ensures found { IsTrue (F.outside.tells folder.old) → IfOk result (λ state. Holds (F.outside.state folder.old).held (recorded state)) }
    ensures fault { IsTrue (F.outside.tells folder.old) → IfBad result (IsBehindFault (heading.format == 1) (F.outside.state folder.old).held) }
    ensures reads { Reads F.outside folder.old folder.new (result ≡ Err (Bad fault.FolderFault)) }
{
    let mut packages = Vec::new(alloc);
    match load_rest(alloc, folder, heading.format == 1, &mut packages) {
        Ok((lists, index)) => Ok(State {
            format: heading.format,
            publisher: heading.publisher,
            origins: heading.origins,
            actuator: heading.actuator,
            settings: heading.settings,
            installed: packages,
            avoid: lists.avoid,
            freeze: lists.freeze,
            mediators: lists.mediators,
            history: lists.history,
            index,
        }),
        Err(fault) => Err(fault),
    }
}

// The lists and the index; the packages are added to a list that is empty. The flag tells that the format is the first.
fn load_rest<F: Folder>(
    alloc: Global,
    folder: &mut F,
    first: bool,
    packages: &mut Vec<Package>,
) -> Result<(Lists, Option<Index>), Or<StateFault>>
    requires empty { packages.old.items ≡ [] }
    ensures packages { OnOk result (ArePackages (map installed packages.new.items)) }
    ensures lawful { IfOk result AreBehind }
    ensures held { IsTrue (F.outside.tells folder.old) → OnOk result (HoldsPackages first (F.outside.state folder.old).held (map installed packages.new.items)) }
    ensures found { IsTrue (F.outside.tells folder.old) → IfOk result (HoldsBehind (F.outside.state folder.old).held) }
    ensures fault { IsTrue (F.outside.tells folder.old) → IfBad result (IsBehindFault first (F.outside.state folder.old).held) }
    ensures reads { Reads F.outside folder.old folder.new (result ≡ Err (Bad fault.FolderFault)) }
{
    match load_files(alloc, folder, first, packages) {
        Ok(lists) => match index_of(alloc, folder) {
            Ok(index) => Ok((lists, index)),
            Err(fault) => Err(fault),
        },
        Err(fault) => Err(fault),
    }
}

// The lists; the packages are added to a list that is empty. The flag tells that the format is the first.
fn load_files<F: Folder>(
    alloc: Global,
    folder: &mut F,
    first: bool,
    packages: &mut Vec<Package>,
) -> Result<Lists, Or<StateFault>>
    requires empty { packages.old.items ≡ [] }
    ensures packages { OnOk result (ArePackages (map installed packages.new.items)) }
    ensures lists { IfOk result AreLists }
    ensures held { IsTrue (F.outside.tells folder.old) → OnOk result (HoldsPackages first (F.outside.state folder.old).held (map installed packages.new.items)) }
    ensures found { IsTrue (F.outside.tells folder.old) → IfOk result (HoldsLists (F.outside.state folder.old).held) }
    ensures fault { IsTrue (F.outside.tells folder.old) → IfBad result (IsFilesFault first (F.outside.state folder.old).held) }
    ensures reads { Reads F.outside folder.old folder.new (result ≡ Err (Bad fault.FolderFault)) }
{
    if first {
        load_first(alloc, folder, packages)
    } else {
        load_second(alloc, folder, packages)
    }
}

// The lists of format 1; the packages are added to a list that is empty. Their names come first, and their manifests last.
fn load_first<F: Folder>(
    alloc: Global,
    folder: &mut F,
    packages: &mut Vec<Package>,
) -> Result<Lists, Or<StateFault>>
    requires empty { packages.old.items ≡ [] }
    ensures packages { OnOk result (ArePackages (map installed packages.new.items)) }
    ensures lists { IfOk result AreLists }
    ensures held { IsTrue (F.outside.tells folder.old) → OnOk result (HoldsListed (F.outside.state folder.old).held (map installed packages.new.items)) }
    ensures found { IsTrue (F.outside.tells folder.old) → IfOk result (HoldsLists (F.outside.state folder.old).held) }
    ensures fault { IsTrue (F.outside.tells folder.old) → IfBad result (IsRestFault true (F.outside.state folder.old).held) }
    ensures reads { Reads F.outside folder.old folder.new (result ≡ Err (Bad fault.FolderFault)) }
{
    let path = path_of(alloc, b"var/pkg/installed")?;
    match load_names(alloc, folder, &path) {
        Ok(names) => load_named(alloc, folder, &names, packages),
        Err(fault) => Err(fault),
    }
}

// The lists, and behind them the packages of these names.
fn load_named<F: Source>(
    alloc: Global,
    folder: &mut F,
    names: &[Fmri],
    packages: &mut Vec<Package>,
) -> Result<Lists, Or<StateFault>>
    requires named { AreVersioned names.now }
    requires empty { packages.old.items ≡ [] }
    ensures names { OnOk result (map versioned_stem (map installed packages.new.items) ≡ names.now) }
    ensures packages { OnOk result (AllByRecursion IsPackage (map installed packages.new.items)) }
    ensures lists { IfOk result AreLists }
    ensures held { IsTrue (F.outside.tells folder.old) → OnOk result (AllByRecursion (HoldsManifest (F.outside.state folder.old).held) (map installed packages.new.items)) }
    ensures found { IsTrue (F.outside.tells folder.old) → IfOk result (HoldsLists (F.outside.state folder.old).held) }
    ensures fault { IsTrue (F.outside.tells folder.old) → IfBad result (IsNamedFault names.now (F.outside.state folder.old).held) }
    ensures reads { Reads F.outside folder.old folder.new (result ≡ Err (Bad fault.FolderFault)) }
{
    match load_lists(alloc, folder) {
        Ok(lists) => match load_manifests(alloc, folder, names, packages) {
            Ok(()) => Ok(lists),
            Err(fault) => Err(fault),
        },
        Err(fault) => Err(fault),
    }
}

// The lists of format 2; the packages, which come first, are added to a list that is empty.
fn load_second<F: Folder>(
    alloc: Global,
    folder: &mut F,
    packages: &mut Vec<Package>,
) -> Result<Lists, Or<StateFault>>
    requires empty { packages.old.items ≡ [] }
    ensures packages { OnOk result (ArePackages (map installed packages.new.items)) }
    ensures lists { IfOk result AreLists }
    ensures held { IsTrue (F.outside.tells folder.old) → OnOk result (HoldsFolder (F.outside.state folder.old).held (map installed packages.new.items)) }
    ensures found { IsTrue (F.outside.tells folder.old) → IfOk result (HoldsLists (F.outside.state folder.old).held) }
    ensures fault { IsTrue (F.outside.tells folder.old) → IfBad result (IsFilesFault false (F.outside.state folder.old).held) }
    ensures reads { Reads F.outside folder.old folder.new (result ≡ Err (Bad fault.FolderFault)) }
{
    match load_folder(alloc, folder, packages) {
        Ok(()) => load_lists(alloc, folder),
        Err(fault) => Err(fault),
    }
}
