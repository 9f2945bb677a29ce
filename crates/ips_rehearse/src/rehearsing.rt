//! All trials.

ghost use Rattle.std.specs.Prelude.{◌≡◌, ◌⊎◌, ◌||◌, ◌<◌, ◌≤◌, ℕ, Bool, List, [], Some, None, IsTrue, IsErr, IfOk, OnOk, length, map};
ghost use Rattle.std.specs.List.{All, list_any};
ghost use Rattle.ips_text.specs.Ancestry.{covers, is_below, parent};
ghost use Rattle.ips_text.specs.Path.{IsPath};
ghost use Rattle.ips_outside.specs.Image.{Dir, is_dir, is_file};
ghost use Rattle.ips_outside.specs.Outside.{HasCause, Reads, risen};
ghost use Rattle.ips_folder.specs.Calls.{ChangesOnly};
ghost use Rattle.ips_steps.specs.Steps.{stage_name, stage_path};
ghost use Rattle.ips_steps.specs.Journal.{AllProper};
ghost use Rattle.ips_steps.specs.View.{step_of};
ghost use Rattle.ips_rehearse.specs.Asked as asked;
ghost use Rattle.ips_rehearse.specs.Plans.{is_made, is_passed, is_worked, is_worked_first};
ghost use Rattle.ips_rehearse.specs.Tried.{try_name, in_modes, in_try, IsFileOf, IsGone, IsEmptyDir, IsFailure, IsLinkTo, Calls, Passed, Stood};
ghost use Rattle.ips_rehearse.specs.Rehearsed.{HasNamed, HasTried, HasTriedModes, IsRehearsed};
ghost use Rattle.ips_rehearse.specs.Going.{IsFound};

use crate::asking::{
    Asked, add_above, gather, gather_first, longest_name, longest_target, makes_name, modes_of,
};
use crate::places::{go, go_in, room};
use crate::sets::add;
use crate::standing::{add_going, add_standing};
use crate::trying::{try_dir, try_file, try_hard};
use ips_folder::Folder;
use ips_outside::{Failed, Source};
use ips_steps::Step;
use ips_text::{Or, RelPath};
use std::alloc::Global;
use std::collections::BTreeSet;
use std::marker::Model;

/// Steps whose calls were tried. Contracts see the list of these steps.
#[derive(Drop)]
pub struct Rehearsed<'a> {
    steps: &'a [Step],
}

impl<'a> Model for Rehearsed<'a> {
    ghost use Rattle.std.specs.Prelude.{List, map};
    ghost use Rattle.ips_steps.specs.Steps.{Step as StepMeant};
    ghost use Rattle.ips_steps.specs.View.{step_of};

    ghost Value = { List StepMeant };

    ghost view = { λ r. map step_of r.steps.now };
}

impl<'a> Rehearsed<'a> {
    /// The steps.
    pub fn steps(&self) -> &'a [Step]
        ensures { map step_of result.now ≡ self.now }
    {
        self.steps
    }
}

/// Tries what the steps ask of the file system in the directory `var/pkg/stage/try`, and takes that away again. The stage holds so many
/// contents.
///
/// Where a call failed it answers `Failed`, and something may be left there; but a directory of a mode that hinders is given 0700
/// first, so that the stage can be taken away.
pub fn rehearse<'a, F: Folder>(
    alloc: Global,
    steps: &'a [Step],
    contents: u64,
    folder: &mut F,
) -> Result<Rehearsed<'a>, Or<Failed>>
    requires proper { AllProper (map step_of steps.now) }
    requires stage { IsTrue (F.outside.tells folder.old) → IsTrue (is_dir ((F.outside.state folder.old).held.look stage_name)) }
    requires free { IsTrue (F.outside.tells folder.old) → IsGone try_name (F.outside.state folder.old).held }
    requires first { IsTrue (F.outside.tells folder.old) → 0 < contents → IsTrue (is_file ((F.outside.state folder.old).held.look (stage_path 0))) }
    ensures any_moment { IsTrue (F.outside.tells folder.old) → ChangesOnly F.outside (covers try_name) (covers try_name) folder.old folder.new }
    ensures gone { IsTrue (F.outside.tells folder.old) → OnOk result (IsGone try_name (F.outside.state folder.new).held) }
    ensures of { IfOk result (λ rehearsed. rehearsed ≡ map step_of steps.now) }
    ensures tried { OnOk result ((length steps.now ≡ 0) ⊎ (risen (F.outside.changes folder.old) ≤ F.outside.changes folder.new)) }
    ensures rehearsed { IsTrue (F.outside.tells folder.old) → OnOk result ((length steps.now ≡ 0) ⊎ IsRehearsed F.outside steps.now contents folder.old folder.new) }
    ensures cause { HasCause (F.outside.faults folder.old) (F.outside.faults folder.new) (IsFailure result) }
    ensures same_kind { F.outside.tells folder.new ≡ F.outside.tells folder.old }
    ensures changes { F.outside.changes folder.old ≤ F.outside.changes folder.new }
{
    if steps.is_empty() {
        return Ok(Rehearsed { steps });
    }
    let Ok(mut path) = room(alloc) else {
        return Err(Or::OutOfMemory);
    };
    let Ok(mut other) = room(alloc) else {
        return Err(Or::OutOfMemory);
    };
    match try_steps(alloc, steps, contents, folder, &mut path, &mut other) {
        Ok(()) => Ok(Rehearsed { steps }),
        Err(fault) => Err(fault),
    }
}

// Tries what the steps ask for, and takes it away.
fn try_steps<F: Folder>(
    alloc: Global,
    steps: &[Step],
    contents: u64,
    folder: &mut F,
    path: &mut RelPath,
    other: &mut RelPath,
) -> Result<(), Or<Failed>>
    requires path { 1023 ≤ path.old.room }
    requires other { 1023 ≤ other.old.room }
    requires proper { AllProper (map step_of steps.now) }
    requires stage { IsTrue (F.outside.tells folder.old) → IsTrue (is_dir ((F.outside.state folder.old).held.look stage_name)) }
    requires free { IsTrue (F.outside.tells folder.old) → IsGone try_name (F.outside.state folder.old).held }
    requires first { IsTrue (F.outside.tells folder.old) → 0 < contents → IsTrue (is_file ((F.outside.state folder.old).held.look (stage_path 0))) }
    ensures any_moment { IsTrue (F.outside.tells folder.old) → ChangesOnly F.outside (covers try_name) (covers try_name) folder.old folder.new }
    ensures gone { IsTrue (F.outside.tells folder.old) → OnOk result (IsGone try_name (F.outside.state folder.new).held) }
    ensures tried { OnOk result (risen (F.outside.changes folder.old) ≤ F.outside.changes folder.new) }
    ensures seen { IsTrue (F.outside.tells folder.old) → OnOk result (IsRehearsed F.outside steps.now contents folder.old folder.new) }
    ensures calls { Calls F.outside folder.old folder.new (IsFailure result) }
{
    let modes = ask(alloc, steps, folder, path)?;
    go(path, b"var/pkg/stage/try");
    let Ok(()) = folder.make_dir(path, 0o700) else {
        return Err(Or::Bad(Failed));
    };
    try_within(alloc, steps, contents, folder, path, other, &modes)?;
    go(path, b"var/pkg/stage/try");
    let Ok(()) = folder.remove(path) else {
        return Err(Or::Bad(Failed));
    };
    Ok(())
}

// The modes that are asked for, with those of the directories that stand.
fn ask<F: Folder>(
    alloc: Global,
    steps: &[Step],
    folder: &mut F,
    path: &mut RelPath,
) -> Result<Asked, Or<Failed>>
    requires proper { AllProper (map step_of steps.now) }
    requires room { 1023 ≤ path.old.room }
    ensures room { 1023 ≤ path.new.room }
    ensures worked { IfOk result (λ a. (m : ℕ) → IsTrue (list_any (λ s. asked.gives_worked (is_worked steps.now) (is_passed steps.now) m (step_of s)) steps.now) → IsTrue (in_modes a.worked.has m)) }
    ensures standing { IsTrue (F.outside.tells folder.old) → IfOk result (λ a. (q : List ℕ) (m : ℕ) (f : Bool) → IsTrue (is_worked_first steps.now q)
        → (F.outside.state folder.old).held.look q ≡ Some (Dir m f) → IsTrue (in_modes a.worked.has m)) }
    ensures going { IsTrue (F.outside.tells folder.old) → IfOk result (λ a. All (IsFound (F.outside.state folder.old).held (is_made steps.now) a.worked.has) steps.now) }
    ensures dirs { IfOk result (λ a. (m : ℕ) → in_modes a.dirs.has m ≡ list_any (λ s. asked.gives_dir m (step_of s)) steps.now) }
    ensures files { IfOk result (λ a. (m : ℕ) → in_modes a.files.has m ≡ list_any (λ s. asked.gives_file m (step_of s)) steps.now) }
    ensures reads { Reads F.outside folder.old folder.new (IsFailure result) }
{
    let mut worked = BTreeSet::new(alloc);
    let mut made = BTreeSet::new(alloc);
    let mut passed = BTreeSet::new(alloc);
    let mut first = BTreeSet::new(alloc);
    add(alloc, &mut worked, b"var/pkg")?;
    add_above(alloc, b"var/pkg", &mut passed)?;
    gather(alloc, steps, &mut worked, &mut passed, &mut made)?;
    gather_first(alloc, steps, &mut first)?;
    let mut modes = modes_of(steps, &worked, &passed);
    let Ok(()) = add_standing(folder, path, &first, &mut modes.worked) else {
        return Err(Or::Bad(Failed));
    };
    add_going(alloc, folder, steps, &made, &mut modes.worked)?;
    Ok(modes)
}

// The trials in the directory of trials.
fn try_within<F: Folder>(
    alloc: Global,
    steps: &[Step],
    contents: u64,
    folder: &mut F,
    path: &mut RelPath,
    other: &mut RelPath,
    modes: &Asked,
) -> Result<(), Or<Failed>>
    requires path { 1023 ≤ path.old.room }
    requires other { 1023 ≤ other.old.room }
    requires empty { IsTrue (F.outside.tells folder.old) → IsEmptyDir try_name (F.outside.state folder.old).held }
    requires first { IsTrue (F.outside.tells folder.old) → 0 < contents → IsTrue (is_file ((F.outside.state folder.old).held.look (stage_path 0))) }
    ensures path { 1023 ≤ path.new.room }
    ensures any_moment { IsTrue (F.outside.tells folder.old) → ChangesOnly F.outside (is_below try_name) (is_below try_name) folder.old folder.new }
    ensures seen { IsTrue (F.outside.tells folder.old) → OnOk result (Passed F.outside folder.old folder.new × HasTried F.outside steps.now contents folder.old folder.new
        × HasTriedModes F.outside folder.old folder.new modes.now.worked.has modes.now.dirs.has modes.now.files.has) }
    ensures calls { Calls F.outside folder.old folder.new (IsFailure result) }
{
    let Ok(()) = try_name_of(folder, path, other, contents, makes_name(steps)) else {
        return Err(Or::Bad(Failed));
    };
    let Ok(()) = try_target(folder, path, longest_target(steps)) else {
        return Err(Or::Bad(Failed));
    };
    try_name(alloc, folder, path, longest_name(steps))?;
    try_modes(alloc, folder, path, other, modes)
}

// Tries a further name of the first content, or of a file that is made where there is none, if one is asked for.
fn try_name_of<F: Folder>(
    folder: &mut F,
    path: &mut RelPath,
    other: &mut RelPath,
    contents: u64,
    is_asked: bool,
) -> Result<(), Failed>
    requires path { 1023 ≤ path.old.room }
    requires other { 1023 ≤ other.old.room }
    requires empty { IsTrue (F.outside.tells folder.old) → IsEmptyDir try_name (F.outside.state folder.old).held }
    requires first { IsTrue (F.outside.tells folder.old) → 0 < contents → IsTrue (is_file ((F.outside.state folder.old).held.look (stage_path 0))) }
    ensures path { 1023 ≤ path.new.room }
    ensures other { 1023 ≤ other.new.room }
    ensures empty { IsTrue (F.outside.tells folder.old) → OnOk result (IsEmptyDir try_name (F.outside.state folder.new).held) }
    ensures any_moment { IsTrue (F.outside.tells folder.old) → ChangesOnly F.outside (is_below try_name) (is_below try_name) folder.old folder.new }
    ensures tried { OnOk result (IsTrue is_asked → risen (risen (F.outside.changes folder.old)) ≤ F.outside.changes folder.new) }
    ensures seen { IsTrue (F.outside.tells folder.old) → OnOk result (Passed F.outside folder.old folder.new × (IsTrue is_asked → HasNamed F.outside contents folder.old folder.new)) }
    ensures calls { Calls F.outside folder.old folder.new (IsErr result) }
{
    if !is_asked {
        return Ok(());
    }
    go(path, b"var/pkg/stage/try/link");
    if contents > 0 {
        go(other, b"var/pkg/stage/0");
        return try_hard(folder, path, other);
    }
    go(other, b"var/pkg/stage/try/file");
    folder.make_file(other)?;
    try_hard(folder, path, other)?;
    folder.remove(other)
}

// Tries a symbolic link to the target, if there is one.
fn try_target<F: Folder>(folder: &mut F, path: &mut RelPath, target: &[u8]) -> Result<(), Failed>
    requires path { 1023 ≤ path.old.room }
    requires empty { IsTrue (F.outside.tells folder.old) → IsEmptyDir try_name (F.outside.state folder.old).held }
    ensures path { 1023 ≤ path.new.room }
    ensures empty { IsTrue (F.outside.tells folder.old) → OnOk result (IsEmptyDir try_name (F.outside.state folder.new).held) }
    ensures any_moment { IsTrue (F.outside.tells folder.old) → ChangesOnly F.outside (is_below try_name) (is_below try_name) folder.old folder.new }
    ensures tried { OnOk result ((length target.now ≡ 0) ⊎ (risen (risen (F.outside.changes folder.old)) ≤ F.outside.changes folder.new)) }
    ensures seen { IsTrue (F.outside.tells folder.old) → OnOk result (Passed F.outside folder.old folder.new × ((target.now ≡ []) ⊎ Stood F.outside folder.old folder.new (IsLinkTo target.now))) }
    ensures calls { Calls F.outside folder.old folder.new (IsErr result) }
{
    if target.is_empty() {
        return Ok(());
    }
    go(path, b"var/pkg/stage/try/link");
    folder.make_link(path, target)?;
    folder.remove(path)
}

// Tries a file of the name, if there is one.
fn try_name<F: Folder>(
    alloc: Global,
    folder: &mut F,
    path: &mut RelPath,
    name: &[u8],
) -> Result<(), Or<Failed>>
    requires path { 1023 ≤ path.old.room }
    requires name { (name.now ≡ []) ⊎ (IsPath name.now × (parent name.now ≡ None)) }
    requires empty { IsTrue (F.outside.tells folder.old) → IsEmptyDir try_name (F.outside.state folder.old).held }
    ensures path { 1023 ≤ path.new.room }
    ensures empty { IsTrue (F.outside.tells folder.old) → OnOk result (IsEmptyDir try_name (F.outside.state folder.new).held) }
    ensures any_moment { IsTrue (F.outside.tells folder.old) → ChangesOnly F.outside (is_below try_name) (is_below try_name) folder.old folder.new }
    ensures tried { OnOk result ((length name.now ≡ 0) ⊎ (risen (risen (F.outside.changes folder.old)) ≤ F.outside.changes folder.new)) }
    ensures seen { IsTrue (F.outside.tells folder.old) → OnOk result (Passed F.outside folder.old folder.new × ((name.now ≡ []) ⊎ Stood F.outside folder.old folder.new (λ t. IsTrue (is_file (t.look (in_try name.now)))))) }
    ensures calls { Calls F.outside folder.old folder.new (IsFailure result) }
{
    if name.is_empty() {
        return Ok(());
    }
    go_in(alloc, path, name)?;
    match try_file(folder, path, 0o600) {
        Ok(()) => Ok(()),
        Err(Failed) => Err(Or::Bad(Failed)),
    }
}

// Tries each of the modes.
fn try_modes<F: Folder>(
    alloc: Global,
    folder: &mut F,
    path: &mut RelPath,
    other: &mut RelPath,
    modes: &Asked,
) -> Result<(), Or<Failed>>
    requires path { 1023 ≤ path.old.room }
    requires other { 1023 ≤ other.old.room }
    requires empty { IsTrue (F.outside.tells folder.old) → IsEmptyDir try_name (F.outside.state folder.old).held }
    ensures path { 1023 ≤ path.new.room }
    ensures any_moment { IsTrue (F.outside.tells folder.old) → ChangesOnly F.outside (is_below try_name) (is_below try_name) folder.old folder.new }
    ensures seen { IsTrue (F.outside.tells folder.old) → OnOk result (Passed F.outside folder.old folder.new × HasTriedModes F.outside folder.old folder.new modes.now.worked.has modes.now.dirs.has modes.now.files.has) }
    ensures calls { Calls F.outside folder.old folder.new (IsFailure result) }
{
    for mode in 0..4096u16 {
        let i = mode as usize;
        let is_worked = modes.worked.has[i];
        try_dir(
            alloc,
            folder,
            path,
            other,
            mode,
            modes.dirs.has[i],
            is_worked,
        )?;
        let Ok(()) = try_file_mode(folder, path, mode, modes.files.has[i]) else {
            return Err(Or::Bad(Failed));
        };
    }
    Ok(())
}

// Tries a file of the mode, where one is asked for.
fn try_file_mode<F: Folder>(
    folder: &mut F,
    path: &mut RelPath,
    mode: u16,
    is_asked: bool,
) -> Result<(), Failed>
    requires path { 1023 ≤ path.old.room }
    requires mode { mode < 4096 }
    requires empty { IsTrue (F.outside.tells folder.old) → IsEmptyDir try_name (F.outside.state folder.old).held }
    ensures path { 1023 ≤ path.new.room }
    ensures empty { IsTrue (F.outside.tells folder.old) → OnOk result (IsEmptyDir try_name (F.outside.state folder.new).held) }
    ensures any_moment { IsTrue (F.outside.tells folder.old) → ChangesOnly F.outside (is_below try_name) (is_below try_name) folder.old folder.new }
    ensures tried { OnOk result (IsTrue is_asked → risen (risen (F.outside.changes folder.old)) ≤ F.outside.changes folder.new) }
    ensures seen { IsTrue (F.outside.tells folder.old) → OnOk result (Passed F.outside folder.old folder.new × (IsTrue is_asked → Stood F.outside folder.old folder.new (IsFileOf mode))) }
    ensures calls { Calls F.outside folder.old folder.new (IsErr result) }
{
    if !is_asked {
        return Ok(());
    }
    go(path, b"var/pkg/stage/try/file");
    try_file(folder, path, mode)
}
