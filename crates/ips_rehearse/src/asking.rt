//! What the steps ask of a file system.

ghost use Rattle.std.specs.Prelude.{◌≡◌, ◌⊎◌, ◌||◌, ◌&&◌, not, ℕ, List, [], cond, nat_lt, None, OnOk, IsTrue, length, map};
ghost use Rattle.std.specs.List.{list_any};
ghost use Rattle.ips_text.specs.Ancestry as ancestry;
ghost use Rattle.ips_text.specs.Ancestry.{is_below, same_path};
ghost use Rattle.ips_text.specs.Path.{IsPath};
ghost use Rattle.ips_outside.specs.Tearing.{in_set};
ghost use Rattle.ips_steps.specs.Steps.{path_of};
ghost use Rattle.ips_steps.specs.Journal.{AllProper, IsProper};
ghost use Rattle.ips_steps.specs.View.{step_of};
ghost use Rattle.ips_rehearse.specs.Asked as asked;
ghost use Rattle.ips_rehearse.specs.Asked.{IsLongest};
ghost use Rattle.ips_rehearse.specs.Tried.{in_modes};

use crate::modes::Modes;
use crate::sets::{add, has};
use ips_steps::Step;
use ips_text::parent;
use std::alloc::{AllocError, Global};
use std::collections::BTreeSet;

/// The modes that are asked for.
#[derive(Drop)]
pub(crate) struct Asked {
    /// Of directories in which something is made or taken away.
    pub(crate) worked: Modes,
    /// Of directories, with a bit above 0777.
    pub(crate) dirs: Modes,
    /// Of files, with a bit above 0777.
    pub(crate) files: Modes,
}

/// The longest target of the symbolic links, or nothing where none is made.
pub(crate) fn longest_target(steps: &[Step]) -> &[u8]
    ensures { IsLongest (λ s. asked.target_of (step_of s)) steps.now result.now }
{
    let mut longest: &[u8] = &[];
    for step in steps {
        longest = longer(longest, target(step));
    }
    longest
}

// What a symbolic link says; other steps say nothing.
fn target(step: &Step) -> &[u8]
    ensures { result.now ≡ asked.target_of (step_of step.now) }
{
    match step {
        Step::Link { target, .. } => target.bytes(),
        _ => &[],
    }
}

/// The longest last part of a path, or nothing where there is no step.
pub(crate) fn longest_name(steps: &[Step]) -> &[u8]
    ensures longest { IsLongest (λ s. asked.last_part (path_of (step_of s))) steps.now result.now }
    ensures name { (result.now ≡ []) ⊎ (IsPath result.now × (ancestry.parent result.now ≡ None)) }
{
    let mut longest: &[u8] = &[];
    for step in steps {
        longest = longer(longest, last_part(step.path().bytes()));
    }
    longest
}

// The last part of a path.
fn last_part(path: &[u8]) -> &[u8]
    requires { IsPath path.now }
    ensures value { result.now ≡ asked.last_part path.now }
    ensures name { IsPath result.now × (ancestry.parent result.now ≡ None) }
{
    match parent(path) {
        Some(dir) => &path[dir.len() + 1..],
        None => path,
    }
}

// The longer text, and the first where neither is.
fn longer<'a>(first: &'a [u8], second: &'a [u8]) -> &'a [u8]
    ensures { result.now ≡ cond (nat_lt (length first.now) (length second.now)) second.now first.now }
{
    if first.len() < second.len() {
        second
    } else {
        first
    }
}

/// Whether a step makes one more name of a file.
pub(crate) fn makes_name(steps: &[Step]) -> bool
    ensures { result ≡ list_any (λ s. asked.makes_name (step_of s)) steps.now }
{
    for step in steps {
        if is_name(step) {
            return true;
        }
    }
    false
}

// Whether the step makes one more name of a file.
fn is_name(step: &Step) -> bool
    ensures { result ≡ asked.makes_name (step_of step.now) }
{
    matches!(step, Step::Put { .. } | Step::Hard { .. })
}

/// Adds the directories in which steps make or take away something, those that steps go through, and those that steps make.
pub(crate) fn gather(
    alloc: Global,
    steps: &[Step],
    worked: &mut BTreeSet<Vec<u8>>,
    passed: &mut BTreeSet<Vec<u8>>,
    made: &mut BTreeSet<Vec<u8>>,
) -> Result<(), AllocError>
    ensures worked { OnOk result ((q : List ℕ) → in_set worked.new q ≡ (list_any (λ s. asked.works_in q (step_of s)) steps.now || in_set worked.old q)) }
    ensures passed { OnOk result ((q : List ℕ) → in_set passed.new q ≡ (list_any (λ s. asked.goes_through q (step_of s)) steps.now || in_set passed.old q)) }
    ensures made { OnOk result ((q : List ℕ) → in_set made.new q ≡ (list_any (λ s. asked.makes_dir q (step_of s)) steps.now || in_set made.old q)) }
{
    for step in steps {
        add_worked(alloc, step, worked)?;
        add_passed(alloc, step, passed)?;
        add_made(alloc, step, made)?;
    }
    Ok(())
}

/// Adds the directories in which a step makes or takes away something before any gives them a mode.
pub(crate) fn gather_first(
    alloc: Global,
    steps: &[Step],
    first: &mut BTreeSet<Vec<u8>>,
) -> Result<(), AllocError>
    ensures { OnOk result ((q : List ℕ) → in_set first.new q ≡ (asked.works_first q (map step_of steps.now) || in_set first.old q)) }
{
    let mut given = BTreeSet::new(alloc);
    for step in steps {
        add_first(alloc, step, &given, first)?;
        add_given(alloc, step, &mut given)?;
    }
    Ok(())
}

// Adds the directory in which the step makes or takes away something, but for these.
fn add_first(
    alloc: Global,
    step: &Step,
    given: &BTreeSet<Vec<u8>>,
    first: &mut BTreeSet<Vec<u8>>,
) -> Result<(), AllocError>
    ensures { OnOk result ((q : List ℕ) → in_set first.new q ≡ ((not (in_set given.now q) && asked.works_in q (step_of step.now)) || in_set first.old q)) }
{
    if let Step::Mode { .. } = step {
        return Ok(());
    }
    match parent(step.path().bytes()) {
        Some(dir) => add_but(alloc, first, dir, given),
        None => Ok(()),
    }
}

// Adds a path that is none of these.
fn add_but(
    alloc: Global,
    paths: &mut BTreeSet<Vec<u8>>,
    path: &[u8],
    but: &BTreeSet<Vec<u8>>,
) -> Result<(), AllocError>
    ensures { OnOk result ((q : List ℕ) → in_set paths.new q ≡ ((not (in_set but.now q) && same_path path.now q) || in_set paths.old q)) }
{
    if has(but, path) {
        return Ok(());
    }
    add(alloc, paths, path)
}

// Adds the directory that the step makes, or whose mode it sets.
fn add_given(alloc: Global, step: &Step, given: &mut BTreeSet<Vec<u8>>) -> Result<(), AllocError>
    ensures { OnOk result ((q : List ℕ) → in_set given.new q ≡ (asked.gives_mode q (step_of step.now) || in_set given.old q)) }
{
    match step {
        Step::Fresh { path, .. } | Step::Mode { path, .. } => add(alloc, given, path.bytes()),
        _ => Ok(()),
    }
}

// Adds the directory in which the step makes or takes away something.
fn add_worked(alloc: Global, step: &Step, worked: &mut BTreeSet<Vec<u8>>) -> Result<(), AllocError>
    ensures { OnOk result ((q : List ℕ) → in_set worked.new q ≡ (asked.works_in q (step_of step.now) || in_set worked.old q)) }
{
    if let Step::Mode { .. } = step {
        return Ok(());
    }
    match parent(step.path().bytes()) {
        Some(dir) => add(alloc, worked, dir),
        None => Ok(()),
    }
}

// Adds the directories that the step goes through.
fn add_passed(alloc: Global, step: &Step, passed: &mut BTreeSet<Vec<u8>>) -> Result<(), AllocError>
    ensures { OnOk result ((q : List ℕ) → in_set passed.new q ≡ (asked.goes_through q (step_of step.now) || in_set passed.old q)) }
{
    if let Step::Hard { to, .. } = step {
        add_above(alloc, to.bytes(), passed)?;
    }
    add_above(alloc, step.path().bytes(), passed)
}

/// Adds the directories above the path.
pub(crate) fn add_above(
    alloc: Global,
    path: &[u8],
    above: &mut BTreeSet<Vec<u8>>,
) -> Result<(), AllocError>
    ensures { OnOk result ((q : List ℕ) → in_set above.new q ≡ (is_below q path.now || in_set above.old q)) }
{
    let mut at = path;
    while let Some(dir) = parent(at) {
        add_once(alloc, above, dir)?;
        at = dir;
    }
    Ok(())
}

// Adds a path; where it is among them, no memory is taken.
fn add_once(alloc: Global, paths: &mut BTreeSet<Vec<u8>>, path: &[u8]) -> Result<(), AllocError>
    ensures { OnOk result ((q : List ℕ) → in_set paths.new q ≡ (same_path path.now q || in_set paths.old q)) }
{
    if has(paths, path) {
        return Ok(());
    }
    add(alloc, paths, path)
}

// Adds the directory that the step makes.
fn add_made(alloc: Global, step: &Step, made: &mut BTreeSet<Vec<u8>>) -> Result<(), AllocError>
    ensures { OnOk result ((q : List ℕ) → in_set made.new q ≡ (asked.makes_dir q (step_of step.now) || in_set made.old q)) }
{
    match step {
        Step::Fresh { path, .. } => add(alloc, made, path.bytes()),
        _ => Ok(()),
    }
}

/// The modes that the steps give, where something is made or taken away in these directories, and these are gone through.
pub(crate) fn modes_of(
    steps: &[Step],
    worked: &BTreeSet<Vec<u8>>,
    passed: &BTreeSet<Vec<u8>>,
) -> Asked
    requires { AllProper (map step_of steps.now) }
    ensures worked { (m : ℕ) → in_modes result.worked.has m ≡ list_any (λ s. asked.gives_worked (in_set worked.now) (in_set passed.now) m (step_of s)) steps.now }
    ensures dirs { (m : ℕ) → in_modes result.dirs.has m ≡ list_any (λ s. asked.gives_dir m (step_of s)) steps.now }
    ensures files { (m : ℕ) → in_modes result.files.has m ≡ list_any (λ s. asked.gives_file m (step_of s)) steps.now }
{
    let mut modes = Asked {
        worked: Modes::none(),
        dirs: Modes::none(),
        files: Modes::none(),
    };
    for step in steps {
        add_modes(step, worked, passed, &mut modes);
    }
    modes
}

// Adds the modes that the step gives.
fn add_modes(step: &Step, worked: &BTreeSet<Vec<u8>>, passed: &BTreeSet<Vec<u8>>, modes: &mut Asked)
    requires { IsProper (step_of step.now) }
    ensures worked { (m : ℕ) → in_modes modes.new.worked.has m ≡ (asked.gives_worked (in_set worked.now) (in_set passed.now) m (step_of step.now) || in_modes modes.old.worked.has m) }
    ensures dirs { (m : ℕ) → in_modes modes.new.dirs.has m ≡ (asked.gives_dir m (step_of step.now) || in_modes modes.old.dirs.has m) }
    ensures files { (m : ℕ) → in_modes modes.new.files.has m ≡ (asked.gives_file m (step_of step.now) || in_modes modes.old.files.has m) }
{
    match step {
        Step::Fresh { path, mode } => {
            let counts = hinders(path.bytes(), *mode, worked, passed) || *mode % 0o1000 < 0o400;
            modes.worked.add(*mode, counts);
            modes.dirs.add(*mode, *mode > 0o777);
        }
        Step::Mode { path, mode } => {
            modes
                .worked
                .add(*mode, hinders(path.bytes(), *mode, worked, passed));
            modes.dirs.add(*mode, *mode > 0o777);
            modes.files.add(*mode, *mode > 0o777);
        }
        Step::Put { mode, .. } => modes.files.add(*mode, *mode > 0o777),
        _ => {}
    }
}

// Whether the mode at the path may hinder: something is made or taken away there, or it can't be gone through and is.
fn hinders(path: &[u8], mode: u16, worked: &BTreeSet<Vec<u8>>, passed: &BTreeSet<Vec<u8>>) -> bool
    ensures { result ≡ (in_set worked.now path.now || (asked.is_closed mode && in_set passed.now path.now)) }
{
    if has(worked, path) {
        return true;
    }
    mode / 0o100 % 2 == 0 && has(passed, path)
}
