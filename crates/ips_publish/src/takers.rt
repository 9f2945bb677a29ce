//! Whether each sort of step has a kind that takes it. A recovery doesn't promise that of kinds that were lent to it, so it is asked of them again.

ghost use Rattle.std.specs.Prelude.{◌≡◌, IfSome, IsTrue};
ghost use Rattle.ips_steps.specs.View.{sort_of, step_of};
ghost use Rattle.ips_steps.specs.declared.step.Sort as steps;
ghost use Rattle.ips_steps.specs.declared.step.Sort.TheVariants as variant;
ghost use Rattle.ips_kinds.specs.Tallies.{seen_by, taken};

use ips_kinds::{Kind, Sort, Step, Target};
use ips_text::RelPath;
use std::alloc::Global;

/// Whether each sort of step has a kind that takes it; false also where memory to ask for it is refused.
pub(crate) fn all_taken(alloc: Global, kinds: &[Box<dyn Kind>]) -> bool
    ensures { IsTrue result → (s : steps.Sort) → IsTrue (taken (seen_by sorts finished kinds.now) s) }
{
    let gone = takes(alloc, kinds, Sort::Gone);
    let fresh = takes(alloc, kinds, Sort::Fresh);
    let mode = takes(alloc, kinds, Sort::Mode);
    let put = takes(alloc, kinds, Sort::Put);
    let link = takes(alloc, kinds, Sort::Link);
    let hard = takes(alloc, kinds, Sort::Hard);
    gone && fresh && mode && put && link && hard
}

// Whether some kind takes the sort of step.
fn takes(alloc: Global, kinds: &[Box<dyn Kind>], sort: Sort) -> bool
    ensures { IsTrue result → IsTrue (taken (seen_by sorts finished kinds.now) sort) }
{
    match example(alloc, sort) {
        Some(step) => is_taken(kinds, &step),
        None => false,
    }
}

// A step of the sort.
fn example(alloc: Global, sort: Sort) -> Option<Step>
    ensures { IfSome result (λ step. sort_of (step_of step) ≡ sort) }
{
    let Ok(path) = RelPath::parse(alloc, b"var") else {
        return None;
    };
    match sort {
        Sort::Gone => Some(Step::Gone { path }),
        Sort::Fresh => Some(Step::Fresh { path, mode: 0 }),
        Sort::Mode => Some(Step::Mode { path, mode: 0 }),
        Sort::Put => Some(Step::Put {
            path,
            mode: 0,
            stage: 0,
        }),
        Sort::Link => link_at(alloc, path),
        Sort::Hard => hard_at(alloc, path),
    }
}

// A link at the path.
fn link_at(alloc: Global, path: RelPath) -> Option<Step>
    ensures { IfSome result (λ step. sort_of (step_of step) ≡ variant.Link) }
{
    match Target::parse(alloc, b"var") {
        Ok(target) => Some(Step::Link { path, target }),
        Err(_) => None,
    }
}

// One more name at the path.
fn hard_at(alloc: Global, path: RelPath) -> Option<Step>
    ensures { IfSome result (λ step. sort_of (step_of step) ≡ variant.Hard) }
{
    match path.copy(alloc) {
        Ok(to) => Some(Step::Hard { path, to }),
        Err(_) => None,
    }
}

// Whether some kind takes the step.
fn is_taken(kinds: &[Box<dyn Kind>], step: &Step) -> bool
    ensures { IsTrue result → IsTrue (taken (seen_by sorts finished kinds.now) (sort_of (step_of step.now))) }
{
    for kind in kinds {
        if kind_takes(kind, step) {
            return true;
        }
    }
    false
}

// Whether the kind takes the step.
fn kind_takes(kind: &Box<dyn Kind>, step: &Step) -> bool
    ensures { result ≡ sorts kind.now (sort_of (step_of step.now)) }
{
    kind.takes(step)
}
