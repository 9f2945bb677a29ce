//! Steps in numbers.

ghost use Rattle.std.specs.Prelude.{◌≡◌, ◌≤◌, ◌+◌, ◌<◌, ◌^◌, cond, length, map};
ghost use Rattle.ips_kinds.specs.Acts.{same_sort};
ghost use Rattle.ips_kinds.specs.Tallies.{count_of_sort};
ghost use Rattle.ips_steps.specs.View.{sort_of, step_of};
ghost use Rattle.ips_steps.specs.declared.step.Sort.TheVariants as of_sort;

use ips_steps::{Sort, Step};

/// How many steps of each sort a request has.
#[derive(Clone, Copy, Drop)]
pub struct Sorts {
    pub gone: u64,
    pub fresh: u64,
    pub mode: u64,
    pub put: u64,
    pub link: u64,
    pub hard: u64,
}

impl Sorts {
    /// How many of the steps are of each sort.
    pub fn of(steps: &[Step]) -> Sorts
        ensures gone { result.gone ≡ count_of_sort of_sort.Gone (map step_of steps.now) }
        ensures fresh { result.fresh ≡ count_of_sort of_sort.Fresh (map step_of steps.now) }
        ensures mode { result.mode ≡ count_of_sort of_sort.Mode (map step_of steps.now) }
        ensures put { result.put ≡ count_of_sort of_sort.Put (map step_of steps.now) }
        ensures link { result.link ≡ count_of_sort of_sort.Link (map step_of steps.now) }
        ensures hard { result.hard ≡ count_of_sort of_sort.Hard (map step_of steps.now) }
    {
        Sorts {
            gone: number(steps, Sort::Gone),
            fresh: number(steps, Sort::Fresh),
            mode: number(steps, Sort::Mode),
            put: number(steps, Sort::Put),
            link: number(steps, Sort::Link),
            hard: number(steps, Sort::Hard),
        }
    }
}

// How many of the steps are of the sort.
fn number(steps: &[Step], sort: Sort) -> u64
    ensures { result ≡ count_of_sort sort (map step_of steps.now) }
{
    let mut count = 0;
    for step in steps {
        if is_of(step, sort) {
            count += 1;
        }
    }
    count
}

// Whether the step is of the sort.
fn is_of(step: &Step, sort: Sort) -> bool
    ensures { result ≡ same_sort sort (sort_of (step_of step.now)) }
{
    matches!(
        (sort, step),
        (Sort::Gone, Step::Gone { .. })
            | (Sort::Fresh, Step::Fresh { .. })
            | (Sort::Mode, Step::Mode { .. })
            | (Sort::Put, Step::Put { .. })
            | (Sort::Link, Step::Link { .. })
            | (Sort::Hard, Step::Hard { .. })
    )
}
