//! What a kind is.

ghost use Rattle.std.specs.Prelude.{◌≡◌, ◌≢◌, ℕ, ◌+◌, ◌-◌, ◌^◌, ◌<◌, min, Bool, IsTrue, IsFalse, List, Some, length, take, slice_get};
ghost use Rattle.std.specs.List.{All};
ghost use Rattle.ips_steps.specs.Steps.{Step as StepMeant};
ghost use Rattle.ips_steps.specs.View.{step_of, sort_of};
ghost use Rattle.ips_steps.specs.declared.step.Sort.{Sort};
ghost use Rattle.ips_kinds.specs.Acts.{acts, tally_after, same_sort};
ghost use Rattle.ips_kinds.specs.Tallies.{Carrier, taken, all_counted, count_of_sort, tally_of_all};
ghost use Rattle.ips_kinds.specs.declared.kind.Act.{Act};
ghost use Rattle.ips_kinds.specs.declared.kind.Act.TheVariants.{Finished};

use ips_steps::Step;

/// What is to be done next for a step, at its path.
#[derive(Clone, Copy, Drop)]
pub enum Act {
    /// Take away what stands at and below the path.
    Clear,
    /// Make the directory.
    MakeDir,
    /// Make the symbolic link.
    MakeLink,
    /// Make one more name of the file that the step names, or of its staged content.
    MakeHard,
    /// Set the mode.
    SetMode,
    /// Nothing more: the step is finished.
    Finished,
}

/// A kind carries out steps of the sorts that it takes. Which these are never changes.
pub trait Kind: Drop {
    // the sorts that it takes
    ghost sorts: { Self → Sort → Bool };

    // how many steps it has finished, up to the last value of its counter
    ghost finished: { Self → ℕ };

    /// Whether the kind takes the step: this depends on the step's sort alone.
    fn takes(&self, step: &Step) -> bool
        ensures { result ≡ sorts self.now (sort_of (step_of step.now)) };

    /// The act at a turn, counted from 0, of a step that the kind takes. The last turn of a step has the act `Finished`;
    /// there the tally rises by one, or stays at its last value, 2^64 - 1. At every other act it stays.
    fn next(&mut self, step: &Step, turn: u8) -> Act
        requires takes { IsTrue (sorts self.old (sort_of (step_of step.now))) }
        requires turn { turn < length (acts (sort_of (step_of step.now))) }
        ensures act { slice_get (acts (sort_of (step_of step.now))) turn ≡ Some result }
        ensures tally { finished self.new ≡ tally_after result (finished self.old) }
        ensures sorts { sorts self.new ≡ sorts self.old };

    /// How many steps the kind has finished.
    fn tally(&self) -> u64
        ensures { result ≡ finished self.now };
}

// Counts one more step, and ends it.
pub(crate) fn finish(tally: &mut u64) -> Act
    ensures act { result ≡ Act.Finished }
    ensures more { tally.new ≡ min (tally.old + 1) (2 ^ 64 - 1) }
{
    *tally = tally.saturating_add(1);
    Act::Finished
}

/// The last act of each sort, and no other, is `Finished`.
pub fn ends_once()
    ensures last { (sort : Sort) (turn : ℕ) → slice_get (acts sort) turn ≡ Some Finished → turn + 1 ≡ length (acts sort) }
    ensures on { (sort : Sort) (turn : ℕ) (act : Act) → slice_get (acts sort) turn ≡ Some act → act ≢ Finished → turn + 1 < length (acts sort) }
{}

/// Steps that are finished one after another, each by the first kind that takes it, are counted so: a kind of one sort
/// alone, which is the first that takes that sort, counts the steps of the sort; and all kinds together count all steps. No
/// tally may reach its last value.
pub fn counts_each_step()
    ensures own { (kinds : List Carrier) (steps : List StepMeant) (sort : Sort) (place : ℕ) (kind : Carrier) → slice_get kinds place ≡ Some kind
        → ((other : Sort) → kind.sorts other ≡ same_sort sort other) → IsFalse (taken (take place kinds) sort) → kind.finished + count_of_sort sort steps < 2 ^ 64
        → slice_get (all_counted steps kinds) place ≡ Some (record { sorts = kind.sorts; finished = kind.finished + count_of_sort sort steps }) }
    ensures together { (kinds : List Carrier) (steps : List StepMeant) → ((sort : Sort) → IsTrue (taken kinds sort)) → All (λ k. k.finished + length steps < 2 ^ 64) kinds
        → tally_of_all (all_counted steps kinds) ≡ tally_of_all kinds + length steps }
{}
