//! The state that a command leads to.

ghost use Rattle.std.specs.Prelude.{◌≡◌, ◌⊎◌, ◌↔◌, ℕ, ◌<◌, false, List, IsTrue, IfOk, OnOk, Err};
ghost use Rattle.ips_words.specs.declared.what.What.TheVariants.{UpdateFormat};
ghost use Rattle.ips_text.specs.Reading.{IfBad};
ghost use Rattle.ips_text.specs.declared.refusal.Or.TheVariants.{Bad};
ghost use Rattle.ips_outside.specs.Outside.{Reads};
ghost use Rattle.ips_state.specs.State.{Recorded, recorded};
ghost use Rattle.ips_state.specs.Lawful.{IsLawful};
ghost use Rattle.ips_problem.specs.Asked.{tells_where};
ghost use Rattle.ips_asked.specs.Formed.{IsFormed, IsFormedCommand};
ghost use Rattle.ips_asked.specs.Requested.{kind_asked};
ghost use Rattle.ips_next.specs.Decided as decided;
ghost use Rattle.ips_next.specs.Decided.{MayCome};
ghost use Rattle.ips_next.specs.Leading.{CanBeRecorded, IsNextOrCause};
ghost use Rattle.ips_next.specs.Next as spec;
ghost use Rattle.ips_next.specs.Next.{ComesNext, IsNext, IsOldFormat, IsSettled, given};
ghost use Rattle.ips_next.specs.declared.fault.NextFault.TheVariants as fault;

use crate::deciding::{Chosen, decided};
use crate::fault::NextFault;
use crate::indexing::indexed;
use crate::line::add_line;
use crate::unchanged::is_unchanged;
use ips_asked::ask;
use ips_outside::Source;
use ips_state::State;
use ips_text::Or;
use ips_words::{Command, What};
use std::alloc::{AllocError, Global};

/// The state to which a changing command leads an image of this state, at this moment, so many seconds after the first of January
/// 1970. The command is one that `Command::read` gives, other than `image-create` and `fix`. The next state can be recorded, whatever the
/// source tells. A command that looks for no versions reads nothing of the source: its state and faults are what they are, whether or not that tells.
///
/// OldFormat comes first, exactly where the records are of the first format and the command isn't `update-format`; NoRepository,
/// BadCatalog and TooLarge of a catalog at `install` and `update` alone; then the faults of the puzzle, NoSolution and SearchSpent;
/// and NothingToDo exactly where selection, settings, avoided stems, freezes, mediators, origins, format and index stay the same.
pub fn next_state<S: Source>(
    alloc: Global,
    command: &Command,
    moment: u64,
    old: &State,
    source: &mut S,
) -> Result<State, Or<NextFault>>
    requires moment { moment < 253370764800 }
    requires lawful { IsLawful (recorded old.now) }
    requires formed { IsFormedCommand command.now }
    ensures lawful { IfOk result (λ s. IsLawful (recorded s)) }
    ensures next { IsTrue (S.outside.tells source.old) → IfOk result (λ s. IsNext (given (recorded old.now) command.now moment (S.outside.state source.old).held) (recorded s)) }
    ensures refused { IsTrue (S.outside.tells source.old) → IfBad result (ComesNext (given (recorded old.now) command.now moment (S.outside.state source.old).held)) }
    ensures next_unread { decided.looks (kind_asked command.now.what) ≡ false → IfOk result (λ s. IsNext (given (recorded old.now) command.now moment (S.outside.state source.old).held) (recorded s)) }
    ensures refused_unread { decided.looks (kind_asked command.now.what) ≡ false → IfBad result (ComesNext (given (recorded old.now) command.now moment (S.outside.state source.old).held)) }
    ensures old_format { IsOldFormat command.now.what old.now.format → result ≡ Err (Bad fault.OldFormat) }
    ensures early { IfBad result (λ why. MayCome (kind_asked command.now.what) why ⊎ IsOldFormat command.now.what old.now.format) }
    ensures reads { Reads S.outside source.old source.new (result ≡ Err (Bad fault.SourceFault)) }
{
    if old.format == 1 && !updates_format(&command.what) {
        return Err(Or::Bad(NextFault::OldFormat));
    }
    if searches(&command.what) {
        return Err(Or::OutOfMemory);
    }
    from_copy(alloc, command, moment, old, source)
}

// The next state, made of a copy of the old one.
fn from_copy<S: Source>(
    alloc: Global,
    command: &Command,
    moment: u64,
    old: &State,
    source: &mut S,
) -> Result<State, Or<NextFault>>
    requires can { CanBeRecorded old.now command.now moment }
    requires format { (old.now.format ≡ 2) ⊎ (command.now.what ≡ UpdateFormat) }
    ensures { IsNextOrCause S.outside (λ state. state) old.now command.now moment source.old source.new result }
{
    match old.copy(alloc) {
        Ok(copy) => changed(alloc, command, moment, old, source, copy),
        Err(_) => Err(Or::OutOfMemory),
    }
}

// The next state, made of this copy.
fn changed<S: Source>(
    alloc: Global,
    command: &Command,
    moment: u64,
    old: &State,
    source: &mut S,
    copy: State,
) -> Result<State, Or<NextFault>>
    requires can { CanBeRecorded old.now command.now moment }
    requires format { (old.now.format ≡ 2) ⊎ (command.now.what ≡ UpdateFormat) }
    requires copy { recorded copy ≡ recorded old.now }
    ensures { IsNextOrCause S.outside (λ state. state) old.now command.now moment source.old source.new result }
{
    let mut next = copy;
    match go_on(alloc, command, moment, old, source, &mut next) {
        Ok(()) => Ok(next),
        Err(Or::Bad(why)) => Err(Or::Bad(why)),
        Err(Or::OutOfMemory) => Err(Or::OutOfMemory),
    }
}

// Whether the command moves the records to the present format.
fn updates_format(what: &What) -> bool
    ensures { IsTrue result ↔ (what.now ≡ UpdateFormat) }
{
    matches!(what, What::UpdateFormat)
}

// Whether the command is a search. It changes nothing, and its words have no line in the history: it is refused like want of memory.
fn searches(what: &What) -> bool
    ensures { result ≡ spec.searches what.now }
{
    matches!(what, What::Search { .. })
}

// Changes the old state to the next one.
fn go_on<S: Source>(
    alloc: Global,
    command: &Command,
    moment: u64,
    old: &State,
    source: &mut S,
    next: &mut State,
) -> Result<(), Or<NextFault>>
    requires can { CanBeRecorded old.now command.now moment }
    requires format { (old.now.format ≡ 2) ⊎ (command.now.what ≡ UpdateFormat) }
    requires copy { recorded next.old ≡ recorded old.now }
    ensures { IsNextOrCause S.outside (λ done. next.new) old.now command.now moment source.old source.new result }
{
    settle(alloc, &command.what, old, source, next)?;
    if is_unchanged(alloc, old, next)? {
        return Err(Or::Bad(NextFault::NothingToDo));
    }
    add_line(alloc, moment, &command.history, &mut next.history)?;
    Ok(())
}

// Changes the old state to what the command means, before its history.
fn settle<S: Source>(
    alloc: Global,
    what: &What,
    old: &State,
    source: &mut S,
    next: &mut State,
) -> Result<(), Or<NextFault>>
    requires lawful { IsLawful (recorded old.now) }
    requires formed { IsFormed what.now }
    requires format { (old.now.format ≡ 2) ⊎ (what.now ≡ UpdateFormat) }
    requires copy { recorded next.old ≡ recorded old.now }
    ensures lawful { OnOk result (IsLawful (recorded next.new)) }
    ensures settled { IsTrue (tells_where (decided.looks (kind_asked what.now)) (S.outside.tells source.old)) → (words : List ℕ) (moment : ℕ) → OnOk result ((asked : Recorded) × IsSettled (record { old = recorded old.now; what = what.now; words = words; moment = moment; held = (S.outside.state source.old).held }) asked (recorded next.new)) }
    ensures refused { IsTrue (tells_where (decided.looks (kind_asked what.now)) (S.outside.tells source.old)) → (words : List ℕ) (moment : ℕ) → IfBad result (ComesNext (record { old = recorded old.now; what = what.now; words = words; moment = moment; held = (S.outside.state source.old).held })) }
    ensures early { IfBad result (MayCome (kind_asked what.now)) }
    ensures reads { Reads S.outside source.old source.new (result ≡ Err (Bad fault.SourceFault)) }
{
    ask(alloc, what, next)?;
    let Chosen { packages, avoid } = decided(alloc, what, old, next, source)?;
    let index = indexed(alloc, what, old.index.is_some(), &packages)?;
    next.installed = packages;
    next.avoid = avoid;
    next.index = index;
    Ok(())
}
