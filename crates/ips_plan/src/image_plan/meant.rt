//! What the packages of a state mean.

ghost use Rattle.std.specs.Prelude.{◌≡◌, IfOk, IfSome};
ghost use Rattle.ips_text.specs.Quote.{AreBytes};
ghost use Rattle.ips_text.specs.Reading.{IfBad};
ghost use Rattle.ips_change.specs.wanted.Wanted.{AreLinkBytes, HasLinkBytes};
ghost use Rattle.ips_plan.specs.image_plan.Meaning.{StateFails, StateMeans};

use ips_meaning::{Entry, Want, WantFault, want};
use ips_state::State;
use ips_text::{Or, RelPath};
use std::alloc::Global;

/// What the packages of the state mean, or why they mean no image.
pub fn meaning(alloc: Global, state: &State) -> Result<Want, Or<WantFault>>
    ensures meant { IfOk result (λ want. StateMeans state.now want) }
    ensures refused { IfBad result (StateFails state.now) }
{
    let want = want(alloc, &state.installed, &state.settings, &state.mediators)?;
    links_say_bytes(&want);
    Ok(want)
}

// What symbolic links say is bytes, as each text of a program is.
fn links_say_bytes(want: &Want)
    ensures { AreLinkBytes want.now }
{
    for i in 0..want.len() {
        says_bytes(want.at(i));
    }
}

// The same of one entry.
fn says_bytes(item: Option<(&RelPath, &Entry)>)
    ensures { IfSome item.entry (λ x. HasLinkBytes x.1.now) }
{
    if let Some((_, Entry::Link { target })) = item {
        are_bytes(target.as_str().as_bytes());
    }
}

// Bytes are such, as their type says.
fn are_bytes(bytes: &[u8])
    ensures { AreBytes bytes.now }
{}
