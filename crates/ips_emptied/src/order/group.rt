//! The groups of a plan's order.

ghost use Rattle.std.specs.Prelude.{◌≡◌, ◌||◌, ◌&&◌, is_some, is_none};
ghost use Rattle.std.specs.Option.{option_map};
ghost use Rattle.ips_after.specs.Request as after;
ghost use Rattle.ips_change.specs.wanted.Wanted.{wanted_of};
ghost use Rattle.ips_emptied.specs.order.Groups as spec;

use ips_change::survey::Said;
use ips_meaning::Entry;

/// The groups of a plan's order, in that order.
#[derive(Clone, Copy)]
pub(crate) enum Group {
    /// What is only old.
    Gone,
    /// Directories that were wanted and are.
    OldDirs,
    /// Files and symbolic links at paths that were wanted and are.
    OldOthers,
    /// Directories that are wanted and weren't.
    NewDirs,
    /// Files and symbolic links at paths that are wanted and weren't.
    NewOthers,
    /// Account files, and the directories that are made for them alone.
    Accounts,
    /// Hard links.
    Hards,
    /// Records, and the directories that are made for them alone.
    Records,
}

/// A path, as far as the order of a plan depends on it.
#[derive(Drop)]
pub(crate) struct Facts<'a> {
    /// What was wanted.
    pub(crate) old: Option<&'a Entry>,
    /// What is wanted.
    pub(crate) new: Option<&'a Entry>,
    /// What account files and records say.
    pub(crate) said: Option<Said>,
    /// Whether a directory is made there for what is made below.
    pub(crate) support: bool,
    /// Whether it is the path of an account file.
    pub(crate) account: bool,
    /// Whether an account file is laid below.
    pub(crate) above: bool,
}

/// Whether the path's step stands in this group.
pub(crate) fn is_in(group: Group, facts: &Facts<'_>) -> bool
    ensures { result ≡ spec.belongs group (option_map (λ x. wanted_of x.now) facts.now.old) (option_map (λ x. wanted_of x.now) facts.now.new) facts.now.said facts.now.support facts.now.account facts.now.above }
{
    let was = facts.old.is_some();
    match group {
        Group::Gone => was && facts.new.is_none() && !is_apart(facts),
        Group::OldDirs => was && is_dir(facts.new),
        Group::OldOthers => was && is_other(facts),
        Group::NewDirs => !was && is_dir(facts.new),
        Group::NewOthers => !was && is_other(facts),
        Group::Accounts => is_early(facts),
        Group::Hards => is_hard(facts.new),
        Group::Records => is_apart(facts) && !is_early(facts),
    }
}

// Whether a directory is wanted.
fn is_dir(new: Option<&Entry>) -> bool
    ensures { result ≡ after.is_dir_wanted (option_map (λ x. wanted_of x.now) new.entry) }
{
    matches!(new, Some(Entry::Dir { .. }))
}

// Whether one more name of a file is wanted.
fn is_hard(new: Option<&Entry>) -> bool
    ensures { result ≡ after.is_hard_wanted (option_map (λ x. wanted_of x.now) new.entry) }
{
    matches!(new, Some(Entry::Hard { .. }))
}

// Whether a file or symbolic link is wanted of which nothing is said.
fn is_other(facts: &Facts<'_>) -> bool
    ensures { result ≡ spec.wants_rest (option_map (λ x. wanted_of x.now) facts.now.new) facts.now.said }
{
    facts.new.is_some() && !is_dir(facts.new) && !is_hard(facts.new) && facts.said.is_none()
}

// Whether a directory is made there that no one wants.
fn is_spare(facts: &Facts<'_>) -> bool
    ensures { result ≡ (is_none facts.now.new && facts.now.support) }
{
    facts.new.is_none() && facts.support
}

// Whether the step stands among those of account files and records.
fn is_apart(facts: &Facts<'_>) -> bool
    ensures { result ≡ (is_some facts.now.said || (is_none facts.now.new && facts.now.support)) }
{
    facts.said.is_some() || is_spare(facts)
}

// Whether the step stands among those of account files.
fn is_early(facts: &Facts<'_>) -> bool
    ensures { result ≡ spec.comes_early facts.now.said (is_none facts.now.new && facts.now.support) facts.now.account facts.now.above }
{
    match facts.said {
        Some(_) => facts.account,
        None => is_spare(facts) && facts.above,
    }
}
