//! The first clash.

ghost use Rattle.std.specs.Prelude.{◌≡◌, ◌<◌, IfOk, MatchOption, length};
ghost use Rattle.std.specs.Option.{ForSome};
ghost use Rattle.ips_conflict.specs.Key.{Key};
ghost use Rattle.ips_conflict.specs.Clash as clashes;
ghost use Rattle.ips_conflict.specs.Clash.{Conflict, IsConflict, IsFirst, told};
ghost use Rattle.ips_conflict.specs.Index.{IsIndex, IsGroup};
ghost use Rattle.ips_conflict.specs.Search.{IsFirstBelow, IsFirstOfText, IsFirstOver, conflict};

use crate::clashing::{Clash, Found, Rule};
use crate::index::Index;
use crate::pairs::first_pair;
use crate::paths::{first_lost, first_obstacle};
use crate::placed::{Placed, Sort};
use ips_text::Text;
use std::alloc::{AllocError, Global};

/// The first clash among the actions that an image takes: the least by the bytes of its key and then by the key's sort, then by
/// its rule, then by the first two actions in the order of packages and lines. None exactly where nothing clashes.
///
/// Of mediated links, those of other mediations than the best are left out before (`ips_mediate`). The entry of a legacy package
/// among the actions tells that the image itself keeps something below `var/sadm/pkg`.
pub fn clash(alloc: Global, placed: &[Placed<'_>]) -> Result<Option<Clash>, AllocError>
    ensures { IfOk result (λ found. MatchOption found ((c : Conflict) → IsConflict placed.now c → ⊥) (λ clash. (c : Conflict) × IsFirst placed.now c × (clash ≡ told placed.now c))) }
{
    let index = Index::new(alloc, placed)?;
    for (text, members) in index.groups.iter() {
        if let Some(clash) = first_of_text(alloc, placed, &index, text.as_str(), members)? {
            return Ok(Some(clash));
        }
    }
    Ok(None)
}

// The first clash over the keys of this text.
fn first_of_text(
    alloc: Global,
    placed: &[Placed<'_>],
    index: &Index,
    text: &str,
    members: &[usize],
) -> Result<Option<Clash>, AllocError>
    requires index { IsIndex placed.now index.now }
    requires group { IsGroup placed.now text.now members.now }
    ensures { IfOk result (λ found. IsFirstOfText placed.now text.now found) }
{
    for rank in 0..6 {
        let sort = Sort::ranked(rank);
        if let Some(found) = first_of_key(alloc, placed, index, text, members, sort)? {
            return Ok(Some(tell(alloc, placed, text, found)?));
        }
    }
    Ok(None)
}

// The first clash over a key.
fn first_of_key(
    alloc: Global,
    placed: &[Placed<'_>],
    index: &Index,
    text: &str,
    members: &[usize],
    sort: Sort,
) -> Result<Option<Found>, AllocError>
    requires index { IsIndex placed.now index.now }
    requires group { IsGroup placed.now text.now members.now }
    ensures { IfOk result (λ found. IsFirstOver placed.now (record { sort = sort; text = text.now }) found) }
{
    if let Some(found) = first_broken(alloc, placed, index, text, members, sort)? {
        return Ok(Some(found));
    }
    if sort.rank() != 0 {
        return Ok(None);
    }
    if let Some((first, second)) = first_obstacle(alloc, placed, index, text, members)? {
        return Ok(Some(Found {
            rule: Rule::Below,
            first,
            second,
        }));
    }
    match first_lost(alloc, placed, index, text, members)? {
        Some((first, second)) => Ok(Some(Found {
            rule: Rule::Target,
            first,
            second,
        })),
        None => Ok(None),
    }
}

// The first clash over a key by a rule that two actions of it break. Most keys have one action, of which nothing is asked.
fn first_broken(
    alloc: Global,
    placed: &[Placed<'_>],
    index: &Index,
    text: &str,
    members: &[usize],
    sort: Sort,
) -> Result<Option<Found>, AllocError>
    requires index { IsIndex placed.now index.now }
    requires group { IsGroup placed.now text.now members.now }
    ensures { IfOk result (λ found. IsFirstBelow placed.now (record { sort = sort; text = text.now }) 4 found) }
{
    if members.len() < 2 {
        return Ok(None);
    }
    for rank in 0..4 {
        let rule = Rule::ranked(rank);
        if let Some((first, second)) = first_pair(
            alloc, placed, index, text, members, sort, rule,
        )? {
            return Ok(Some(Found {
                rule,
                first,
                second: Some(second),
            }));
        }
    }
    Ok(None)
}

// The clash as it is told.
fn tell(alloc: Global, placed: &[Placed<'_>], text: &str, found: Found) -> Result<Clash, AllocError>
    requires first { found.first < length placed.now }
    requires second { ForSome found.second (λ j. j < length placed.now) }
    ensures { IfOk result (λ clash. (key : Key) → key.text ≡ text.now → clash ≡ told placed.now (conflict key found.rule found.first found.second)) }
{
    Ok(Clash {
        key: Text::new(alloc, text)?,
        first: name(alloc, placed, Some(found.first))?,
        second: name(alloc, placed, found.second)?,
        rule: found.rule,
    })
}

// The name of the action at a place, or of the image itself.
fn name(alloc: Global, placed: &[Placed<'_>], place: Option<usize>) -> Result<Text, AllocError>
    requires { ForSome place (λ i. i < length placed.now) }
    ensures { IfOk result (λ name. name ≡ clashes.name_at placed.now place) }
{
    match place {
        Some(i) => name_of(alloc, &placed[i]),
        None => Text::new(alloc, "image:0"),
    }
}

fn name_of(alloc: Global, placed: &Placed<'_>) -> Result<Text, AllocError>
    ensures { IfOk result (λ name. name ≡ clashes.name_of placed.now) }
{
    let mut text = String::from_str(alloc, placed.stem().as_str())?;
    text.push_str(":")?;
    let line = placed.line();
    write!(text, "{line}")?;
    Ok(Text::from_string(text))
}
