//! The best links of mediators.

ghost use Rattle.std.specs.Prelude.{◌≡◌, ◌++◌, ◌∷◌, ◌↔◌, [], List, ℕ, Option, true, false, IfOk, OnOk, IsTrue, option_map, if◌then◌else◌};
ghost use Rattle.std.specs.BTreeMap.{get_by_text};
ghost use Rattle.ips_action.specs.Attrs.{is_same};
ghost use Rattle.ips_action.specs.Action.{Fields};
ghost use Rattle.ips_meaning.specs.Taken as taken;
ghost use Rattle.ips_meaning.specs.Offers.{AreChoices, AreLinks, AreSetPlaces, GoesWith, IsChoice, IsOfBest, IsThere, first_place, links_at, offers};

use crate::attributes::mediator;
use ips_action::Action;
use ips_conflict::Placed;
use ips_mediate::{SetMediator, choose, same_mediation};
use std::alloc::{AllocError, Global};
use std::collections::BTreeMap;

/// The links of each mediator, by its name, in their order.
pub fn links(
    alloc: Global,
    admitted: &[Placed<'_>],
) -> Result<BTreeMap<String, Vec<Action>>, AllocError>
    ensures { IfOk result (λ links. AreLinks admitted.now links) }
{
    let mut links = BTreeMap::new(alloc);
    for item in admitted {
        add_link(alloc, &mut links, item.action())?;
    }
    Ok(links)
}

// Puts an action to the links of its mediator, where it has one.
fn add_link(
    alloc: Global,
    links: &mut BTreeMap<String, Vec<Action>>,
    action: &Action,
) -> Result<(), AllocError>
    ensures { OnOk result ((name : List ℕ) → links_at links.new name ≡ (if offers action.now name then links_at links.old name ++ action.now ∷ [] else links_at links.old name)) }
{
    let Some(name) = mediator(action) else {
        return Ok(());
    };
    put(alloc, links, name, action.copy(alloc)?)?;
    Ok(())
}

// Puts a link behind those of a mediator.
fn put(
    alloc: Global,
    links: &mut BTreeMap<String, Vec<Action>>,
    name: &str,
    link: Action,
) -> Result<(), AllocError>
    ensures { OnOk result ((q : List ℕ) → links_at links.new q ≡ (if is_same name.now q then links_at links.old q ++ link ∷ [] else links_at links.old q)) }
{
    let mut group = without(alloc, links, name);
    group.push(link)?;
    let key = String::from_str(alloc, name)?;
    links.insert(key, group)?;
    Ok(())
}

// Takes the links of a mediator away, and gives them.
fn without(alloc: Global, links: &mut BTreeMap<String, Vec<Action>>, name: &str) -> Vec<Action>
    ensures links { result.items ≡ links_at links.old name.now }
    ensures others { (q : List ℕ) → is_same name.now q ≡ false → links_at links.new q ≡ links_at links.old q }
{
    match links.remove(name) {
        Some(group) => group,
        None => Vec::new(alloc),
    }
}

/// The places of what is set, by the names of mediators.
pub fn set_places(
    alloc: Global,
    mediators: &[SetMediator],
) -> Result<BTreeMap<String, usize>, AllocError>
    ensures { IfOk result (λ places. AreSetPlaces mediators.now mediators.now places) }
{
    let mut places = BTreeMap::new(alloc);
    for (i, set) in mediators.iter().enumerate() {
        put_first(alloc, &mut places, set.name.as_str(), i)?;
    }
    Ok(places)
}

// Puts a place at a name that has none.
fn put_first(
    alloc: Global,
    places: &mut BTreeMap<String, usize>,
    name: &str,
    i: usize,
) -> Result<(), AllocError>
    ensures { OnOk result ((q : List ℕ) → get_by_text places.new q ≡ first_place (get_by_text places.old q) (is_same name.now q) i) }
{
    if places.contains_key(name) {
        return Ok(());
    }
    let key = String::from_str(alloc, name)?;
    places.insert(key, i)?;
    Ok(())
}

/// Whether an action is no mediated link, or of the best mediation of its mediator. What is chosen of a mediator is kept, so
/// that each is looked at once.
pub fn is_of_best(
    alloc: Global,
    links: &BTreeMap<String, Vec<Action>>,
    mediators: &[SetMediator],
    places: &BTreeMap<String, usize>,
    choices: &mut BTreeMap<String, Option<Action>>,
    action: &Action,
) -> Result<bool, AllocError>
    requires places { AreSetPlaces mediators.now mediators.now places.now }
    requires choices { AreChoices mediators.now links.now choices.old }
    requires there { IsThere links.now action.now }
    ensures answer { IfOk result (λ answer. IsTrue answer ↔ IsOfBest mediators.now links.now action.now) }
    ensures choices { OnOk result (AreChoices mediators.now links.now choices.new) }
{
    let Some(name) = mediator(action) else {
        return Ok(true);
    };
    if let Some(choice) = choices.get(name) {
        return Ok(goes_with(choice, action));
    }
    let choice = choice(alloc, links, mediators, places, name)?;
    let answer = goes_with(&choice, action);
    let key = String::from_str(alloc, name)?;
    choices.insert(key, choice)?;
    Ok(answer)
}

// A link of the best mediation of a mediator, where one fits what is set.
fn choice(
    alloc: Global,
    links: &BTreeMap<String, Vec<Action>>,
    mediators: &[SetMediator],
    places: &BTreeMap<String, usize>,
    name: &str,
) -> Result<Option<Action>, AllocError>
    requires { AreSetPlaces mediators.now mediators.now places.now }
    ensures { IfOk result (λ choice. IsChoice (links_at links.now name.now) (taken.set_for mediators.now name.now) choice) }
{
    let Some(group) = links.get(name) else {
        return Ok(None);
    };
    match choose(group, set_for(mediators, places, name)) {
        Some(i) => Ok(Some(group[i].copy(alloc)?)),
        None => Ok(None),
    }
}

// What is set of a mediator, where something is.
fn set_for<'a>(
    mediators: &'a [SetMediator],
    places: &BTreeMap<String, usize>,
    name: &str,
) -> Option<&'a SetMediator>
    requires { AreSetPlaces mediators.now mediators.now places.now }
    ensures { option_map (λ set. set.now) result ≡ taken.set_for mediators.now name.now }
{
    match places.get(name) {
        Some(i) => mediators.get(*i),
        None => None,
    }
}

// Whether a link is of the mediation of the chosen one.
fn goes_with(choice: &Option<Action>, action: &Action) -> bool
    ensures { IsTrue result ↔ GoesWith choice.now action.now }
{
    match choice {
        Some(link) => same_mediation(link, action),
        None => false,
    }
}
