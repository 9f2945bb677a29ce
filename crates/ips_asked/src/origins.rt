//! The publishers whose packages an image may take.

ghost use Rattle.std.specs.Prelude.{◌≡◌, OnOk, position};
ghost use Rattle.std.specs.Str.{bytes_eq};
ghost use Rattle.ips_state.specs.declared.state.Origin as declared;
ghost use Rattle.ips_asked.specs.Origins as spec;
ghost use Rattle.ips_asked.specs.Origins.{origins_changed, origins_set, origins_unset, with_origin, without_origin};

use ips_state::Origin;
use ips_text::Text;
use std::alloc::{AllocError, Global};

/// Changes a publisher of the list, or adds it.
pub fn set_origin(
    alloc: Global,
    origins: &mut Vec<Origin>,
    publisher: &Text,
    name: &Text,
    first: bool,
    sticky: Option<bool>,
) -> Result<(), AllocError>
    ensures { OnOk result (origins.new.items ≡ origins_set publisher.now name.now first sticky origins.old.items) }
{
    if origins.is_empty() {
        if name == publisher && sticky.unwrap_or(true) {
            return Ok(());
        }
        origins.push(Origin {
            name: publisher.copy(alloc)?,
            sticky: true,
        })?;
    }
    change_origin(alloc, origins, name, first, sticky)
}

// Changes the publisher of a list that isn't empty, or adds it.
fn change_origin(
    alloc: Global,
    origins: &mut Vec<Origin>,
    name: &Text,
    first: bool,
    sticky: Option<bool>,
) -> Result<(), AllocError>
    ensures { OnOk result (origins.new.items ≡ origins_changed name.now first sticky origins.old.items) }
{
    let origin = Origin {
        name: name.copy(alloc)?,
        sticky: sticky.unwrap_or(sticky_in(origins, name)),
    };
    if first {
        without(origins, name);
        origins.insert(0, origin)?;
        Ok(())
    } else {
        put(origins, name, origin)
    }
}

// Whether packages stay with the publisher.
fn sticky_in(origins: &[Origin], name: &Text) -> bool
    ensures { result ≡ spec.sticky_in name.now origins.now }
{
    match place_of(origins, name) {
        Some(place) => origins[place].sticky,
        None => true,
    }
}

// Puts the origin in the place of the one of its name, or else last.
fn put(origins: &mut Vec<Origin>, name: &Text, origin: Origin) -> Result<(), AllocError>
    requires { origin.name ≡ name.now }
    ensures { OnOk result (origins.new.items ≡ with_origin origin origins.old.items) }
{
    match place_of(origins, name) {
        Some(place) => {
            origins[place] = origin;
            Ok(())
        }
        None => {
            origins.push(origin)?;
            Ok(())
        }
    }
}

// The place of the publisher in the list.
fn place_of(origins: &[Origin], name: &Text) -> Option<usize>
    ensures { result ≡ position (λ (o : declared.Origin). bytes_eq o.name name.now) origins.now }
{
    origins.iter().position(|origin| origin.name == *name)
}

/// Takes the publisher from the list, unless it is the image's own.
pub fn unset_origin(origins: &mut Vec<Origin>, publisher: &Text, name: &Text)
    ensures { origins.new.items ≡ origins_unset publisher.now name.now origins.old.items }
{
    if name != publisher {
        without(origins, name);
    }
}

// Takes the publisher from the list.
fn without(origins: &mut Vec<Origin>, name: &Text)
    ensures { origins.new.items ≡ without_origin name.now origins.old.items }
{
    origins.retain(|origin| origin.name != *name);
}
