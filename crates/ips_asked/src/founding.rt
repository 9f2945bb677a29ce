//! The records of an image that is made.

ghost use Rattle.std.specs.Prelude.{◌≡◌, ℕ, List, None, IfOk};
ghost use Rattle.ips_filter.specs.Settings.{IsSet, value_at};
ghost use Rattle.ips_state.specs.State.{recorded};
ghost use Rattle.ips_asked.specs.Founded.{IsFounded};
ghost use Rattle.ips_asked.specs.Set.{facet_behind, variant_behind};

use crate::copying::copy_text;
use crate::setting::{set_facets, set_variants};
use ips_filter::Settings;
use ips_state::State;
use ips_text::Text;
use ips_words::{FacetWord, VariantWord};
use std::alloc::{AllocError, Global};

/// The records of an image that is made with this publisher, these variants and facets, and this actuator word: the second format,
/// and no package, list entry, line of history or index.
pub fn founded(
    alloc: Global,
    publisher: &Text,
    variants: &[VariantWord],
    facets: &[FacetWord],
    actuator: &Option<Text>,
) -> Result<State, AllocError>
    ensures { IfOk result (λ state. IsFounded publisher.now variants.now facets.now actuator.now (recorded state)) }
{
    let settings = settings_of(alloc, variants, facets)?;
    let publisher = publisher.copy(alloc)?;
    let actuator = copy_text(alloc, actuator)?;
    Ok(State {
        format: 2,
        publisher,
        origins: Vec::new(alloc),
        actuator,
        settings,
        installed: Vec::new(alloc),
        avoid: Vec::new(alloc),
        freeze: Vec::new(alloc),
        mediators: Vec::new(alloc),
        history: Vec::new(alloc),
        index: None,
    })
}

// What the words set of variants and facets.
fn settings_of(
    alloc: Global,
    variants: &[VariantWord],
    facets: &[FacetWord],
) -> Result<Settings, AllocError>
    ensures ordered { IfOk result IsSet }
    ensures variants { IfOk result (λ settings. (name : List ℕ) → value_at settings.variants name ≡ variant_behind name None variants.now) }
    ensures facets { IfOk result (λ settings. (name : List ℕ) → value_at settings.facets name ≡ facet_behind name None facets.now) }
{
    let mut settings = Settings::new(alloc);
    set_variants(alloc, &mut settings, variants)?;
    set_facets(alloc, &mut settings, facets)?;
    Ok(settings)
}
