//! Variants and facets that words set.

ghost use Rattle.std.specs.Prelude.{◌≡◌, [], ◌∷◌, OnOk};
ghost use Rattle.ips_filter.specs.Settings.{IsSet};
ghost use Rattle.ips_asked.specs.Set.{AreFacetsSet, AreVariantsSet};

use ips_filter::Settings;
use ips_text::Text;
use ips_words::{FacetWord, VariantWord};
use std::alloc::{AllocError, Global};

/// Sets facets as the words say.
pub fn set_facets(
    alloc: Global,
    settings: &mut Settings,
    words: &[FacetWord],
) -> Result<(), AllocError>
    ensures { OnOk result (AreFacetsSet words.now settings.old settings.new) }
{
    for word in words {
        settings.set_facet(alloc, word.name.as_str(), word.on)?;
    }
    in_order(settings);
    Ok(())
}

/// Sets variants as the words say.
pub fn set_variants(
    alloc: Global,
    settings: &mut Settings,
    words: &[VariantWord],
) -> Result<(), AllocError>
    ensures { OnOk result (AreVariantsSet words.now settings.old settings.new) }
{
    for word in words {
        settings.set_variant(alloc, word.name.as_str(), word.value.as_str())?;
    }
    in_order(settings);
    Ok(())
}

/// Sets a variant to a value.
pub fn set_variant(
    alloc: Global,
    settings: &mut Settings,
    name: &Text,
    value: &Text,
) -> Result<(), AllocError>
    ensures { OnOk result (AreVariantsSet (record { name = name.now; value = value.now } ∷ []) settings.old settings.new) }
{
    settings.set_variant(alloc, name.as_str(), value.as_str())?;
    in_order(settings);
    Ok(())
}

// What is set stands by name: each answer of the settings tells so.
fn in_order(settings: &Settings)
    ensures { IsSet settings.now }
{
    let _variant = settings.variant_at(0);
    let _facet = settings.facet_at(0);
}
