//! The variants and facets that lines set.

ghost use Rattle.std.specs.Prelude.{◌≡◌, IfOk, OnOk};
ghost use Rattle.std.specs.List.{flat_map};
ghost use Rattle.ips_filter.specs.Settings.{IsSet, AreByName};
ghost use Rattle.ips_load.specs.HeadLines.{variant_in, facet_in, AreSet};

use crate::head_lines::HeadLine;
use ips_filter::Settings;
use std::alloc::{AllocError, Global};

/// What the lines set of variants and facets.
pub fn settings_of(alloc: Global, lines: &[HeadLine]) -> Result<Settings, AllocError>
    requires variants { AreByName (flat_map variant_in lines.now) }
    requires facets { AreByName (flat_map facet_in lines.now) }
    ensures variants { IfOk result (λ settings. settings.variants ≡ flat_map variant_in lines.now) }
    ensures facets { IfOk result (λ settings. settings.facets ≡ flat_map facet_in lines.now) }
{
    let mut settings = Settings::new(alloc);
    for line in lines {
        set_line(alloc, &mut settings, line)?;
    }
    in_order(&settings);
    Ok(settings)
}

// Sets what the line does.
fn set_line(alloc: Global, settings: &mut Settings, line: &HeadLine) -> Result<(), AllocError>
    ensures variants { OnOk result (AreSet (variant_in line.now) settings.old.variants settings.new.variants) }
    ensures facets { OnOk result (AreSet (facet_in line.now) settings.old.facets settings.new.facets) }
{
    match line {
        HeadLine::Variant(name, value) => {
            settings.set_variant(alloc, name.as_str(), value.as_str())
        }
        HeadLine::Facet(pattern, on) => settings.set_facet(alloc, pattern.as_str(), Some(*on)),
        _ => Ok(()),
    }
}

// What is set stands by name: each answer of the settings tells so.
fn in_order(settings: &Settings)
    ensures { IsSet settings.now }
{
    let _variant = settings.variant_at(0);
    let _facet = settings.facet_at(0);
}
