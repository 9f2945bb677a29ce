//! The text of the file `image`.

ghost use Rattle.std.specs.Prelude.{◌≡◌, ◌⊎◌, ◌++◌, IfOk, OnOk, map};
ghost use Rattle.std.specs.List.{flat_map};
ghost use Rattle.ips_records.specs.Lines.{ended, lines_text};
ghost use Rattle.ips_state.specs.State.{recorded, head_of};
ghost use Rattle.ips_state.specs.Text.{head_lines, format_line, publisher_line, origin_line, actuator_lines, variant_line, facet_line};

use crate::printing::push_quoted;
use crate::state::{Origin, State};
use ips_text::Text;
use std::alloc::{AllocError, Global};

/// The text of the file `image`.
pub fn head_text(alloc: Global, state: &State) -> Result<Vec<u8>, AllocError>
    requires { (state.now.format ≡ 1) ⊎ (state.now.format ≡ 2) }
    ensures { IfOk result (λ bytes. bytes.items ≡ lines_text (head_lines (head_of (recorded state.now)))) }
{
    let mut out = Vec::new(alloc);
    push_format(&mut out, state.format)?;
    push_publisher(&mut out, &state.publisher)?;
    push_origins(&mut out, &state.origins)?;
    push_actuator(alloc, &mut out, &state.actuator)?;
    let variants = state.settings.variants(alloc)?;
    push_variants(alloc, &mut out, &variants)?;
    let facets = state.settings.facets(alloc)?;
    push_facets(alloc, &mut out, &facets)?;
    Ok(out)
}

// Writes the format of the records.
fn push_format(out: &mut Vec<u8>, format: u8) -> Result<(), AllocError>
    requires { (format ≡ 1) ⊎ (format ≡ 2) }
    ensures { OnOk result (out.new.items ≡ out.old.items ++ ended (format_line format)) }
{
    if format == 1 {
        out.extend_from_slice(b"image 1\n")
    } else {
        out.extend_from_slice(b"image 2\n")
    }
}

// Writes the publisher.
fn push_publisher(out: &mut Vec<u8>, publisher: &Text) -> Result<(), AllocError>
    ensures { OnOk result (out.new.items ≡ out.old.items ++ ended (publisher_line publisher.now)) }
{
    out.extend_from_slice(b"publisher ")?;
    out.extend_from_slice(publisher.as_str().as_bytes())?;
    out.push(b'\n')?;
    Ok(())
}

// Writes the origins, in order.
fn push_origins(out: &mut Vec<u8>, origins: &[Origin]) -> Result<(), AllocError>
    ensures { OnOk result (out.new.items ≡ out.old.items ++ lines_text (map origin_line origins.now)) }
{
    for origin in origins {
        push_origin(out, origin)?;
    }
    Ok(())
}

// Writes an origin.
fn push_origin(out: &mut Vec<u8>, origin: &Origin) -> Result<(), AllocError>
    ensures { OnOk result (out.new.items ≡ out.old.items ++ ended (origin_line origin.now)) }
{
    out.extend_from_slice(b"origin ")?;
    out.extend_from_slice(origin.name.as_str().as_bytes())?;
    if origin.sticky {
        out.extend_from_slice(b" sticky\n")
    } else {
        out.extend_from_slice(b" free\n")
    }
}

// Writes the actuator word, where one is set.
fn push_actuator(
    alloc: Global,
    out: &mut Vec<u8>,
    actuator: &Option<Text>,
) -> Result<(), AllocError>
    ensures { OnOk result (out.new.items ≡ out.old.items ++ lines_text (actuator_lines actuator.now)) }
{
    match actuator {
        None => Ok(()),
        Some(word) => {
            out.extend_from_slice(b"actuator ")?;
            push_quoted(alloc, out, word.as_str())?;
            out.push(b'\n')?;
            Ok(())
        }
    }
}

// Writes the variants, by name.
fn push_variants(
    alloc: Global,
    out: &mut Vec<u8>,
    variants: &[(&str, &str)],
) -> Result<(), AllocError>
    ensures { OnOk result (out.new.items ≡ out.old.items ++ flat_map (λ v. ended (variant_line (v.0.now, v.1.now))) variants.now) }
{
    for (name, value) in variants {
        push_variant(alloc, out, name, value)?;
    }
    Ok(())
}

// Writes the value of a variant.
fn push_variant(alloc: Global, out: &mut Vec<u8>, name: &str, value: &str) -> Result<(), AllocError>
    ensures { OnOk result (out.new.items ≡ out.old.items ++ ended (variant_line (name.now, value.now))) }
{
    out.extend_from_slice(b"variant ")?;
    push_quoted(alloc, out, name)?;
    out.push(b' ')?;
    push_quoted(alloc, out, value)?;
    out.push(b'\n')?;
    Ok(())
}

// Writes the facets, by pattern.
fn push_facets(alloc: Global, out: &mut Vec<u8>, facets: &[(&str, bool)]) -> Result<(), AllocError>
    ensures { OnOk result (out.new.items ≡ out.old.items ++ flat_map (λ f. ended (facet_line (f.0.now, f.1))) facets.now) }
{
    for (pattern, on) in facets {
        push_facet(alloc, out, pattern, *on)?;
    }
    Ok(())
}

// Writes a facet's pattern, on or off.
fn push_facet(alloc: Global, out: &mut Vec<u8>, pattern: &str, on: bool) -> Result<(), AllocError>
    ensures { OnOk result (out.new.items ≡ out.old.items ++ ended (facet_line (pattern.now, on))) }
{
    out.extend_from_slice(b"facet ")?;
    push_quoted(alloc, out, pattern)?;
    if on {
        out.extend_from_slice(b" true\n")
    } else {
        out.extend_from_slice(b" false\n")
    }
}
