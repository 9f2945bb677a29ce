//! What is taken out of lists.

ghost use Rattle.std.specs.Prelude.{◌≡◌, ℕ, not, List, filter, IfOk, OnOk};
ghost use Rattle.std.specs.Str.{bytes_eq};
ghost use Rattle.ips_fmri.specs.declared.fmri.Fmri as declared;
ghost use Rattle.ips_mediate.specs.declared.set.SetMediator as mediate;
ghost use Rattle.ips_request.specs.Stems.{has, stems_of};

use indexmap::IndexSet;
use ips_fmri::Fmri;
use ips_mediate::SetMediator;
use ips_request::add_texts;
use ips_text::Text;
use std::alloc::{AllocError, Global};

/// Takes these stems away.
pub fn remove_stems(alloc: Global, items: &mut Vec<Text>, stems: &[Text]) -> Result<(), AllocError>
    ensures { OnOk result (items.new.items ≡ filter (λ stem. not (has stem stems.now)) items.old.items) }
{
    let gone = index_of(alloc, stems)?;
    items.retain(|stem| !is_in(&gone, stem));
    Ok(())
}

/// Takes the freezes of these stems away.
pub fn remove_freezes(
    alloc: Global,
    items: &mut Vec<Fmri>,
    stems: &[Text],
) -> Result<(), AllocError>
    ensures { OnOk result (items.new.items ≡ filter (λ (f : declared.Fmri). not (has f.stem stems.now)) items.old.items) }
{
    let gone = index_of(alloc, stems)?;
    items.retain(|freeze| !is_in(&gone, &freeze.stem));
    Ok(())
}

/// Takes the setting of the mediator away.
pub fn remove_mediator(items: &mut Vec<SetMediator>, name: &Text)
    ensures { items.new.items ≡ filter (λ (m : mediate.SetMediator). not (bytes_eq m.name name.now)) items.old.items }
{
    items.retain(|mediator| mediator.name != *name);
}

/// The stems, to be looked up.
pub fn index_of(alloc: Global, stems: &[Text]) -> Result<IndexSet<String>, AllocError>
    ensures { IfOk result (λ index. (stem : List ℕ) → has stem (stems_of index.keys) ≡ has stem stems.now) }
{
    let mut index = IndexSet::new(alloc);
    add_texts(alloc, &mut index, stems)?;
    Ok(index)
}

/// Whether the stem is one of these.
pub fn is_in(index: &IndexSet<String>, stem: &Text) -> bool
    ensures { result ≡ has stem.now (stems_of index.now.keys) }
{
    index.contains(stem.as_str())
}
