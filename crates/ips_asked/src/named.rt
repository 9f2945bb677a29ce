//! Lists that hold one thing under each name, by the bytes of the names.

ghost use Rattle.std.specs.Prelude.{◌≡◌, ℕ, if◌then◌else◌, List, Some, IfOk, OnOk};
ghost use Rattle.std.specs.Option.{option_or};
ghost use Rattle.std.specs.Str.{bytes_eq};
ghost use Rattle.ips_asked.specs.Named.{ArePutIn, latest};
ghost use Rattle.ips_asked.specs.Keyed.{AreKeyed, IsListed, found};

use ips_fmri::Fmri;
use ips_mediate::SetMediator;
use ips_text::Text;
use std::alloc::{AllocError, Global};
use std::collections::BTreeMap;

/// What is listed under a name.
pub trait Named: Drop {
    ghost name_of: { Self → List ℕ };

    /// The name.
    fn name(&self) -> &Text
        ensures { result.now ≡ name_of self.now };

    /// The same.
    fn copied(&self, alloc: Global) -> Result<Self, AllocError>
        ensures { IfOk result (λ copy. copy ≡ self.now) };
}

impl Named for Fmri {
    ghost name_of = { λ f. f.stem };

    fn name(&self) -> &Text {
        &self.stem
    }

    fn copied(&self, alloc: Global) -> Result<Fmri, AllocError> {
        self.copy(alloc)
    }
}

impl Named for SetMediator {
    ghost name_of = { λ m. m.name };

    fn name(&self) -> &Text {
        &self.name
    }

    fn copied(&self, alloc: Global) -> Result<SetMediator, AllocError> {
        self.copy(alloc)
    }
}

/// Puts each of these in the place of what stands under its name.
pub fn put_in<T: Named>(alloc: Global, items: &mut Vec<T>, more: &[T]) -> Result<(), AllocError>
    ensures { OnOk result (ArePutIn T.name_of more.now items.old.items items.new.items) }
{
    let mut by_name = BTreeMap::new(alloc);
    put_each(alloc, &mut by_name, items)?;
    put_each(alloc, &mut by_name, more)?;
    *items = in_order(alloc, by_name)?;
    Ok(())
}

// Puts each of these under its name.
fn put_each<T: Named>(
    alloc: Global,
    by_name: &mut BTreeMap<Text, T>,
    items: &[T],
) -> Result<(), AllocError>
    requires { AreKeyed T.name_of by_name.old.entries }
    ensures found { OnOk result ((name : List ℕ) → found name by_name.new.entries ≡ option_or (latest T.name_of name items.now) (found name by_name.old.entries)) }
    ensures keyed { OnOk result (AreKeyed T.name_of by_name.new.entries) }
{
    for item in items {
        put(alloc, by_name, item)?;
    }
    Ok(())
}

// Puts it under its name.
fn put<T: Named>(alloc: Global, by_name: &mut BTreeMap<Text, T>, item: &T) -> Result<(), AllocError>
    requires { AreKeyed T.name_of by_name.old.entries }
    ensures found { OnOk result ((name : List ℕ) → found name by_name.new.entries ≡ (if bytes_eq (T.name_of item.now) name then Some item.now else found name by_name.old.entries)) }
    ensures keyed { OnOk result (AreKeyed T.name_of by_name.new.entries) }
{
    let name = item.name().copy(alloc)?;
    let copy = item.copied(alloc)?;
    by_name.insert(name, copy)?;
    Ok(())
}

// All of them, by their names.
fn in_order<T: Named>(alloc: Global, by_name: BTreeMap<Text, T>) -> Result<Vec<T>, AllocError>
    requires { AreKeyed T.name_of by_name.entries }
    ensures { IfOk result (λ items. IsListed T.name_of by_name.entries items.items) }
{
    let _length = by_name.len();
    by_name.into_values().collect(alloc)
}
