//! Files that list one item a line.

ghost use Rattle.std.specs.Prelude.{◌≡◌, ◌<◌, ◌≤◌, ◌+◌, ◌↔◌, ◌∷◌, ◌++◌, ℕ, List, IsTrue, IfOk, IfNone, IfSome, length, map};
ghost use Rattle.std.specs.List.{AllByRecursion};
ghost use Rattle.ips_text.specs.Reading.{IfBad};
ghost use Rattle.ips_records.specs.Lines.{lines_in, ended, IsFirstBadLine};
ghost use Rattle.ips_records.specs.Listed.{Chain, Sole, IsListed, MayEnd, NoneNext};

use crate::splitting::next_line;
use ips_text::Or;
use std::alloc::{AllocError, Global};

/// A kind of file that lists one item a line.
pub trait Listing {
    /// What it lists.
    type Item: Drop;

    /// The line of an item, without its newline.
    ghost line: { Self.Item → List ℕ };

    /// Which items it may list.
    ghost fits: { Self.Item → Type 0 };

    /// Whether the second item may stand behind the first.
    ghost follows: { Self.Item → Self.Item → Type 0 };

    /// The item of a line, where it is one's.
    fn read(alloc: Global, bytes: &[u8]) -> Result<Option<Self::Item>, AllocError>
        ensures sole { IfOk result (λ found. IfSome found (Sole line fits)) }
        ensures of_line { IfOk result (λ found. IfSome found (λ item. line item ≡ bytes.now)) }
        ensures none { IfOk result (λ found. IfNone found ((item : Self.Item) → fits item → line item ≡ bytes.now → ⊥)) };

    /// Whether an item may stand behind another.
    fn may_follow(earlier: &Self::Item, later: &Self::Item) -> bool
        ensures { IsTrue result ↔ follows earlier.now later.now };
}

/// The items that the text lists, or the number of the first line that no such file has there.
pub fn read_list<L: Listing>(alloc: Global, bytes: &[u8]) -> Result<Vec<L::Item>, Or<u64>>
    ensures sole { IfOk result (λ items. AllByRecursion (Sole L.line L.fits) items.items) }
    ensures chain { IfOk result (λ items. Chain L.follows items.items) }
    ensures lines { IfOk result (λ items. lines_in bytes.now ≡ map ended (map L.line items.items)) }
    ensures bad { IfBad result (λ number. IsFirstBadLine (IsListed L.line L.fits L.follows) (lines_in bytes.now) number) }
{
    let (items, rest) = read_front::<L>(alloc, bytes)?;
    if rest.is_empty() {
        Ok(items)
    } else {
        Err(Or::Bad(items.len() as u64 + 1))
    }
}

/// The items of the lines at the front of the text, as far as one can stand behind the other, and what is left of the text:
/// nothing, or lines of which none lists an item that can come next.
pub fn read_front<L: Listing>(
    alloc: Global,
    bytes: &[u8],
) -> Result<(Vec<L::Item>, &[u8]), AllocError>
    ensures sole { IfOk result (λ x. AllByRecursion (Sole L.line L.fits) x.0.items) }
    ensures chain { IfOk result (λ x. Chain L.follows x.0.items) }
    ensures lines { IfOk result (λ x. lines_in bytes.now ≡ map ended (map L.line x.0.items) ++ lines_in x.1.now) }
    ensures room { IfOk result (λ x. length x.0.items + length x.1.now ≤ length bytes.now) }
    ensures ends { IfOk result (λ x. 0 < length x.1.now → NoneNext L.line L.fits L.follows x.0.items (lines_in x.1.now)) }
{
    let mut items: Vec<L::Item> = Vec::new(alloc);
    let mut rest = bytes;
    while !rest.is_empty() {
        let Some((item, behind)) = next_item::<L>(alloc, &items, rest)? else {
            return Ok((items, rest));
        };
        items.push(item)?;
        rest = behind;
    }
    Ok((items, rest))
}

// The item of the next line, which may stand behind these, and what stands behind the line. None where there is no such item.
fn next_item<'a, L: Listing>(
    alloc: Global,
    items: &[L::Item],
    rest: &'a [u8],
) -> Result<Option<(L::Item, &'a [u8])>, AllocError>
    requires { 0 < length rest.now }
    ensures sole { IfOk result (λ found. IfSome found (λ x. Sole L.line L.fits x.0)) }
    ensures follows { IfOk result (λ found. IfSome found (λ x. MayEnd L.follows items.now x.0)) }
    ensures lines { IfOk result (λ found. IfSome found (λ x. lines_in rest.now ≡ ended (L.line x.0) ∷ lines_in x.1.now)) }
    ensures shorter { IfOk result (λ found. IfSome found (λ x. length x.1.now < length rest.now)) }
    ensures none { IfOk result (λ found. IfNone found (NoneNext L.line L.fits L.follows items.now (lines_in rest.now))) }
{
    let Some((line, behind)) = next_line(rest) else {
        return Ok(None);
    };
    let Some(item) = L::read(alloc, line)? else {
        return Ok(None);
    };
    if may_end::<L>(items, &item) {
        Ok(Some((item, behind)))
    } else {
        Ok(None)
    }
}

// Whether the item may stand behind these.
fn may_end<L: Listing>(items: &[L::Item], item: &L::Item) -> bool
    ensures { IsTrue result ↔ MayEnd L.follows items.now item.now }
{
    match items.split_last() {
        None => true,
        Some((last, _)) => L::may_follow(last, item),
    }
}
