//! The table of clashes, and what it says of two actions of one key.

ghost use Rattle.std.specs.Prelude.{◌≡◌, true, IfOk};
ghost use Rattle.ips_conflict.specs.Verdict as spec;
ghost use Rattle.ips_conflict.specs.Verdict.{IsClashTable};

use crate::alike::{alike, kind_place, overlaid, same_mediator};
use crate::clashing::Rule;
use crate::placed::is_link;
use ips_action::Action;
use ips_cases::{Cases, Row};
use std::alloc::{AllocError, Global};

const DIR: u32 = 1;

const FILE: u32 = 2;

const LINK: u32 = 4;

const HARDLINK: u32 = 8;

const USER: u32 = 16;

const GROUP: u32 = 32;

const DRIVER: u32 = 64;

const LEGACY: u32 = 128;

const LICENSE: u32 = 256;

const KINDS: u32 = 511;

// Sets of answers: no, yes, either.
const NO: u32 = 1;

const YES: u32 = 2;

const EITHER: u32 = 3;

/// The table of clashes over the kinds of two actions, whether they are alike, and whether one file overlays the other. Its values
/// are the ranks of the rules that are broken, or 0.
pub fn table() -> Cases<27>
    ensures { IsClashTable result }
{
    // Two actions of one kind that is no file, and two of different kinds.
    macro_rules! rows {
        ($($kind:ident)*) => {
            [
                $(
                    Row { sets: [$kind, KINDS - $kind, EITHER, EITHER], value: 1 },
                    Row { sets: [$kind, $kind, NO, EITHER], value: 2 },
                    Row { sets: [$kind, $kind, YES, EITHER], value: 0 },
                )*
                Row { sets: [FILE, KINDS - FILE, EITHER, EITHER], value: 1 },
                Row { sets: [FILE, FILE, EITHER, NO], value: 3 },
                Row { sets: [FILE, FILE, EITHER, YES], value: 0 },
            ]
        };
    }
    let rows = rows!(DIR LINK HARDLINK USER GROUP DRIVER LEGACY LICENSE);
    match Cases::new(rows, [9, 9, 2, 2]) {
        Some(table) => table,
        None => unreachable!(),
    }
}

/// Whether two actions of one key break the rule.
pub fn breaks(
    alloc: Global,
    table: &Cases<27>,
    rule: Rule,
    a: &Action,
    b: &Action,
) -> Result<bool, AllocError>
    requires table { IsClashTable table.now }
    requires a { spec.has_place a.now ≡ true }
    requires b { spec.has_place b.now ≡ true }
    ensures { IfOk result (λ answer. answer ≡ spec.breaks rule a.now b.now) }
{
    match rule {
        Rule::Mediator => Ok(differ_in_mediator(a, b)),
        Rule::Kinds | Rule::Attributes | Rule::Deliverers => {
            Ok(verdict(alloc, table, a, b)? == rule.rank())
        }
        Rule::Below | Rule::Target => Ok(false),
    }
}

// What the table says of two actions.
fn verdict(alloc: Global, table: &Cases<27>, a: &Action, b: &Action) -> Result<u8, AllocError>
    requires table { IsClashTable table.now }
    requires a { spec.has_place a.now ≡ true }
    requires b { spec.has_place b.now ≡ true }
    ensures { IfOk result (λ value. value ≡ spec.verdict a.now b.now) }
{
    let likeness = alike(alloc, a, b)?;
    let overlay = overlaid(a, b);
    let key = [
        kind_place(a.kind),
        kind_place(b.kind),
        u8::from(likeness),
        u8::from(overlay),
    ];
    Ok(table.find(key))
}

// Whether two actions are links of different mediators, or of which one has none.
fn differ_in_mediator(a: &Action, b: &Action) -> bool
    ensures { result ≡ spec.differ_in_mediator a.now b.now }
{
    if !is_link(a.kind) {
        return false;
    }
    if !is_link(b.kind) {
        return false;
    }
    !same_mediator(a, b)
}
