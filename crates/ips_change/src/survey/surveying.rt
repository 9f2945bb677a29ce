//! All paths that are or were wanted.

ghost use Rattle.std.specs.Prelude.{◌≡◌, ◌<◌, ◌++◌, ◌∷◌, [], IsTrue, IfOk, OnOk, length, map};
ghost use Rattle.std.specs.List.{AllByRecursion};
ghost use Rattle.ips_outside.specs.Outside.{Reads};
ghost use Rattle.ips_change.specs.content.Failing.{HasFailed};
ghost use Rattle.ips_change.specs.survey.Pairs.{pair_seen};
ghost use Rattle.ips_change.specs.survey.Rows.{AreRows, HasLooked, row_pair};

use crate::stand_at;
use crate::survey::pair::{Pair, first, taken};
use crate::survey::row::Row;
use ips_files::CHUNK;
use ips_folder::Folder;
use ips_meaning::Want;
use ips_outside::Failed;
use ips_text::Or;
use std::alloc::Global;

/// Each path that is or was wanted, in the order of its bytes, with what stands there. One look is made at each path of which a rule asks.
pub fn survey<'a, F: Folder>(
    alloc: Global,
    folder: &mut F,
    old: &'a Want,
    new: &'a Want,
) -> Result<Vec<Row<'a>>, Or<Failed>>
    ensures rows { IfOk result (λ rows. AreRows old.now new.now (map row_pair rows.items)) }
    ensures found { IsTrue (F.outside.tells folder.old) → IfOk result (λ rows. AllByRecursion (HasLooked (F.outside.state folder.old).held) rows.items) }
    ensures reads { Reads F.outside folder.old folder.new (HasFailed result) }
{
    let mut buffer = vec![in alloc; 0u8; CHUNK]?;
    let mut rows = Vec::new(alloc);
    match merge(alloc, folder, old, new, &mut buffer, &mut rows) {
        Ok(()) => Ok(rows),
        Err(fault) => Err(fault),
    }
}

// Adds each path that is or was wanted to no rows.
fn merge<'a, F: Folder>(
    alloc: Global,
    folder: &mut F,
    old: &'a Want,
    new: &'a Want,
    buffer: &mut [u8],
    rows: &mut Vec<Row<'a>>,
) -> Result<(), Or<Failed>>
    requires room { 0 < length buffer.old }
    requires none { rows.old.items ≡ [] }
    ensures rows { OnOk result (AreRows old.now new.now (map row_pair rows.new.items)) }
    ensures found { IsTrue (F.outside.tells folder.old) → OnOk result (AllByRecursion (HasLooked (F.outside.state folder.old).held) rows.new.items) }
    ensures reads { Reads F.outside folder.old folder.new (HasFailed result) }
{
    let olds = old.len();
    let news = new.len();
    let mut i = 0;
    let mut j = 0;
    while let Some(pair) = first(old.at(i), new.at(j)) {
        if let Err(fault) = add(alloc, folder, pair, buffer, rows) {
            return Err(fault);
        }
        i += taken(pair.old);
        j += taken(pair.new);
    }
    Ok(())
}

// Adds a path, with what stands there.
fn add<'a, F: Folder>(
    alloc: Global,
    folder: &mut F,
    pair: Pair<'a>,
    buffer: &mut [u8],
    rows: &mut Vec<Row<'a>>,
) -> Result<(), Or<Failed>>
    requires room { 0 < length buffer.old }
    ensures row { OnOk result (map row_pair rows.new.items ≡ map row_pair rows.old.items ++ pair_seen pair.entry ∷ []) }
    ensures found { IsTrue (F.outside.tells folder.old) → OnOk result (AllByRecursion (HasLooked (F.outside.state folder.old).held) rows.old.items → AllByRecursion (HasLooked (F.outside.state folder.old).held) rows.new.items) }
    ensures reads { Reads F.outside folder.old folder.new (HasFailed result) }
{
    match stand_at(alloc, folder, pair.path, pair.old, pair.new, buffer) {
        Ok(stands) => match rows.push(Row {
            path: pair.path,
            old: pair.old,
            new: pair.new,
            stands,
        }) {
            Ok(()) => Ok(()),
            Err(_) => Err(Or::OutOfMemory),
        },
        Err(fault) => Err(fault),
    }
}
