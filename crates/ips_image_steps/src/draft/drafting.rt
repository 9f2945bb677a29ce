//! The steps of rows in an order.

ghost use Rattle.std.specs.Prelude.{◌≡◌, ◌++◌, ◌∷◌, [], ◌<◌, ℕ, Bool, cond, List, Option, Some, OnOk, length, map};
ghost use Rattle.std.specs.List.{AllByRecursion};
ghost use Rattle.std.specs.Option.{option_map};
ghost use Rattle.ips_outside.specs.Image as image;
ghost use Rattle.ips_after.specs.After as after;
ghost use Rattle.ips_after.specs.Change as outcome;
ghost use Rattle.ips_after.specs.Request.{Request};
ghost use Rattle.ips_change.specs.Told.{change_told, naming};
ghost use Rattle.ips_change.specs.survey.Marks.{row_paths};
ghost use Rattle.ips_change.specs.survey.Said.{said_as};
ghost use Rattle.ips_change.specs.survey.Tables.{IsTable};
ghost use Rattle.ips_laying.specs.Laying.{LaysFor, entry_laid};
ghost use Rattle.ips_emptied.specs.order.Chosen.{path_in};
ghost use Rattle.ips_emit.specs.Emitted.{HasTarget, IsEmitted, Provenance, Turn};
ghost use Rattle.ips_image_steps.specs.draft.Drafting.{provenances_at, provenances_in, provenances_laid, turns_of};

use ips_change::Change;
use ips_change::survey::{Said, Table};
use ips_emit::Emitted;
use ips_laying::{Laid, Laying};
use ips_text::RelPath;
use std::alloc::{AllocError, Global};

/// Adds the steps of the rows at these places, in that order: of what account files and records say, else of what becomes of the path, where
/// the directories that are marked are emptied.
pub fn draft<L: Laying>(
    alloc: Global,
    emitted: &mut Emitted,
    table: &Table<'_>,
    changes: &[Change<'_>],
    emptied: &[bool],
    laying: &L,
    order: &[usize],
) -> Result<(), AllocError>
    requires said { length table.now.said.items ≡ length table.now.rows.items }
    requires changes { length changes.now ≡ length table.now.rows.items }
    requires targets { AllByRecursion HasTarget changes.now }
    requires emptied { length emptied.now ≡ length table.now.rows.items }
    requires places { AllByRecursion (λ i. i < length table.now.rows.items) order.now }
    ensures { OnOk result ((r : Request) (t : image.Image) (e : List ℕ → Bool) (turns : List Turn) (provenances : List Provenance)
        → IsTable r table.now.rows.items table.now.said.items → LaysFor r.bytes (L.laid laying.now) r.over
        → map (change_told r.bytes) changes.now ≡ map (after.supported (naming r) t) (row_paths table.now.rows.items)
        → emptied.now ≡ map e (row_paths table.now.rows.items)
        → IsEmitted r.bytes t turns provenances emitted.old
        → IsEmitted r.bytes t (turns ++ turns_of r t e (map (path_in (row_paths table.now.rows.items)) order.now))
        (provenances ++ provenances_in (L.laid laying.now) (row_paths table.now.rows.items) table.now.said.items changes.now emptied.now order.now) emitted.new) }
{
    for i in 0..order.len() {
        let place = order[i];
        add(
            alloc,
            emitted,
            table.rows[place].path,
            table.said[place],
            changes[place],
            emptied[place],
            laying,
        )?;
    }
    Ok(())
}

// Adds the step of a path of which this is said, or else becomes, where its directory is emptied or not.
fn add<L: Laying>(
    alloc: Global,
    emitted: &mut Emitted,
    path: &RelPath,
    said: Option<Said>,
    change: Change<'_>,
    gone: bool,
    laying: &L,
) -> Result<(), AllocError>
    requires { HasTarget change }
    ensures { OnOk result ((bytes : List ℕ → List ℕ) (t : image.Image) (turns : List Turn) (provenances : List Provenance) (o : Option (Option image.Entry))
        → said ≡ said_as o → ((e : image.Entry) → o ≡ Some (Some e) → option_map (entry_laid bytes) (L.laid laying.now path.now.bytes) ≡ Some e)
        → IsEmitted bytes t turns provenances emitted.old
        → IsEmitted bytes t (turns ++ (path.now.bytes, cond gone outcome.Removed (after.over_or o (change_told bytes change.entry))) ∷ []) (provenances ++ provenances_at gone said (L.laid laying.now path.now.bytes) change.entry) emitted.new) }
{
    if gone {
        return emitted.push(alloc, path, Change::Removed);
    }
    match said {
        Some(Said::Lays) => add_laid(alloc, emitted, path, laying),
        Some(Said::Takes) => emitted.push(alloc, path, Change::Removed),
        None => emitted.push(alloc, path, change),
    }
}

// Adds the step of the entry that account files and records lay at the path.
fn add_laid<L: Laying>(
    alloc: Global,
    emitted: &mut Emitted,
    path: &RelPath,
    laying: &L,
) -> Result<(), AllocError>
    ensures { OnOk result ((bytes : List ℕ → List ℕ) (t : image.Image) (turns : List Turn) (provenances : List Provenance) (e : image.Entry) → option_map (entry_laid bytes) (L.laid laying.now path.now.bytes) ≡ Some e
        → IsEmitted bytes t turns provenances emitted.old
        → IsEmitted bytes t (turns ++ (path.now.bytes, outcome.Laid e) ∷ []) (provenances ++ provenances_laid (L.laid laying.now path.now.bytes)) emitted.new) }
{
    match laying.entry(alloc, path)? {
        Some(Laid::Dir { mode }) => emitted.push(alloc, path, Change::Dir { mode }),
        Some(Laid::File { mode, bytes }) => emitted.push_text(alloc, path, mode, bytes),
        Some(Laid::Payload { mode, payload }) => {
            let payload = &payload;
            emitted.push(alloc, path, Change::File { payload, mode })
        }
        None => Ok(()),
    }
}
