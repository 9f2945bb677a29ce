//! The steps of rows in the order of a plan.

ghost use Rattle.std.specs.Prelude.{◌≡◌, ℕ, List, Bool, IsTrue, OnOk, length, map};
ghost use Rattle.std.specs.List.{AllByRecursion};
ghost use Rattle.std.specs.List.Sorted.{IsStrictlySortedBy};
ghost use Rattle.std.specs.Ordering.{nat_cmp};
ghost use Rattle.std.specs.Cmp.Lexicographic.{slice_cmp};
ghost use Rattle.ips_outside.specs.Image.{Image};
ghost use Rattle.ips_after.specs.Findings.{is_account_path};
ghost use Rattle.ips_after.specs.Request.{IsRequest, Request};
ghost use Rattle.ips_change.specs.survey.Marks.{row_paths};
ghost use Rattle.ips_change.specs.survey.Tables.{IsTable};
ghost use Rattle.ips_laying.specs.Laying.{LaysFor};
ghost use Rattle.ips_emit.specs.Emitted.{HasTarget, IsEmitted, Provenance, Turn};
ghost use Rattle.ips_emptied.specs.Joining.{HasAll, SettlesRows};
ghost use Rattle.ips_image_steps.specs.plan_steps.Drawing.{AddsPlan};

use crate::draft::draft;
use ips_change::survey::Table;
use ips_emit::Emitted;
use ips_emptied::Settled;
use ips_emptied::order::{accounts, order};
use ips_laying::Laying;
use std::alloc::{AllocError, Global};

/// Adds the steps of the rows of a table in the order of a plan: of what account files and records say, else of what becomes of the path.
pub fn draw<L: Laying>(
    alloc: Global,
    emitted: &mut Emitted,
    table: &Table<'_>,
    settled: &Settled<'_>,
    laying: &L,
) -> Result<(), AllocError>
    requires order { IsStrictlySortedBy (slice_cmp nat_cmp) (row_paths table.now.rows.items) }
    requires said { length table.now.said.items ≡ length table.now.rows.items }
    requires whole { HasAll table.now.rows.items settled.now }
    requires targets { AllByRecursion HasTarget settled.now.changes.items }
    ensures { OnOk result ((r : Request) (t : Image) (turns : List Turn) (provenances : List Provenance)
        → IsRequest r → IsTable r table.now.rows.items table.now.said.items → ((q : List ℕ) → r.over.is_account q ≡ is_account_path q)
        → LaysFor r.bytes (L.laid laying.now) r.over → SettlesRows r t table.now.rows.items settled.now
        → IsEmitted r.bytes t turns provenances emitted.old → AddsPlan r t table.now settled.now (L.laid laying.now) turns provenances emitted.new) }
{
    let accounts = accounts(alloc, &table.rows)?;
    let order = order(alloc, table, &settled.supports, &accounts)?;
    draft(
        alloc,
        emitted,
        table,
        &settled.changes,
        &settled.emptied,
        laying,
        &order,
    )
}
