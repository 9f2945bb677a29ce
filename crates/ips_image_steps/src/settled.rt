//! What becomes of each path, and the steps from there.

ghost use Rattle.std.specs.Prelude.{◌≡◌, [], ℕ, List, IsTrue, IfOk};
ghost use Rattle.std.specs.List.{AllByRecursion};
ghost use Rattle.ips_outside.specs.Image.{Image};
ghost use Rattle.ips_outside.specs.Outside.{Reads};
ghost use Rattle.ips_after.specs.Request.{Request};
ghost use Rattle.ips_aside.specs.lost_and_found.Moments.{NamesMoment};
ghost use Rattle.ips_change.specs.content.Failing.{HasFailed};
ghost use Rattle.ips_change.specs.survey.Rows.{HasLooked};
ghost use Rattle.ips_emit.specs.Emitted.{IsEmitted};
ghost use Rattle.ips_image_steps.specs.Asked.{HasOwnFolder, HasRequest, IsAsked};
ghost use Rattle.ips_image_steps.specs.Answers.{IsAnswer};

use crate::saved::add_settled;
use ips_change::survey::Table;
use ips_emit::Emitted;
use ips_emptied::settle;
use ips_folder::Folder;
use ips_laying::Laying;
use ips_outside::Failed;
use ips_text::{Or, RelPath};
use std::alloc::Global;

/// Adds the steps of the request of the table to none, or answers the path at which it can't be carried out.
pub(crate) fn add_steps<F: Folder, L: Laying>(
    alloc: Global,
    folder: &mut F,
    table: &Table<'_>,
    laying: &L,
    moment: &str,
    emitted: &mut Emitted,
) -> Result<Option<RelPath>, Or<Failed>>
    requires moment { NamesMoment moment.now }
    requires request { HasRequest table.now.rows.items table.now.said.items }
    requires looked { IsTrue (F.outside.tells folder.old) → AllByRecursion (HasLooked (F.outside.state folder.old).held) table.now.rows.items }
    requires none { (bytes : List ℕ → List ℕ) (t : Image) → IsEmitted bytes t [] [] emitted.old }
    ensures told { IsTrue (F.outside.tells folder.old) → IfOk result (λ hindrance. (r : Request) → IsAsked (L.laid laying.now) table.now.rows.items table.now.said.items r → HasOwnFolder r (F.outside.state folder.old).held
        → IsAnswer moment.now r (F.outside.state folder.old).held hindrance emitted.new) }
    ensures reads { Reads F.outside folder.old folder.new (HasFailed result) }
{
    let settled = settle(alloc, folder, table)?;
    add_settled(alloc, folder, table, laying, moment, &settled, emitted)
}
