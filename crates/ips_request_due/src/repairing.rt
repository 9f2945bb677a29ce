//! What a repair makes due.

ghost use Rattle.std.specs.Prelude.{◌≡◌, ◌∷◌, [], IfOk, map};
ghost use Rattle.ips_records.specs.Lines.{lines_text};
ghost use Rattle.ips_state.specs.State.{recorded};
ghost use Rattle.ips_state.specs.Lawful.{IsLawful};
ghost use Rattle.ips_state.specs.Records.{history_path};
ghost use Rattle.ips_due.specs.Due.{HasProperDue, IsDue, Own};
ghost use Rattle.ips_due.specs.outstanding.Parts.{due_record};
ghost use Rattle.ips_request_due.specs.repairs.Repairing as spec;

use crate::kept::KeptDue;
use crate::repairs::repairs_hang_together;
use ips_due::outstanding::{Content, DueRecord};
use ips_load::path_of;
use ips_state::{State, texts_text};
use std::alloc::{AllocError, Global};

/// What is due behind a repair that leaves this state: the history alone. It hangs together, and has proper parts.
pub fn repair_due<'a>(alloc: Global, new: &'a State) -> Result<KeptDue<'a>, AllocError>
    requires { IsLawful (recorded new.now) }
    ensures due { IfOk result (λ made. made ≡ spec.repair_due new.now.history.items) }
    ensures together { IfOk result IsDue }
    ensures proper { IfOk result HasProperDue }
{
    repairs_hang_together();
    of_state(alloc, new)
}

// The same, as it is made.
fn of_state<'a>(alloc: Global, new: &'a State) -> Result<KeptDue<'a>, AllocError>
    requires { IsLawful (recorded new.now) }
    ensures { IfOk result (λ made. made ≡ spec.repair_due new.now.history.items) }
{
    let others = history(alloc, new)?;
    Ok(KeptDue {
        accounts: &[],
        state: new,
        places: Vec::new(alloc),
        others,
        renewed: Vec::new(alloc),
        folders: Vec::new(alloc),
        gone: Vec::new(alloc),
    })
}

// The record of the history.
fn history(alloc: Global, new: &State) -> Result<Vec<DueRecord>, AllocError>
    ensures { IfOk result (λ records. map due_record records.items ≡ (history_path, Own (lines_text new.now.history.items)) ∷ []) }
{
    repairs_hang_together();
    let path = path_of(alloc, b"var/pkg/history")?;
    let text = texts_text(alloc, &new.history)?;
    let mut records = Vec::new(alloc);
    records.push(DueRecord {
        path,
        content: Content::Own(text),
    })?;
    Ok(records)
}
