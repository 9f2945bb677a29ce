//! What account files and records take away.

ghost use Rattle.std.specs.Prelude.{◌≡◌, IfOk, length};
ghost use Rattle.ips_after.specs.Request.{Request, takes};
ghost use Rattle.ips_change.specs.survey.Marks.{IsMarkOf, row_paths};
ghost use Rattle.ips_change.specs.survey.Tables.{IsTable};
ghost use Rattle.ips_salvage.specs.Destroying.{says_taken};

use ips_change::survey::{Said, Table};
use std::alloc::{AllocError, Global};

/// The marks of the rows at which account files and records take away what stands.
pub fn taken_away(alloc: Global, table: &Table<'_>) -> Result<Vec<bool>, AllocError>
    requires said { length table.now.said.items ≡ length table.now.rows.items }
    ensures long { IfOk result (λ away. length away.items ≡ length table.now.rows.items) }
    ensures marks { IfOk result (λ away. (r : Request) → IsTable r table.now.rows.items table.now.said.items → IsMarkOf (λ q. takes (r.over.at q)) (row_paths table.now.rows.items) away.items) }
{
    let mut away = Vec::with_capacity(alloc, table.said.len())?;
    for i in 0..table.said.len() {
        away.push(is_taken_away(table.said[i]))?;
    }
    Ok(away)
}

// Whether what stands is taken away.
fn is_taken_away(said: Option<Said>) -> bool
    ensures { result ≡ says_taken said }
{
    matches!(said, Some(Said::Takes))
}
