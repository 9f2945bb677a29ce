//! The paths of account files.

ghost use Rattle.std.specs.Prelude.{◌≡◌, IfOk, map};
ghost use Rattle.ips_after.specs.Findings.{is_account_path};
ghost use Rattle.ips_change.specs.survey.Marks.{row_paths};

use ips_change::content::is_same;
use ips_change::survey::Row;
use std::alloc::{AllocError, Global};

/// At each row whether its path is that of an account file.
pub fn accounts(alloc: Global, rows: &[Row<'_>]) -> Result<Vec<bool>, AllocError>
    ensures { IfOk result (λ marks. marks.items ≡ map is_account_path (row_paths rows.now)) }
{
    let mut marks = Vec::with_capacity(alloc, rows.len())?;
    for row in rows {
        marks.push(is_account(row.path.bytes()))?;
    }
    Ok(marks)
}

// Whether the path is that of an account file.
fn is_account(path: &[u8]) -> bool
    ensures { result ≡ is_account_path path.now }
{
    is_same(b"etc/passwd", path) || is_same(b"etc/shadow", path) || is_same(b"etc/group", path)
}
