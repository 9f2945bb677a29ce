//! The end of a run: its report.

ghost use Rattle.ips_report.specs.Report.{report_text};
ghost use Rattle.ips_tell.specs.telling.Finishing.{IsToldFor};
ghost use Rattle.ips_files.specs.Telling.{Tells};

use crate::telling::late::tell_late;
use ips_files::tell;
use ips_outside::Sink;
use ips_report::{Outcome, Status, report};
use std::alloc::Global;

/// Writes the report of an outcome to the sink. Where memory for it is refused, and the outcome is early, that is told in its place.
pub fn finish<O: Sink>(alloc: Global, outcome: Outcome, out: &mut O) -> Status
    ensures outcome { IsToldFor outcome result.outcome }
    ensures told { Tells O.taking (report_text result.outcome) out.old out.new result.told }
{
    if let Some(told) = tell_late(out, &outcome) {
        return Status { outcome, told };
    }
    match report(alloc, &outcome) {
        Ok(text) => Status {
            told: tell(out, text.as_str().as_bytes()),
            outcome,
        },
        Err(_) => Status {
            told: tell(out, b"out of memory\n"),
            outcome: Outcome::OutOfMemory,
        },
    }
}
