//! The report of an outcome.

ghost use Rattle.std.specs.Prelude.{◌≡◌, ◌≤◌, [], IfOk, length};
ghost use Rattle.ips_report.specs.Report.{IsLate, report_text};

use crate::outcome::Outcome;
use crate::paper::Paper;
use crate::telling::{put_late, put_outcome};
use ips_text::Text;
use std::alloc::{AllocError, Global};
use std::marker::Model;

/// The report of an outcome.
pub fn report(alloc: Global, outcome: &Outcome) -> Result<Text, AllocError>
    ensures { IfOk result (λ text. text ≡ report_text outcome.now) }
{
    let mut paper = Paper::with_room(alloc, 0)?;
    put_outcome(alloc, &mut paper, outcome)?;
    paper.finish()
}

/// A page with room for a report, on which that of an outcome behind the first change is written without memory. Contracts see its
/// text and its room in bytes.
#[derive(Drop)]
pub struct Page {
    paper: Paper,
}

impl Model for Page {
    ghost use Rattle.std.specs.Prelude.{◌≤◌, length};
    ghost use Rattle.ips_report.specs.Written.{Written};

    ghost Value = { Written };

    ghost view = { λ p. p.paper };

    ghost invariant = { λ p. length p.paper.text ≤ p.paper.room };
}

impl Page {
    /// An empty page with room for so many bytes.
    pub fn with_room(alloc: Global, room: usize) -> Result<Page, AllocError>
        ensures { IfOk result (λ p. p ≡ record { text = []; room = room }) }
    {
        Ok(Page {
            paper: Paper::with_room(alloc, room)?,
        })
    }

    /// Makes the page's text the report of an outcome. It has to be one that may come behind the first change, and to fit.
    pub fn write(&mut self, outcome: &Outcome)
        requires late { IsLate outcome.now }
        requires fits { length (report_text outcome.now) ≤ self.old.room }
        ensures text { self.new.text ≡ report_text outcome.now }
        ensures room { self.new.room ≡ self.old.room }
    {
        self.paper.clear();
        put_late(&mut self.paper, outcome);
    }

    /// The page's text.
    pub fn bytes(&self) -> &[u8]
        ensures { result.now ≡ self.now.text }
    {
        self.paper.bytes()
    }
}
