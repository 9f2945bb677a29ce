//! What a table asks of its rows.

use crate::problem::*;
use crate::rows::{column, number, row_of};
use std::alloc::Global;
use std::process::Abort;
use std::test::Fail;

// What a table asks of its rows, whose columns are named behind each.
#[derive(Clone, Copy)]
pub enum Asked {
    // The stems in reach over the offered packages: the kind of request, what it names, what it rejects, and a freeze.
    Offers,
    // An update where a package is obsolete: what is shown of it.
    Obsolete,
    // An install that looks at what was there before, or is content with one of many: a package of the image, what is avoided, and
    // what is named.
    Drawn,
    // A request over faulty packages: its kind, what it names, and what it rejects.
    Faults,
    // An install: the call that fails.
    Failing,
}

fn told(rt: &impl Abort, alloc: Global, asked: Asked, row: &str) -> String {
    let first = column(row, 0);
    let second = column(row, 1);
    let third = column(row, 2);
    match asked {
        Asked::Offers => offers_told(rt, alloc, first, second, third, column(row, 3)),
        Asked::Obsolete => obsolete_told(rt, alloc, first == "choice"),
        Asked::Drawn => drawn_told(rt, alloc, first, second, third),
        Asked::Faults => faults_told(rt, alloc, first, second, third),
        Asked::Failing => failing_told(rt, alloc, number(rt, first)),
    }
}

// How many rows a table has, each of which is told as it says.
pub fn rows_told(rt: &impl Abort, alloc: Global, asked: Asked, table: &str) -> u32 {
    let mut rows = 0u32;
    for line in table.lines() {
        if let Some((row, want)) = row_of(line) {
            let told = told(rt, alloc, asked, row);
            assert!(rt; told.as_str() == want, "{row}: {told}, and not {want}");
            rows = rows.saturating_add(1);
        }
    }
    rows
}
