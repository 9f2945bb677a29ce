//! The index of an image.

ghost use Rattle.std.specs.Prelude.{◌≡◌, List, [], false, Ok, IfOk, OnOk, OnErr, map};
ghost use Rattle.ips_text.specs.Reading.{Gives, IfBad};
ghost use Rattle.ips_records.specs.Lines.{lines_in, IsFirstBadLine};
ghost use Rattle.ips_fmri.specs.Name.{IsStem};
ghost use Rattle.ips_index.specs.Rows.{IndexedValue, row_seen, scanned, index_text};
ghost use Rattle.ips_index.specs.Text.{AreIndexRows, IsIndexText, IsIndexFile};
ghost use Rattle.ips_index.specs.Scan.{IsDropped, IsPut, AreFound};

use crate::entry::Entry;
use crate::fault::BadIndex;
use crate::keeping::{drop_rows, put_rows};
use crate::row::IndexRow;
use crate::scanning::scan;
use crate::sets::{Stems, by_stem, copied_set};
use crate::{finding, printing, reading};
use ips_action::Action;
use ips_text::Or;
use std::alloc::{AllocError, Global};
use std::collections::{BTreeMap, BTreeSet};
use std::marker::Model;

/// By which words the actions of packages are found. Contracts see its rows, which ascend by token, index, kind, value and stem.
#[derive(Drop)]
pub struct Index {
    rows: BTreeSet<Entry>,
    stems: Stems,
}

impl Model for Index {
    ghost use Rattle.std.specs.Prelude.{List};
    ghost use Rattle.ips_index.specs.Rows.{IndexedValue};
    ghost use Rattle.ips_index.specs.Entries.{IsKept};

    ghost Value = { List IndexedValue };

    ghost view = { λ x. x.rows.keys };

    ghost invariant = { λ x. IsKept x.rows x.stems };
}

impl Index {
    /// An index without rows.
    pub fn new(alloc: Global) -> Index
        ensures { result ≡ [] }
    {
        Index {
            rows: BTreeSet::new(alloc),
            stems: BTreeMap::new(alloc),
        }
    }

    /// Replaces the rows of the stem by those of these actions. Where memory runs out, the index is as before.
    pub fn put(&mut self, alloc: Global, stem: &str, actions: &[Action]) -> Result<(), AllocError>
        requires { IsStem false stem.now }
        ensures put { OnOk result (IsPut stem.now (scanned stem.now actions.now) self.old self.new) }
        ensures same { OnErr result (self.new ≡ self.old) }
        ensures rows { OnOk result (AreIndexRows self.new) }
    {
        let rows = scan(alloc, stem, actions)?;
        put_rows(alloc, &mut self.rows, &mut self.stems, stem, rows)
    }

    /// Takes the rows of the stem away.
    pub fn drop_stem(&mut self, stem: &str)
        ensures dropped { IsDropped stem.now self.old self.new }
        ensures rows { AreIndexRows self.new }
    {
        drop_rows(&mut self.rows, &mut self.stems, stem);
    }

    /// The rows whose token the pattern matches, in order: `*` stands for any text and `?` for any one character (pkg(1), "search").
    /// Where the pattern has neither, only these and the row behind them are looked at.
    pub fn find(&self, alloc: Global, pattern: &str) -> Result<Vec<IndexRow>, AllocError>
        ensures { IfOk result (λ found. AreFound pattern.now self.now (map row_seen found.items)) }
    {
        finding::find(alloc, &self.rows, pattern)
    }

    /// An index of the same rows.
    pub fn copy(&self, alloc: Global) -> Result<Index, AllocError>
        ensures same { IfOk result (λ index. index ≡ self.now) }
        ensures rows { AreIndexRows self.now }
    {
        let rows = copied_set(alloc, &self.rows)?;
        let stems = by_stem(alloc, &rows)?;
        Ok(Index { rows, stems })
    }

    /// The record of the index, `var/pkg/index`: a line that tells its form, and a line for each row.
    pub fn print(&self, alloc: Global) -> Result<Vec<u8>, AllocError>
        ensures text { IfOk result (λ bytes. bytes.items ≡ index_text self.now) }
        ensures rows { AreIndexRows self.now }
    {
        printing::print(alloc, &self.rows)
    }

    /// The index of a text that `print` writes. `BadIndex` tells the first line that no index goes on with: a line that can't stand
    /// there, or the one that is missing at the end. A line that no newline ends is none.
    pub fn read(alloc: Global, bytes: &[u8]) -> Result<Index, Or<BadIndex>>
        ensures rows { IfOk result (λ index. IsIndexText index bytes.now) }
        ensures back { (rows : List IndexedValue) → IsIndexText rows bytes.now → Gives (λ index. index) result (Ok rows) }
        ensures bad { IfBad result (λ fault. IsFirstBadLine IsIndexFile (lines_in bytes.now) fault.line) }
    {
        let rows = reading::read(alloc, bytes)?;
        let stems = by_stem(alloc, &rows)?;
        Ok(Index { rows, stems })
    }
}
