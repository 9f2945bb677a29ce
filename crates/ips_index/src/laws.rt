//! The laws of an index.

ghost use Rattle.std.specs.Prelude.{◌≡◌, List, ℕ, []};
ghost use Rattle.std.specs.List.Sorted.{IsStrictlySortedBy};
ghost use Rattle.ips_action.specs.Action.{Fields};
ghost use Rattle.ips_records.specs.Lines.{lines_in};
ghost use Rattle.ips_index.specs.Rows.{IndexedValue, row_cmp, scanned, index_text};
ghost use Rattle.ips_index.specs.Text.{AreIndexRows, IsIndexText, IsIndexFile};
ghost use Rattle.ips_index.specs.Scan.{IsDropped, IsPut, IsScan, Scanned, with_stem, without};

/// After any list of `put` and `drop_stem` an index is the scan of the packages that were put last and not dropped.
pub fn index_is_scan()
    ensures new { IsScan [] [] }
    ensures put { (packages : List Scanned) (stem : List ℕ) (actions : List Fields) (old new : List IndexedValue) → IsScan packages old → IsPut stem (scanned stem actions) old new → IsStrictlySortedBy row_cmp new → IsScan (with_stem stem actions packages) new }
    ensures dropped { (packages : List Scanned) (stem : List ℕ) (old new : List IndexedValue) → IsScan packages old → IsDropped stem old new → IsStrictlySortedBy row_cmp new → IsScan (without stem packages) new }
{}

/// Printed indexes read back: the text of an index has the lines of one, and no two indexes have one text.
pub fn indexes_read_back()
    ensures file { (rows : List IndexedValue) (text : List ℕ) → IsIndexText rows text → IsIndexFile (lines_in text) }
    ensures one { (a b : List IndexedValue) → AreIndexRows a → AreIndexRows b → index_text a ≡ index_text b → a ≡ b }
{}
