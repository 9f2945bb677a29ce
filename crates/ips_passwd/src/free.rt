//! Numbers that are free.
//!
//! Each number from 1 to the count of lines that no line has is among those that are kept, less one; others may be too, so each is
//! looked up before it is given.

ghost use Rattle.std.specs.Prelude.{◌≡◌, ◌+◌, ◌<◌, ◌≤◌, ℕ, true, false, length, IfOk, IfNone, IfSome, OnOk};
ghost use Rattle.std.specs.Ordering.{nat_cmp};
ghost use Rattle.std.specs.BTreeSet.{btree_set_len, contains};
ghost use Rattle.ips_books.specs.Writing as writing_spec;
ghost use Rattle.ips_books.specs.Seen.{as_line};
ghost use Rattle.ips_passwd.specs.Entries.{AreFree, LeadByNumber, IsLeastFree};

use crate::numbers::{Numbers, is_used};
use ips_books::{Line, is_kept, number_of};
use std::alloc::{AllocError, Global};
use std::collections::BTreeSet;

/// All numbers below the count.
pub fn below(alloc: Global, count: usize) -> Result<BTreeSet<usize>, AllocError>
    ensures { IfOk result (λ all. (k : ℕ) → k < count → contains nat_cmp all k ≡ true) }
{
    let mut all = BTreeSet::new(alloc);
    for k in 0..count {
        all.insert(k)?;
    }
    Ok(all)
}

/// Notes that the number of a line of this text may be free.
pub fn give_up(free: &mut BTreeSet<usize>, text: &[u8]) -> Result<(), AllocError>
    ensures stays { (k : ℕ) → contains nat_cmp free.old k ≡ true → contains nat_cmp free.new k ≡ true }
    ensures given { OnOk result ((k : ℕ) → writing_spec.has_number (k + 1) (as_line text.now) ≡ true → contains nat_cmp free.new k ≡ true) }
{
    if is_kept(text) {
        return Ok(());
    }
    let Some(number) = number_of(text) else {
        return Ok(());
    };
    if number > 0 {
        free.insert(number as usize - 1)?;
    }
    Ok(())
}

/// How many numbers from 1 on are used before the first that is free.
pub fn count_used(numbers: &Numbers, free: &mut BTreeSet<usize>, lines: &[Line]) -> usize
    requires numbers { LeadByNumber numbers.now lines.now }
    requires free { AreFree free.old lines.now }
    ensures free { AreFree free.new lines.now }
    ensures least { IsLeastFree lines.now result }
{
    while let Some(first) = first(free) {
        if first >= lines.len() {
            return lines.len();
        }
        if !is_used(numbers, lines, first + 1) {
            return first;
        }
        free.remove(&first);
    }
    lines.len()
}

// The least of the numbers.
fn first(free: &BTreeSet<usize>) -> Option<usize>
    ensures there { IfSome result (λ first. contains nat_cmp free.now first ≡ true) }
    ensures least { IfSome result (λ first. (k : ℕ) → contains nat_cmp free.now k ≡ true → first ≤ k) }
    ensures none { IfNone result ((k : ℕ) → contains nat_cmp free.now k ≡ false) }
{
    free.first().copied()
}
