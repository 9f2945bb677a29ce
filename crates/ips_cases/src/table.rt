//! Tables.

ghost use Rattle.std.specs.Prelude.{◌≡◌, ◌↔◌, Any, IfNone, IfSome, IsSome, IsTrue, find, true};
ghost use Rattle.std.specs.Option.{option_copied};
ghost use Rattle.ips_cases.specs.Cases.{AreSizes, AreBits, HasBadKey, IsKey, IsTable, meeting, meets, value_at};

use crate::keys::{key_at, key_count};
use crate::row::Row;
use std::marker::Model;

/// A table of `N` rows in which each key below the sizes is met by just one row. It is seen as its rows and sizes.
#[derive(Clone, Copy)]
pub struct Cases<const N: usize> {
    rows: [Row; N],
    sizes: [u8; 4],
}

impl<const N: usize> Model for Cases<N> {
    ghost use Rattle.ips_cases.specs.Cases.{AreSizes, IsTable, Table};

    ghost Value = { Table };

    ghost view = { λ t. record { rows = t.rows; sizes = t.sizes } };

    ghost invariant = { λ t. AreSizes t.sizes × IsTable t.rows t.sizes };

    ghost inverse = { λ t. record { rows = t.rows; sizes = t.sizes } };
}

impl<const N: usize> Cases<N> {
    /// The table of these rows. None where some key below the sizes is met by no row or by two.
    pub fn new(rows: [Row; N], sizes: [u8; 4]) -> Option<Cases<N>>
        requires { AreSizes sizes }
        ensures rule { IsSome result ↔ IsTable rows.entry sizes }
        ensures table { IfSome result (λ t. t ≡ record { rows = rows.entry; sizes = sizes }) }
        ensures none { IfNone result (HasBadKey rows.entry sizes) }
    {
        for number in 0..key_count(&sizes) {
            if !is_met_once(&rows, &key_at(number, &sizes)) {
                return None;
            }
        }
        Some(Cases { rows, sizes })
    }

    /// The value of the row that meets the key.
    pub fn find(&self, key: [u8; 4]) -> u8
        requires { IsKey self.now.sizes key }
        ensures once { meeting self.now.rows key ≡ 1 }
        ensures row { Any (λ row. (meets key row ≡ true) × (result ≡ row.value)) self.now.rows }
        ensures value { result ≡ value_at self.now.rows key }
    {
        match first_met(&self.rows, &key) {
            Some(row) => row.value,
            None => unreachable!(),
        }
    }
}

fn first_met<'a>(rows: &'a [Row], key: &[u8; 4]) -> Option<&'a Row>
    requires { AreBits key.now }
    ensures { option_copied result ≡ find (meets key.now) rows.now }
{
    rows.iter().find(|row| row.meets(key))
}

fn is_met_once(rows: &[Row], key: &[u8; 4]) -> bool
    requires { AreBits key.now }
    ensures { IsTrue result ↔ (meeting rows.now key.now ≡ 1) }
{
    rows.iter().filter(|row| row.meets(key)).count() == 1
}
