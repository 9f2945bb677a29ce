//! Rows as an index keeps them.

ghost use Rattle.std.specs.Prelude.{◌≡◌, ◌++◌, drop, IfOk, string_bytes};
ghost use Rattle.std.specs.Ordering.{as_partial_cmp, eq_by_cmp};
ghost use Rattle.std.specs.Cmp.{eq_by_cmp_equiv, partial_equiv_from_equiv, partial_order_from_total};
ghost use Rattle.std.specs.Cmp.Rules.{comparing};
ghost use Rattle.std.specs.Option.{option_map};
ghost use Rattle.std.specs.Str.{IsCharBoundary};
ghost use Rattle.std.proofs.Common.{rules};
ghost use Rattle.ips_text.specs.Path.{parts};
ghost use Rattle.ips_action.specs.Check.{last_of};
ghost use Rattle.ips_action.specs.Action.{naming_key};
ghost use Rattle.ips_action.specs.Kind.{kind_name};
ghost use Rattle.ips_index.specs.Rows.{row_cmp, rest_cmp, row_total, row_seen};
ghost use Rattle.ips_index.specs.Entries as spec;

use crate::row::IndexRow;
use ips_action::ActionKind;
use ips_text::Text;
use std::alloc::{AllocError, Global};
use std::cmp::Ordering;
use std::marker::Model;
use std::rc::Rc;

/// The place of a row's value in its action.
#[derive(Clone, Copy, Drop)]
pub(crate) enum Field {
    /// None: what stands before all rows of its token.
    Start,
    /// The attribute that names the action.
    Key,
    /// What a `set` says of its name.
    Value,
    /// The name of the payload.
    Payload,
}

/// A row, which is held once, however many lists it stands in.
#[derive(Drop)]
pub(crate) struct Entry {
    row: Rc<Row>,
}

impl Model for Entry {
    ghost use Rattle.ips_index.specs.Rows.{IndexedValue};

    ghost Value = { IndexedValue };

    ghost view = { λ e. e.row.value };
}

// A row, in one text: its value, of which its token is the end, and behind it its stem. The name of its index isn't kept.
#[derive(Drop)]
struct Row {
    kind: ActionKind,
    field: Field,
    token: u32,
    stem: u32,
    text: String,
}

impl Model for Row {
    ghost use Rattle.std.specs.Prelude.{string_bytes};
    ghost use Rattle.ips_index.specs.Rows.{IndexedValue};
    ghost use Rattle.ips_index.specs.Entries.{row_at, ArePlaces};

    ghost Value = { IndexedValue };

    ghost view = { λ e. row_at e.kind e.field e.token e.stem (string_bytes e.text) };

    ghost invariant = { λ e. ArePlaces e.token e.stem (string_bytes e.text) };
}

impl Entry {
    /// The row of a value that is found by what begins at this place of it. Places are held as `u32`: a value of 4 GiB or more is
    /// refused as want of memory.
    pub(crate) fn new(
        alloc: Global,
        kind: ActionKind,
        field: Field,
        token: usize,
        value: &str,
        stem: &str,
    ) -> Result<Entry, AllocError>
        requires { IsCharBoundary value.now token }
        ensures { IfOk result (λ entry. entry ≡ spec.row_of kind field (drop token value.now) value.now stem.now) }
    {
        if value.len() >= 1 << 32 {
            return Err(AllocError);
        }
        let text = joined(alloc, value, stem)?;
        let row = Row {
            kind,
            field,
            token: token as u32,
            stem: value.len() as u32,
            text,
        };
        Ok(Entry {
            row: Rc::new(alloc, row)?,
        })
    }

    /// The name of its kind.
    pub(crate) fn kind_name(&self) -> &'static str
        ensures { result.now ≡ kind_name self.now.kind }
    {
        self.row.as_ref().kind.name()
    }

    pub(crate) fn token(&self) -> &str
        ensures { result.now ≡ self.now.token }
    {
        let row = self.row.as_ref();
        &row.text.as_str()[row.token as usize..row.stem as usize]
    }

    pub(crate) fn value(&self) -> &str
        ensures { result.now ≡ self.now.value }
    {
        let row = self.row.as_ref();
        &row.text.as_str()[..row.stem as usize]
    }

    pub(crate) fn stem(&self) -> &str
        ensures { result.now ≡ self.now.stem }
    {
        let row = self.row.as_ref();
        &row.text.as_str()[row.stem as usize..]
    }

    pub(crate) fn index(&self) -> &'static str
        ensures { result.now ≡ self.now.index }
    {
        let row = self.row.as_ref();
        index_name(row.kind, row.field)
    }

    /// The row, copied.
    pub(crate) fn row(&self, alloc: Global) -> Result<IndexRow, AllocError>
        ensures { IfOk result (λ row. row_seen row ≡ self.now) }
    {
        let token = Text::new(alloc, self.token())?;
        let index = Text::new(alloc, self.index())?;
        let value = Text::new(alloc, self.value())?;
        let stem = Text::new(alloc, self.stem())?;
        Ok(IndexRow {
            token,
            index,
            kind: self.row.as_ref().kind,
            value,
            stem,
        })
    }

    /// The same row, held by one more.
    pub(crate) fn share(&self) -> Result<Entry, AllocError>
        ensures { IfOk result (λ entry. entry ≡ self.now) }
    {
        Ok(Entry {
            row: self.row.clone()?,
        })
    }
}

// Both texts in one, which has room for no more.
fn joined(alloc: Global, first: &str, second: &str) -> Result<String, AllocError>
    ensures { IfOk result (λ text. string_bytes text ≡ first.now ++ second.now) }
{
    let mut text = String::with_capacity(alloc, first.len() + second.len())?;
    text.push_str(first)?;
    text.push_str(second)?;
    Ok(text)
}

/// The name of the index of a field.
pub(crate) fn index_name(kind: ActionKind, field: Field) -> &'static str
    ensures { result.now ≡ spec.index_name kind field }
{
    match field {
        Field::Start => "",
        Field::Key => key_name(kind).unwrap_or(""),
        Field::Value => "value",
        Field::Payload => "payload",
    }
}

/// The key of the attribute that names an action of this kind.
pub(crate) fn key_name(kind: ActionKind) -> Option<&'static str>
    ensures { option_map (λ name. name.now) result ≡ naming_key kind }
{
    match kind {
        ActionKind::Set | ActionKind::Driver => Some("name"),
        ActionKind::Depend => Some("fmri"),
        ActionKind::Dir | ActionKind::File | ActionKind::Link | ActionKind::Hardlink => {
            Some("path")
        }
        ActionKind::User => Some("username"),
        ActionKind::Group => Some("groupname"),
        ActionKind::License => Some("license"),
        ActionKind::Legacy => Some("pkg"),
        ActionKind::Signature => None,
    }
}

/// Where the last part of a path begins.
pub(crate) fn last_part(path: &str) -> usize
    ensures last { drop result path.now ≡ last_of (parts path.now) }
    ensures cut { IsCharBoundary path.now result }
{
    match path.rfind('/') {
        Some(slash) => slash + 1,
        None => 0,
    }
}

impl PartialEq for Entry {
    ghost eq = { eq_by_cmp row_cmp };

    ghost laws = { partial_equiv_from_equiv (eq_by_cmp_equiv row_total) };

    fn eq(&self, other: &Entry) -> bool {
        order_of(self, other) == Ordering::Equal
    }
}

impl Eq for Entry {
    ghost laws = { eq_by_cmp_equiv row_total };
}

impl Ord for Entry {
    ghost cmp = { row_cmp };

    ghost total = { row_total };

    ghost matches_partial_cmp = { Prim.search (comparing, rules) };

    ghost matches_eq = { Prim.search (comparing, rules) };

    fn cmp(&self, other: &Entry) -> Ordering {
        order_of(self, other)
    }
}

impl PartialOrd for Entry {
    ghost partial_cmp = { as_partial_cmp row_cmp };

    ghost laws = { partial_order_from_total row_total };

    fn partial_cmp(&self, other: &Entry) -> Option<Ordering> {
        Some(self.cmp(other))
    }
}

fn order_of(one: &Entry, other: &Entry) -> Ordering
    ensures { result ≡ row_cmp one.now other.now }
{
    match one.token().cmp(other.token()) {
        Ordering::Equal => order_of_rest(one, other),
        order => order,
    }
}

fn order_of_rest(one: &Entry, other: &Entry) -> Ordering
    ensures { result ≡ rest_cmp one.now other.now }
{
    let by_index = one.index().cmp(other.index());
    let by_kind = one.kind_name().cmp(other.kind_name());
    let by_value = one.value().cmp(other.value());
    by_index.then(by_kind.then(by_value.then(one.stem().cmp(other.stem()))))
}
