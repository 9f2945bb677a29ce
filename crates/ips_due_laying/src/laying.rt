//! What lays the account files and records that aren't as they are due.

ghost use Rattle.std.specs.Prelude.{◌≡◌, IfOk, map, slice_get};
ghost use Rattle.std.specs.Option.{option_map};
ghost use Rattle.std.specs.List.Sorted.{IsStrictlySortedBy};
ghost use Rattle.std.specs.Ordering.{nat_cmp};
ghost use Rattle.std.specs.Cmp.Lexicographic.{slice_cmp};
ghost use Rattle.ips_laying.specs.Laying.{laid_told};
ghost use Rattle.ips_due.specs.outstanding.Parts.{content_told, due_file, due_of};
ghost use Rattle.ips_due.specs.outstanding.Verdicts.{named_paths};
ghost use Rattle.ips_due_laying.specs.Laying as spec;
ghost use Rattle.ips_due_laying.specs.Laying.{account_laid, content_laid, laid_at, laid_paths, record_laid};

use ips_due::outstanding::{AccountFile, Content, DueParts, Named, Outstanding, Records, Verdict};
use ips_laying::{Laid, Laying};
use ips_text::RelPath;
use std::alloc::{AllocError, Global};
use std::marker::Model;

/// What is outstanding of what is due, as what lays it. Contracts see what is laid at each path that is named.
#[derive(Drop)]
pub struct DueLaying<'a, R: Records> {
    named: &'a [Named],
    due: &'a DueParts<'a, R>,
}

impl<'a, R: Records> Model for DueLaying<'a, R> {
    ghost use Rattle.std.specs.Prelude.{List};
    ghost use Rattle.std.specs.List.Sorted.{IsStrictlySortedBy};
    ghost use Rattle.std.specs.Ordering.{nat_cmp};
    ghost use Rattle.std.specs.Cmp.Lexicographic.{slice_cmp};
    ghost use Rattle.ips_due.specs.outstanding.Parts.{due_of};
    ghost use Rattle.ips_due.specs.outstanding.Verdicts.{named_paths};
    ghost use Rattle.ips_due_laying.specs.Laying.{Place, laid_paths};

    ghost Value = { List Place };

    ghost view = { λ s. laid_paths (due_of R.records s.due.now) s.named.now };

    ghost invariant = { λ s. IsStrictlySortedBy (slice_cmp nat_cmp) (named_paths s.named.now) };
}

impl<'a, R: Records> DueLaying<'a, R> {
    /// What lays that of these parts of what is due which is outstanding.
    pub fn new(outstanding: &'a Outstanding, due: &'a DueParts<'a, R>) -> DueLaying<'a, R>
        requires { IsStrictlySortedBy (slice_cmp nat_cmp) (named_paths outstanding.now.named.items) }
        ensures { result ≡ laid_paths (due_of R.records due.now) outstanding.now.named.items }
    {
        DueLaying {
            named: &outstanding.named,
            due,
        }
    }
}

impl<'a, R: Records> Laying for DueLaying<'a, R> {
    ghost laid = { λ s. laid_at s };

    fn entry(&self, alloc: Global, path: &RelPath) -> Result<Option<Laid>, AllocError> {
        match verdict_at(self.named, path) {
            Some(verdict) => laid_by(alloc, self.due, verdict),
            None => Ok(None),
        }
    }
}

// What is said of a path.
fn verdict_at(named: &[Named], path: &RelPath) -> Option<Verdict>
    requires { IsStrictlySortedBy (slice_cmp nat_cmp) (named_paths named.now) }
    ensures { result ≡ spec.verdict_at named.now path.now.bytes }
{
    match named.binary_search_by(|n| n.path.cmp(path)) {
        Ok(i) => named[i].verdict,
        Err(_) => None,
    }
}

// The entry that is laid by a verdict.
fn laid_by<R: Records>(
    alloc: Global,
    due: &DueParts<'_, R>,
    verdict: Verdict,
) -> Result<Option<Laid>, AllocError>
    ensures { IfOk result (λ found. option_map laid_told found ≡ spec.laid_by (due_of R.records due.now) verdict) }
{
    match verdict {
        Verdict::Account(number) => account(alloc, due.accounts, number),
        Verdict::Record(number) => record(alloc, due.records, number),
        Verdict::Folder => Ok(Some(Laid::Dir { mode: 0o755 })),
        Verdict::Gone => Ok(None),
    }
}

// The account file of this number.
fn account(
    alloc: Global,
    accounts: &[AccountFile],
    number: usize,
) -> Result<Option<Laid>, AllocError>
    ensures { IfOk result (λ found. option_map laid_told found ≡ option_map account_laid (slice_get (map due_file accounts.now) number)) }
{
    match accounts.get(number) {
        Some(file) => Ok(Some(Laid::File {
            mode: file.mode,
            bytes: Vec::from_slice(alloc, &file.bytes)?,
        })),
        None => Ok(None),
    }
}

// The record of this number.
fn record<R: Records>(alloc: Global, records: &R, number: usize) -> Result<Option<Laid>, AllocError>
    ensures { IfOk result (λ found. option_map laid_told found ≡ option_map record_laid (slice_get (R.records records.now) number)) }
{
    if number >= records.count() {
        return Ok(None);
    }
    let content = records.content(alloc, number)?;
    Ok(Some(laid_of(content)))
}

// A record with this content.
fn laid_of(content: Content) -> Laid
    ensures { laid_told result ≡ content_laid (content_told content) }
{
    match content {
        Content::Own(bytes) => Laid::File { mode: 0o644, bytes },
        Content::Payload(payload) => Laid::Payload {
            mode: 0o644,
            payload,
        },
    }
}
