//! All that is due, asked about in turn.

ghost use Rattle.std.specs.Prelude.{◌≡◌, ◌<◌, ◌∷◌, [], ℕ, List, None, Some, IsTrue, OnOk, false, length, map, slice_get};
ghost use Rattle.ips_outside.specs.Outside.{Reads};
ghost use Rattle.ips_after.specs.Change.{reached};
ghost use Rattle.ips_change.specs.content.Failing.{HasFailed};
ghost use Rattle.ips_conflict.specs.Index.{has_path};
ghost use Rattle.ips_due.specs.Due as spec;
ghost use Rattle.ips_change.specs.wanted.Named.{is_payload_of};
ghost use Rattle.ips_due.specs.Due.{Content, Due, account_at, record_at, said, said_record};
ghost use Rattle.ips_due.specs.outstanding.Noted.{Adds, AreMarked, account_said, noted, record_said, told};
ghost use Rattle.ips_due.specs.outstanding.Parts.{due_file, due_of};
ghost use Rattle.ips_due.specs.outstanding.Verdicts.{meant, role_said};

use crate::outstanding::asking::{Role, of_path, of_record};
use crate::outstanding::due::{AccountFile, DueParts, Records};
use crate::outstanding::going::{gather, goes_with};
use crate::outstanding::notes::Notes;
use crate::outstanding::verdict::Verdict;
use ips_files::CHUNK;
use ips_outside::{Failed, Source};
use ips_text::{Or, RelPath};
use std::alloc::{AllocError, Global};
use std::collections::BTreeSet;

/// Notes what is said of each due path, in empty notes. It looks once at each path of which a rule asks what stands there.
pub fn fill<S: Source, R: Records>(
    alloc: Global,
    source: &mut S,
    due: &DueParts<'_, R>,
    notes: &mut Notes,
) -> Result<(), Or<Failed>>
    requires marked { AreMarked notes.old }
    requires none { (q : List ℕ) → noted notes.old q ≡ None }
    ensures marked { OnOk result (AreMarked notes.new) }
    ensures found { IsTrue (S.outside.tells source.old) → OnOk result ((bytes : List ℕ → List ℕ) (q : List ℕ) → meant bytes (due_of R.records due.now) (told notes.new q) ≡ said bytes is_payload_of (due_of R.records due.now) (S.outside.state source.old).held q) }
    ensures reads { Reads S.outside source.old source.new (HasFailed result) }
{
    let mut going = BTreeSet::new(alloc);
    gather(alloc, due, &mut going)?;
    let mut buffer = vec![in alloc; 0u8; CHUNK]?;
    ask(alloc, source, due, &going, &mut buffer, notes)
}

// The same, by what goes with folders, with a buffer to read in.
fn ask<S: Source, R: Records>(
    alloc: Global,
    source: &mut S,
    due: &DueParts<'_, R>,
    going: &BTreeSet<Vec<u8>>,
    buffer: &mut [u8],
    notes: &mut Notes,
) -> Result<(), Or<Failed>>
    requires going { (q : List ℕ) → reached (has_path going.now) q ≡ spec.goes_with (due_of R.records due.now) q }
    requires room { 0 < length buffer.old }
    requires marked { AreMarked notes.old }
    requires none { (q : List ℕ) → noted notes.old q ≡ None }
    ensures marked { OnOk result (AreMarked notes.new) }
    ensures found { IsTrue (S.outside.tells source.old) → OnOk result ((bytes : List ℕ → List ℕ) (q : List ℕ) → meant bytes (due_of R.records due.now) (told notes.new q) ≡ said bytes is_payload_of (due_of R.records due.now) (S.outside.state source.old).held q) }
    ensures reads { Reads S.outside source.old source.new (HasFailed result) }
{
    add_accounts(alloc, due.accounts, notes)?;
    add_records(alloc, source, due.records, going, buffer, notes)?;
    add_paths(alloc, source, due.renewed, Role::Renewed, notes)?;
    add_paths(alloc, source, due.folders, Role::Folder, notes)?;
    add_paths(alloc, source, due.gone, Role::Gone, notes)?;
    Ok(())
}

// Notes the account files, which are laid.
fn add_accounts(
    alloc: Global,
    accounts: &[AccountFile],
    notes: &mut Notes,
) -> Result<(), AllocError>
    requires marked { AreMarked notes.old }
    ensures marked { OnOk result (AreMarked notes.new) }
    ensures noted { OnOk result ((bytes : List ℕ → List ℕ) (due : Due) → due.accounts ≡ map due_file accounts.now → Adds bytes due notes.old notes.new (map (λ f. f.path.bytes) accounts.now) (λ q. account_said (account_at due.accounts q))) }
{
    for number in 0..accounts.len() {
        add(
            alloc,
            &accounts[number].path,
            Some(Verdict::Account(number)),
            notes,
        )?;
    }
    Ok(())
}

// Notes the records that don't stand as they are due.
fn add_records<S: Source, R: Records>(
    alloc: Global,
    source: &mut S,
    records: &R,
    going: &BTreeSet<Vec<u8>>,
    buffer: &mut [u8],
    notes: &mut Notes,
) -> Result<(), Or<Failed>>
    requires room { 0 < length buffer.old }
    requires marked { AreMarked notes.old }
    ensures marked { OnOk result (AreMarked notes.new) }
    ensures found { IsTrue (S.outside.tells source.old) → OnOk result ((bytes : List ℕ → List ℕ) (due : Due) → due.records ≡ R.records records.now
        → Adds bytes due notes.old notes.new (map (λ r. r.0) (R.records records.now)) (λ q. record_said bytes (record_at due.records q) (reached (has_path going.now) q) ((S.outside.state source.old).held.look q))) }
    ensures reads { Reads S.outside source.old source.new (HasFailed result) }
{
    for number in 0..records.count() {
        add_record(alloc, source, records, number, going, buffer, notes)?;
    }
    Ok(())
}

// Notes what is said of the path of a record, if nothing is noted of it.
fn add_record<S: Source, R: Records>(
    alloc: Global,
    source: &mut S,
    records: &R,
    number: usize,
    going: &BTreeSet<Vec<u8>>,
    buffer: &mut [u8],
    notes: &mut Notes,
) -> Result<(), Or<Failed>>
    requires number { number < length (R.records records.now) }
    requires room { 0 < length buffer.old }
    requires marked { AreMarked notes.old }
    ensures kept { length buffer.new ≡ length buffer.old }
    ensures marked { OnOk result (AreMarked notes.new) }
    ensures found { IsTrue (S.outside.tells source.old) → OnOk result ((bytes : List ℕ → List ℕ) (due : Due) (path : List ℕ) (content : Content) → due.records ≡ R.records records.now → slice_get (R.records records.now) number ≡ Some (path, content)
        → Adds bytes due notes.old notes.new (path ∷ []) (λ q. said_record bytes is_payload_of content (reached (has_path going.now) path) ((S.outside.state source.old).held.look path))) }
    ensures reads { Reads S.outside source.old source.new (HasFailed result) }
{
    let path = records.path(number);
    if notes.has(path) {
        return Ok(());
    }
    let goes = goes_with(going, path.bytes());
    let verdict = of_record(alloc, source, records, number, goes, buffer)?;
    add(alloc, path, verdict, notes)?;
    Ok(())
}

// Notes what is said of paths of this role.
fn add_paths<S: Source>(
    alloc: Global,
    source: &mut S,
    paths: &[RelPath],
    role: Role,
    notes: &mut Notes,
) -> Result<(), Or<Failed>>
    requires marked { AreMarked notes.old }
    ensures marked { OnOk result (AreMarked notes.new) }
    ensures found { IsTrue (S.outside.tells source.old) → OnOk result ((bytes : List ℕ → List ℕ) (due : Due) → Adds bytes due notes.old notes.new (map (λ p. p.bytes) paths.now) (λ q. role_said role ((S.outside.state source.old).held.look q))) }
    ensures reads { Reads S.outside source.old source.new (HasFailed result) }
{
    for i in 0..paths.len() {
        add_path(alloc, source, &paths[i], role, notes)?;
    }
    Ok(())
}

// Notes what is said of a path of this role, if nothing is noted of it.
fn add_path<S: Source>(
    alloc: Global,
    source: &mut S,
    path: &RelPath,
    role: Role,
    notes: &mut Notes,
) -> Result<(), Or<Failed>>
    requires marked { AreMarked notes.old }
    ensures marked { OnOk result (AreMarked notes.new) }
    ensures found { IsTrue (S.outside.tells source.old) → OnOk result ((bytes : List ℕ → List ℕ) (due : Due) → Adds bytes due notes.old notes.new (path.now.bytes ∷ []) (λ q. role_said role ((S.outside.state source.old).held.look path.now.bytes))) }
    ensures reads { Reads S.outside source.old source.new (HasFailed result) }
{
    if notes.has(path) {
        return Ok(());
    }
    let verdict = of_path(source, path, role)?;
    add(alloc, path, verdict, notes)?;
    Ok(())
}

// Notes a verdict of a path, if nothing is noted of it.
fn add(
    alloc: Global,
    path: &RelPath,
    verdict: Option<Verdict>,
    notes: &mut Notes,
) -> Result<(), AllocError>
    requires marked { AreMarked notes.old }
    ensures marked { OnOk result (AreMarked notes.new) }
    ensures noted { OnOk result ((bytes : List ℕ → List ℕ) (due : Due) → Adds bytes due notes.old notes.new (path.now.bytes ∷ []) (λ q. meant bytes due verdict)) }
{
    if notes.has(path) {
        return Ok(());
    }
    notes.note(alloc, path, verdict)?;
    Ok(())
}
