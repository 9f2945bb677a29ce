//! What a catalog needs of its JSON text, read in one pass.

ghost use Rattle.std.specs.Prelude.{◌≡◌, [], Err, Some, None, IfOk, OnOk, codes, option_map, option_and_then};
ghost use Rattle.serde_json.specs.Data.{Data, Members};
ghost use Rattle.serde_json.specs.Find.{get_member, as_str};
ghost use Rattle.serde_json.specs.Read.{read as json_of};
ghost use Rattle.ips_catalog.specs.Outline.{value_at, members_at, entry_of, package_of, packages_of, published_of, outline_of, package_kept, packages_kept, published_kept, outline_kept};

use crate::skip::{open_object, skip, skip_rest};
use crate::unread::Unread;
use ips_text::Text;
use json::{Reader, Scratch, Token};
use std::alloc::Global;
use std::collections::BTreeMap;

/// What is kept of an entry: nothing where it is no object, else its version, where that is a text.
pub type Entry = Option<Option<Text>>;

/// What is kept of what stands at a stem: its entries, where it is an array.
pub type Package = Option<Vec<Entry>>;

/// What is kept of what stands at the publisher's key: the packages by their keys, where it is an object.
pub type Published = Option<BTreeMap<Text, Package>>;

/// What is kept of a text: nothing where its value is no object, else what stands at the publisher's key, where something does.
pub type Outline = Option<Option<Published>>;

/// Reads a text. Arrays and objects may nest 127 deep.
pub fn read_outline(alloc: Global, text: &str, publisher: &str) -> Result<Outline, Unread>
    ensures read { IfOk result (λ outline. (d : Data) × (json_of text.now ≡ Some d) × (outline_of publisher.now d ≡ outline_kept outline)) }
    ensures refused { result ≡ Err Unread.NotJson → json_of text.now ≡ None }
{
    // As long as the text, for strings with escapes; it goes before versions are made of what is kept.
    let mut scratch = Scratch::new(alloc);
    read_whole(alloc, text, publisher, &mut scratch)
}

fn read_whole(
    alloc: Global,
    text: &str,
    publisher: &str,
    scratch: &mut Scratch,
) -> Result<Outline, Unread>
    ensures read { IfOk result (λ outline. (d : Data) × (json_of text.now ≡ Some d) × (outline_of publisher.now d ≡ outline_kept outline)) }
    ensures refused { result ≡ Err Unread.NotJson → json_of text.now ≡ None }
{
    let mut reader = Reader::new(text, scratch)?;
    let outline = read_top(alloc, &mut reader, publisher)?;
    if reader.next().is_some() {
        return Err(Unread::NotJson);
    }
    Ok(outline)
}

fn read_top(alloc: Global, reader: &mut Reader<'_>, publisher: &str) -> Result<Outline, Unread>
    ensures read { IfOk result (λ outline. (d : Data) × (value_at 127 reader.old ≡ Some (d, reader.new)) × (outline_of publisher.now d ≡ outline_kept outline)) }
    ensures refused { result ≡ Err Unread.NotJson → value_at 127 reader.old ≡ None }
{
    if !open_object(reader, 127)? {
        return Ok(None);
    }
    Ok(Some(find_published(alloc, reader, publisher)?))
}

// What stands at the publisher's key of an object that was opened, where something does.
fn find_published(
    alloc: Global,
    reader: &mut Reader<'_>,
    publisher: &str,
) -> Result<Option<Published>, Unread>
    ensures read { IfOk result (λ found. (ms : Members) × (members_at 126 reader.old ≡ Some (ms, reader.new)) × (option_map published_of (get_member publisher.now ms) ≡ option_map published_kept found)) }
    ensures refused { result ≡ Err Unread.NotJson → members_at 126 reader.old ≡ None }
{
    let mut found = None;
    'members: while let Some(key) = reader.next_key()? {
        if key == publisher {
            found = Some(read_published(alloc, reader)?);
        } else {
            skip(reader, 126)?;
        }
    }
    Ok(found)
}

// What stands at the publisher's key.
fn read_published(alloc: Global, reader: &mut Reader<'_>) -> Result<Published, Unread>
    ensures read { IfOk result (λ published. (d : Data) × (value_at 126 reader.old ≡ Some (d, reader.new)) × (published_of d ≡ published_kept published)) }
    ensures refused { result ≡ Err Unread.NotJson → value_at 126 reader.old ≡ None }
{
    if !open_object(reader, 126)? {
        return Ok(None);
    }
    let mut packages = BTreeMap::new(alloc);
    keep_packages(alloc, reader, &mut packages)?;
    Ok(Some(packages))
}

// Keeps the packages of an object that was opened.
fn keep_packages(
    alloc: Global,
    reader: &mut Reader<'_>,
    packages: &mut BTreeMap<Text, Package>,
) -> Result<(), Unread>
    requires { packages.old.entries ≡ [] }
    ensures read { OnOk result ((ms : Members) × (members_at 125 reader.old ≡ Some (ms, reader.new)) × (packages_of ms ≡ packages_kept packages.new.entries)) }
    ensures refused { result ≡ Err Unread.NotJson → members_at 125 reader.old ≡ None }
{
    'members: while let Some(key) = reader.next_key()? {
        let stem = Text::new(alloc, key)?;
        let package = read_package(alloc, reader)?;
        drop(packages.insert(stem, package)?);
    }
    Ok(())
}

// What stands at a stem.
fn read_package(alloc: Global, reader: &mut Reader<'_>) -> Result<Package, Unread>
    ensures read { IfOk result (λ kept. (d : Data) × (value_at 125 reader.old ≡ Some (d, reader.new)) × (package_of d ≡ package_kept kept)) }
    ensures refused { result ≡ Err Unread.NotJson → value_at 125 reader.old ≡ None }
{
    let token = reader.next().ok_or(Unread::NotJson)?;
    let Token::BeginArray = token else {
        skip_rest(reader, token, 125)?;
        return Ok(None);
    };
    let mut entries = Vec::new(alloc);
    'items: while !reader.take_end_array() {
        let entry = read_entry(alloc, reader)?;
        entries.push(entry)?;
    }
    Ok(Some(entries))
}

fn read_entry(alloc: Global, reader: &mut Reader<'_>) -> Result<Entry, Unread>
    ensures read { IfOk result (λ entry. (d : Data) × (value_at 124 reader.old ≡ Some (d, reader.new)) × (entry_of d ≡ entry)) }
    ensures refused { result ≡ Err Unread.NotJson → value_at 124 reader.old ≡ None }
{
    if !open_object(reader, 124)? {
        return Ok(None);
    }
    Ok(Some(read_version(alloc, reader)?))
}

// The version of an entry that was opened, where it is a text.
fn read_version(alloc: Global, reader: &mut Reader<'_>) -> Result<Option<Text>, Unread>
    ensures read { IfOk result (λ version. (ms : Members) × (members_at 123 reader.old ≡ Some (ms, reader.new)) × (option_and_then as_str (get_member (codes "version") ms) ≡ version)) }
    ensures refused { result ≡ Err Unread.NotJson → members_at 123 reader.old ≡ None }
{
    let mut version = None;
    'members: while let Some(key) = reader.next_key()? {
        if key == "version" {
            version = read_string(alloc, reader)?;
        } else {
            skip(reader, 123)?;
        }
    }
    Ok(version)
}

// The next value, where it is a text.
fn read_string(alloc: Global, reader: &mut Reader<'_>) -> Result<Option<Text>, Unread>
    ensures read { IfOk result (λ text. (d : Data) × (value_at 123 reader.old ≡ Some (d, reader.new)) × (as_str d ≡ text)) }
    ensures refused { result ≡ Err Unread.NotJson → value_at 123 reader.old ≡ None }
{
    let token = reader.next().ok_or(Unread::NotJson)?;
    if let Token::String(text) = token {
        return Ok(Some(Text::new(alloc, text)?));
    }
    skip_rest(reader, token, 123)?;
    Ok(None)
}
