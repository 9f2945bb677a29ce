//! Passing over the values that a catalog doesn't need, which have to be JSON too.

ghost use Rattle.std.specs.Prelude.{◌≡◌, ◌∷◌, Err, Some, None, IfOk, OnOk};
ghost use Rattle.std.specs.Bool.{MatchBool};
ghost use Rattle.json.specs.Token.{begin_object};
ghost use Rattle.json.specs.Reads.{token_of};
ghost use Rattle.serde_json.specs.Data.{Data, Items, Members};
ghost use Rattle.serde_json.specs.Find.{as_object};
ghost use Rattle.ips_catalog.specs.Outline.{value_at, items_at, members_at, HasKind};

use crate::numbers::fits;
use crate::unread::Unread;
use json::{Reader, Token};

/// Opens the next value, where it is an object, and else passes over it.
pub fn open_object(reader: &mut Reader<'_>, depth: usize) -> Result<bool, Unread>
    ensures read { IfOk result (λ opened. MatchBool opened (reader.old ≡ begin_object ∷ reader.new) ((d : Data) × (value_at depth reader.old ≡ Some (d, reader.new)) × (as_object d ≡ None))) }
    ensures refused { result ≡ Err Unread.NotJson → value_at depth reader.old ≡ None }
{
    let token = reader.next().ok_or(Unread::NotJson)?;
    if let Token::BeginObject = token {
        return Ok(true);
    }
    skip_rest(reader, token, depth)?;
    Ok(false)
}

/// Passes over the next value.
#[cycle(skip)]
pub fn skip(reader: &mut Reader<'_>, depth: usize) -> Result<(), Unread>
    ensures passed { OnOk result ((d : Data) × (value_at depth reader.old ≡ Some (d, reader.new))) }
    ensures refused { result ≡ Err Unread.NotJson → value_at depth reader.old ≡ None }
{
    let token = reader.next().ok_or(Unread::NotJson)?;
    skip_rest(reader, token, depth)
}

/// Passes over the rest of the value that begins with the token.
#[cycle(skip)]
pub fn skip_rest(reader: &mut Reader<'_>, token: Token<'_>, depth: usize) -> Result<(), Unread>
    ensures passed { OnOk result ((d : Data) × (value_at depth (token_of token.entry ∷ reader.old) ≡ Some (d, reader.new)) × HasKind token.entry d) }
    ensures refused { result ≡ Err Unread.NotJson → value_at depth (token_of token.entry ∷ reader.old) ≡ None }
{
    match token {
        Token::String(_) => Ok(()),
        Token::Bool(_) => Ok(()),
        Token::Null => Ok(()),
        Token::Number(text) => {
            if fits(text) {
                Ok(())
            } else {
                Err(Unread::NotJson)
            }
        }
        Token::EndObject | Token::EndArray | Token::Key(_) | Token::Bad => Err(Unread::NotJson),
        Token::BeginArray => {
            if depth == 0 {
                return Err(Unread::NotJson);
            }
            skip_items(reader, depth - 1)
        }
        Token::BeginObject => {
            if depth == 0 {
                return Err(Unread::NotJson);
            }
            skip_members(reader, depth - 1)
        }
    }
}

#[cycle(skip)]
fn skip_items(reader: &mut Reader<'_>, depth: usize) -> Result<(), Unread>
    ensures passed { OnOk result ((ds : Items) × (items_at depth reader.old ≡ Some (ds, reader.new))) }
    ensures refused { result ≡ Err Unread.NotJson → items_at depth reader.old ≡ None }
{
    'items: while !reader.take_end_array() {
        skip(reader, depth)?;
    }
    Ok(())
}

#[cycle(skip)]
fn skip_members(reader: &mut Reader<'_>, depth: usize) -> Result<(), Unread>
    ensures passed { OnOk result ((ms : Members) × (members_at depth reader.old ≡ Some (ms, reader.new))) }
    ensures refused { result ≡ Err Unread.NotJson → members_at depth reader.old ≡ None }
{
    'members: while let Some(_) = reader.next_key()? {
        skip(reader, depth)?;
    }
    Ok(())
}
