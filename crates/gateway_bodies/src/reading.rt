//! A JSON object, read for the members that count.

ghost use Rattle.std.specs.Prelude.{◌≡◌, ◌<◌, Err, IfErr, IfOk, IfSome, None, OnOk, Some, is_some, length, true};
ghost use Rattle.json.specs.Json.{items, members, value};
ghost use Rattle.serde_json.specs.Data.{Data, Items, Members as AnyMembers, array, no_members, object};
ghost use Rattle.serde_json.specs.Find.{as_object};
ghost use Rattle.serde_json.specs.Read.{converted, max_depth, of_items, of_json, of_members, read};
ghost use Rattle.gateway_bodies.specs.Members.{AreMembersOf, data_of, kept};

use crate::error::BodyError;
use crate::kept::Kept;
use crate::members::Members;
use crate::passing::{pass_items, pass_rest};
use json::{Reader, Scratch, Token};
use std::alloc::Global;

/// How deep arrays and objects nest in an object at most, as `serde_json` has it.
const MOST_NESTED: usize = 126;

/// Reads the items of an array and the bracket after them.
fn read_array(reader: &mut Reader<'_>, depth: usize) -> Result<Kept, BodyError>
    ensures ok { IfOk result (λ v. (ds : Items)
        × (converted of_items (items (value depth) (length reader.old) reader.old) ≡ Some (ds, reader.new))
        × (data_of v ≡ kept (array ds))) }
    ensures shorter { OnOk result (length reader.new < length reader.old) }
    ensures err { IfErr result (λ e.
        converted of_items (items (value depth) (length reader.old) reader.old) ≡ None) }
{
    if reader.take_end_array() {
        return Ok(Kept::NoItems);
    }
    pass_items(reader, depth)?;
    Ok(Kept::Other)
}

/// Reads a value, and keeps of it whether it is null, a text or an array without items, and the text.
fn read_value(alloc: Global, reader: &mut Reader<'_>, depth: usize) -> Result<Kept, BodyError>
    requires { 0 < depth }
    ensures ok { IfOk result (λ v. (d : Data)
        × (converted of_json (value depth reader.old) ≡ Some (d, reader.new)) × (data_of v ≡ kept d)) }
    ensures shorter { OnOk result (length reader.new < length reader.old) }
    ensures err { result ≡ Err BodyError.NoObject → converted of_json (value depth reader.old) ≡ None }
{
    let token = reader.next().ok_or(BodyError::NoObject)?;
    match token {
        Token::Null => Ok(Kept::Null),
        Token::String(text) => Ok(Kept::Text(String::from_str(alloc, text)?)),
        Token::BeginArray => read_array(reader, depth - 1),
        other => {
            pass_rest(reader, other, depth)?;
            Ok(Kept::Other)
        }
    }
}

/// Reads the members of an object and the brace after them.
fn read_rest(alloc: Global, reader: &mut Reader<'_>) -> Result<Members, BodyError>
    ensures ok { IfOk result (λ found. (all : AnyMembers)
        × (converted (λ ms. of_members ms no_members)
        (members (value MOST_NESTED) (length reader.old) reader.old) ≡ Some (all, reader.new))
        × AreMembersOf (object all) found) }
    ensures err { result ≡ Err BodyError.NoObject → converted (λ ms. of_members ms no_members)
        (members (value MOST_NESTED) (length reader.old) reader.old) ≡ None }
{
    let mut found = Members::new();
    'members: while let Some(key) = reader.next_key()? {
        let value = read_value(alloc, reader, MOST_NESTED)?;
        found.put(key, value);
    }
    Ok(found)
}

/// Reads an object, and keeps of its members what counts.
fn read_object(alloc: Global, reader: &mut Reader<'_>) -> Result<Members, BodyError>
    ensures ok { IfOk result (λ found. (all : AnyMembers)
        × (converted of_json (value max_depth reader.old) ≡ Some (object all, reader.new))
        × AreMembersOf (object all) found) }
    ensures err { result ≡ Err BodyError.NoObject
        → IfSome (converted of_json (value max_depth reader.old)) (λ p. as_object p.0 ≡ None) }
{
    let token = reader.next().ok_or(BodyError::NoObject)?;
    match token {
        Token::BeginObject => read_rest(alloc, reader),
        _ => Err(BodyError::NoObject),
    }
}

/// Reads the JSON object that a text spells, as `serde_json` reads it, and keeps of its members what counts.
///
/// `NoObject` where the text spells no JSON value, or one that is no object.
pub fn read_members(alloc: Global, text: &str) -> Result<Members, BodyError>
    ensures ok { IfOk result (λ found. (all : AnyMembers) × (read text.now ≡ Some (object all))
        × AreMembersOf (object all) found) }
    ensures err { result ≡ Err BodyError.NoObject → IfSome (read text.now) (λ d. as_object d ≡ None) }
{
    let mut scratch = Scratch::new(alloc);
    let mut reader = Reader::new(text, &mut scratch)?;
    let found = read_object(alloc, &mut reader)?;
    if reader.next().is_some() {
        return Err(BodyError::NoObject);
    }
    Ok(found)
}
