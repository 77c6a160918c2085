//! What a body says: a JSON object with the text of a schema, or with the name of a level.

ghost use Rattle.std.specs.Prelude.{◌≡◌, ◌≢◌, Err, IfErr, IfOk, Ok, option_and_then, option_map, string_bytes};
ghost use Rattle.std.specs.Option.{ok_or};
ghost use Rattle.serde_json.specs.Data.{Data};
ghost use Rattle.serde_json.specs.Find.{as_str};
ghost use Rattle.gateway_bodies.specs.Members.{AreMembersOf, data_of};
ghost use Rattle.spec_service.specs.Body.{as_text, has_no_references, is_avro, known_level, level_in, level_of, object_of, text_in, text_of, whole_body};
ghost use Rattle.gateway_requests.specs.Steps.{Tells};

use crate::Fault;
use gateway_bodies::{BodyError, Kept, Members, read_members};
use schema_registry::{Level, parse_level};
use std::alloc::Global;

/// Returns a body that has come whole. `BadRequest` where it was cut short.
pub(crate) fn whole_body(body: Option<&[u8]>) -> Result<&[u8], Fault>
    ensures { Tells (λ b. b.now) result (whole_body (option_map (λ b. b.now) body.entry)) }
{
    match body {
        Some(body) => Ok(body),
        None => Err(Fault::BadRequest),
    }
}

/// Returns the bytes as a text. `BadRequest` where they are no UTF-8.
#[tactic(auto, using(crate::proofs::Bodies::is_text, crate::proofs::Bodies::is_no_text))]
fn text_in_bytes(body: &[u8]) -> Result<&str, Fault>
    ensures { Tells (λ t. t.now) result (as_text body.now) }
{
    match std::str::from_utf8(body) {
        Ok(text) => Ok(text),
        Err(_) => Err(Fault::BadRequest),
    }
}

/// Returns what is kept of the members of the JSON object that the bytes spell. `BadRequest` where they spell none.
fn members_of(alloc: Global, body: &[u8]) -> Result<Members, Fault>
    ensures ok { IfOk result (λ members. (d : Data) × (object_of body.now ≡ Ok d) × AreMembersOf d members) }
    ensures err { IfErr result (λ e. e ≢ Fault.NoMemory → object_of body.now ≡ Err e) }
{
    let text = text_in_bytes(body)?;
    match read_members(alloc, text) {
        Ok(members) => Ok(members),
        Err(BodyError::NoMemory) => Err(Fault::NoMemory),
        Err(BodyError::NoObject) => Err(Fault::BadRequest),
    }
}

/// Returns whether the type of a schema is Avro, which it is where none is given.
fn is_avro(schema_type: &Option<Kept>) -> bool
    ensures { result ≡ is_avro (option_map data_of schema_type.now) }
{
    match schema_type {
        None | Some(Kept::Null) => true,
        Some(Kept::Text(text)) => text.as_str() == "AVRO",
        Some(_) => false,
    }
}

/// Returns whether there are no references.
fn has_no_references(references: &Option<Kept>) -> bool
    ensures { result ≡ has_no_references (option_map data_of references.now) }
{
    match references {
        None | Some(Kept::Null) | Some(Kept::NoItems) => true,
        Some(_) => false,
    }
}

/// Returns the text that was kept of a value. `BadBody` where it is no text.
fn text_kept(value: Option<Kept>) -> Result<String, Fault>
    ensures { Tells string_bytes result (ok_or (option_and_then as_str (option_map data_of value)) Fault.BadBody) }
{
    let Some(value) = value else {
        return Err(Fault::BadBody);
    };
    match value {
        Kept::Text(text) => Ok(text),
        Kept::Null | Kept::NoItems | Kept::Other => Err(Fault::BadBody),
    }
}

/// Returns the text of a schema in an object, by what is kept of its members.
fn text_in(members: Members) -> Result<String, Fault>
    ensures { (d : Data) → AreMembersOf d members → Tells string_bytes result (text_in d) }
{
    let Members {
        schema,
        schema_type,
        references,
        compatibility: _,
    } = members;
    if !is_avro(&schema_type) || !has_no_references(&references) {
        return Err(Fault::BadBody);
    }
    text_kept(schema)
}

/// Returns the text of a schema in a body, which is `None` where it was cut short.
///
/// `BadRequest` where the body is no JSON object, `BadBody` where that has no text of an Avro schema without
/// references.
pub(crate) fn text_of(alloc: Global, body: Option<&[u8]>) -> Result<String, Fault>
    ensures { Tells string_bytes result (text_of (option_map (λ b. b.now) body.entry)) }
{
    let bytes = whole_body(body)?;
    let members = members_of(alloc, bytes)?;
    text_in(members)
}

/// Returns the level with a name; `BadLevel` where no level has it.
fn known_level(name: &str) -> Result<Level, Fault>
    ensures { result ≡ known_level name.now }
{
    match parse_level(name) {
        Ok(level) => Ok(level),
        Err(_) => Err(Fault::BadLevel),
    }
}

/// Returns the level in an object, by what is kept of its members.
fn level_in(members: &Members) -> Result<Level, Fault>
    ensures { (d : Data) → AreMembersOf d members.now → result ≡ level_in d }
{
    match &members.compatibility {
        Some(Kept::Text(name)) => known_level(name.as_str()),
        _ => Err(Fault::BadLevel),
    }
}

/// Returns the level in a body, which is `None` where it was cut short. `BadRequest` where the body is no JSON
/// object, `BadLevel` where that names no level.
pub(crate) fn level_of(alloc: Global, body: Option<&[u8]>) -> Result<Level, Fault>
    ensures { Tells (λ l. l) result (level_of (option_map (λ b. b.now) body.entry)) }
{
    let bytes = whole_body(body)?;
    let members = members_of(alloc, bytes)?;
    level_in(&members)
}
