//! What the content of an answer says (Confluent Schema Registry API).

ghost use Rattle.std.specs.Prelude.{◌≡◌, ◌≢◌, IfErr, IfOk, Ok, option_map, option_and_then, string_bytes};
ghost use Rattle.std.specs.Option.{ok_or};
ghost use Rattle.serde_json.specs.Data.{Data};
ghost use Rattle.serde_json.specs.Find.{as_str};
ghost use Rattle.serde_json.specs.View.{view};
ghost use Rattle.gateway_bodies.specs.Members.{AreMembersOf, data_of};
ghost use Rattle.upstream_answers.specs.Content.{Tells, error_code_of, is_unknown, value_in};
ghost use Rattle.spec_service.specs.UpstreamContent.{as_text, has_no_references, is_avro, object_of, schema_of, schema_text};

use crate::fault::ContentFault;
use crate::limits::MOST_ERROR;
use gateway_bodies::{BodyError, Kept, Members, read_members};
use serde_json::Value;
use std::alloc::{AllocError, Global};

/// The `error_code` of an answer that the id names no schema.
const SCHEMA_NOT_FOUND: u64 = 40_403;

/// Returns the bytes as a text. `NoJson` where they are no UTF-8.
#[tactic(auto, using(crate::proofs::Texts::is_text, crate::proofs::Texts::is_no_text))]
fn text_in(content: &[u8]) -> Result<&str, ContentFault>
    ensures { Tells (λ t. t.now) result (as_text content.now) }
{
    match std::str::from_utf8(content) {
        Ok(text) => Ok(text),
        Err(_) => Err(ContentFault::NoJson),
    }
}

/// Returns what is kept of the members of the JSON object that the bytes spell. `NoJson` where they spell none.
fn members_of(alloc: Global, content: &[u8]) -> Result<Members, ContentFault>
    ensures ok { IfOk result (λ members. (d : Data) × (object_of content.now ≡ Ok d) × AreMembersOf d members) }
    ensures err { IfErr result (λ e. e ≢ ContentFault.NoMemory → object_of content.now ≡ Err e) }
{
    let text = text_in(content)?;
    match read_members(alloc, text) {
        Ok(members) => Ok(members),
        Err(BodyError::NoMemory) => Err(ContentFault::NoMemory),
        Err(BodyError::NoObject) => Err(ContentFault::NoJson),
    }
}

/// Returns whether the type of a schema, where there is one, is Avro.
fn is_avro(schema_type: &Option<Kept>) -> bool
    ensures { result ≡ is_avro (option_map data_of schema_type.now) }
{
    match schema_type {
        None | Some(Kept::Null) => true,
        Some(Kept::Text(text)) => text.as_str() == "AVRO",
        Some(_) => false,
    }
}

/// Returns whether there are no references.
fn has_no_references(references: &Option<Kept>) -> bool
    ensures { result ≡ has_no_references (option_map data_of references.now) }
{
    match references {
        None | Some(Kept::Null) | Some(Kept::NoItems) => true,
        Some(_) => false,
    }
}

/// Returns the text that was kept of a value. `NoSchema` where it is no text.
fn text_kept(value: Option<Kept>) -> Result<String, ContentFault>
    ensures { Tells string_bytes result
        (ok_or (option_and_then as_str (option_map data_of value)) ContentFault.NoSchema) }
{
    let Some(value) = value else {
        return Err(ContentFault::NoSchema);
    };
    match value {
        Kept::Text(text) => Ok(text),
        Kept::Null | Kept::NoItems | Kept::Other => Err(ContentFault::NoSchema),
    }
}

/// Returns the text of the schema in an object, by what is kept of its members.
fn schema_of(members: Members) -> Result<String, ContentFault>
    ensures { (d : Data) → AreMembersOf d members → Tells string_bytes result (schema_of d) }
{
    let Members {
        schema,
        schema_type,
        references,
        compatibility: _,
    } = members;
    if !is_avro(&schema_type) {
        return Err(ContentFault::NotAvro);
    }
    if !has_no_references(&references) {
        return Err(ContentFault::HasReferences);
    }
    text_kept(schema)
}

/// Returns the text of the schema in the content of an answer.
///
/// The faults, the first that holds: `NoJson` where the content is no JSON object, `NotAvro` where its `schemaType`
/// is neither null nor `AVRO`, `HasReferences` where its `references` are neither null nor empty, `NoSchema` where
/// its `schema` is no text.
pub fn schema_in(alloc: Global, content: &[u8]) -> Result<String, ContentFault>
    ensures { Tells string_bytes result (schema_text content.now) }
{
    let members = members_of(alloc, content)?;
    schema_of(members)
}

/// Returns the JSON value that the bytes spell. `None` where they spell none.
#[tactic(auto, using(crate::proofs::Texts::is_text, crate::proofs::Texts::is_no_text))]
fn value_in(alloc: Global, content: &[u8]) -> Result<Option<Value>, AllocError>
    ensures { IfOk result (λ value. option_map view value ≡ value_in content.now) }
{
    match Value::from_slice(alloc, content) {
        Ok(value) => Ok(Some(value)),
        Err(error) if error.is_memory() => Err(AllocError),
        Err(_) => Ok(None),
    }
}

/// Returns the integer that is the `error_code` of an object. `None` where it has none.
fn error_code_of(value: &Value) -> Option<u64>
    ensures { result ≡ error_code_of (view value.now) }
{
    value.get("error_code").and_then(Value::as_u64)
}

/// Returns whether the content of an answer says that the id names no schema: a JSON object of at most `MOST_ERROR`
/// bytes whose `error_code` is the integer 40403.
pub fn is_unknown(alloc: Global, content: &[u8]) -> Result<bool, AllocError>
    ensures { IfOk result (λ found. found ≡ is_unknown content.now) }
{
    if content.len() > MOST_ERROR {
        return Ok(false);
    }
    let Some(value) = value_in(alloc, content)? else {
        return Ok(false);
    };
    Ok(error_code_of(&value) == Some(SCHEMA_NOT_FOUND))
}
