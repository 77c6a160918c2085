//! The JSON of replies and faults: compact, with the keys of each object sorted. There are two functions for each:
//! the first returns the text of the value that the second makes.

ghost use Rattle.std.specs.Prelude.{◌≡◌, IfOk, codes, map, string_bytes};
ghost use Rattle.serde_json.specs.Written.{compact_text};
ghost use Rattle.serde_json.specs.View.{view};
ghost use Rattle.serde_json.specs.Data.{member, no_members, object, string};
ghost use Rattle.spec_service.specs.Replies.{compatibility_data, entry_data, fault_data, id_data, level_data, names_data, new_level_data, numbers_data, schema_data, whole};

use crate::fault::{Fault, fault_message};
use serde_json::{Value, json};
use std::alloc::{AllocError, Global};

/// Returns the text `{"error_code":..,"message":".."}` of a fault.
pub fn fault_text(alloc: Global, fault: Fault) -> Result<String, AllocError>
    ensures { IfOk result (λ text. string_bytes text ≡ compact_text (fault_data fault)) }
{
    let message = fault_message(alloc, fault)?;
    let value = fault_value(alloc, fault.code(), &message)?;
    value.to_string(alloc)
}

fn fault_value(alloc: Global, code: u32, message: &String) -> Result<Value, AllocError>
    ensures { IfOk result (λ value. view value ≡ object (member (codes "error_code") (whole code)
        (member (codes "message") (string (string_bytes message.now)) no_members))) }
{
    json!(in alloc; {"error_code": code, "message": message})
}

/// Returns the text `{"id":..}`.
pub fn id_text(alloc: Global, id: u32) -> Result<String, AllocError>
    ensures { IfOk result (λ text. string_bytes text ≡ compact_text (id_data id)) }
{
    let value = id_value(alloc, id)?;
    value.to_string(alloc)
}

fn id_value(alloc: Global, id: u32) -> Result<Value, AllocError>
    ensures { IfOk result (λ value. view value ≡ id_data id) }
{
    json!(in alloc; {"id": id})
}

/// Returns the text `{"schema":".."}`.
pub fn schema_text(alloc: Global, schema: &str) -> Result<String, AllocError>
    ensures { IfOk result (λ text. string_bytes text ≡ compact_text (schema_data schema.now)) }
{
    let value = schema_value(alloc, schema)?;
    value.to_string(alloc)
}

fn schema_value(alloc: Global, schema: &str) -> Result<Value, AllocError>
    ensures { IfOk result (λ value. view value ≡ schema_data schema.now) }
{
    json!(in alloc; {"schema": schema})
}

/// Returns the text `{"id":..,"schema":"..","subject":"..","version":..}`.
pub fn entry_text(
    alloc: Global,
    id: u32,
    schema: &str,
    subject: &str,
    version: u32,
) -> Result<String, AllocError>
    ensures { IfOk result (λ text. string_bytes text ≡ compact_text (entry_data id schema.now subject.now version)) }
{
    let value = entry_value(alloc, id, schema, subject, version)?;
    value.to_string(alloc)
}

fn entry_value(
    alloc: Global,
    id: u32,
    schema: &str,
    subject: &str,
    version: u32,
) -> Result<Value, AllocError>
    ensures { IfOk result (λ value. view value ≡ entry_data id schema.now subject.now version) }
{
    json!(in alloc; {"id": id, "schema": schema, "subject": subject, "version": version})
}

/// Returns the text `{"is_compatible":..}`.
pub fn compatibility_text(alloc: Global, is_compatible: bool) -> Result<String, AllocError>
    ensures { IfOk result (λ text. string_bytes text ≡ compact_text (compatibility_data is_compatible)) }
{
    let value = compatibility_value(alloc, is_compatible)?;
    value.to_string(alloc)
}

fn compatibility_value(alloc: Global, is_compatible: bool) -> Result<Value, AllocError>
    ensures { IfOk result (λ value. view value ≡ compatibility_data is_compatible) }
{
    json!(in alloc; {"is_compatible": is_compatible})
}

/// Returns the text `{"compatibilityLevel":".."}` of a level that was asked for.
pub fn level_text(alloc: Global, level: &str) -> Result<String, AllocError>
    ensures { IfOk result (λ text. string_bytes text ≡ compact_text (level_data level.now)) }
{
    let value = level_value(alloc, level)?;
    value.to_string(alloc)
}

fn level_value(alloc: Global, level: &str) -> Result<Value, AllocError>
    ensures { IfOk result (λ value. view value ≡ level_data level.now) }
{
    json!(in alloc; {"compatibilityLevel": level})
}

/// Returns the text `{"compatibility":".."}` of a level that was set.
pub fn new_level_text(alloc: Global, level: &str) -> Result<String, AllocError>
    ensures { IfOk result (λ text. string_bytes text ≡ compact_text (new_level_data level.now)) }
{
    let value = new_level_value(alloc, level)?;
    value.to_string(alloc)
}

fn new_level_value(alloc: Global, level: &str) -> Result<Value, AllocError>
    ensures { IfOk result (λ value. view value ≡ new_level_data level.now) }
{
    json!(in alloc; {"compatibility": level})
}

/// Returns the text of an array of names.
#[tactic(auto, using(crate::proofs::Floats::names_have_no_float))]
pub fn names_text(alloc: Global, names: &[String]) -> Result<String, AllocError>
    ensures { IfOk result (λ text. string_bytes text ≡ compact_text (names_data (map string_bytes names.now))) }
{
    let value = names_value(alloc, names)?;
    value.to_string(alloc)
}

fn names_value(alloc: Global, names: &[String]) -> Result<Value, AllocError>
    ensures { IfOk result (λ value. view value ≡ names_data (map string_bytes names.now)) }
{
    Ok(Value::Array(name_values(alloc, names)?))
}

/// Returns the names as JSON strings, in their order.
fn name_values(alloc: Global, names: &[String]) -> Result<Vec<Value>, AllocError>
    ensures { IfOk result (λ values. map view values.items ≡ map string (map string_bytes names.now)) }
{
    let mut values = Vec::new(alloc);
    for name in names {
        values.push(Value::try_from_str(alloc, name.as_str())?)?;
    }
    Ok(values)
}

/// Returns the text of an array of numbers.
#[tactic(auto, using(crate::proofs::Floats::numbers_have_no_float))]
pub fn numbers_text(alloc: Global, numbers: &[u32]) -> Result<String, AllocError>
    ensures { IfOk result (λ text. string_bytes text ≡ compact_text (numbers_data numbers.now)) }
{
    let value = numbers_value(alloc, numbers)?;
    value.to_string(alloc)
}

fn numbers_value(alloc: Global, numbers: &[u32]) -> Result<Value, AllocError>
    ensures { IfOk result (λ value. view value ≡ numbers_data numbers.now) }
{
    Ok(Value::Array(number_values(alloc, numbers)?))
}

/// Returns the numbers as JSON numbers, in their order.
fn number_values(alloc: Global, numbers: &[u32]) -> Result<Vec<Value>, AllocError>
    ensures { IfOk result (λ values. map view values.items ≡ map whole numbers.now) }
{
    let mut values = Vec::new(alloc);
    for number in numbers {
        values.push(Value::from(*number))?;
    }
    Ok(values)
}
