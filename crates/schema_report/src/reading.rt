//! The schemas of an input, each with the paths of its nodes.

ghost use Rattle.std.specs.Prelude.{◌≡◌, ◌≢◌, length, Err, Ok, Some, IfErr, IfOk};
ghost use Rattle.serde_json.specs.Read.{read};
ghost use Rattle.serde_json.specs.View.{view};
ghost use Rattle.spec_schema.specs.Schema.{schema_of};
ghost use Rattle.avro_schema_paths.specs.Adds.{ArePaths};
ghost use Rattle.spec_schema.specs.declared.schema_error.SchemaError.TheVariants.{NoMemory};
ghost use Rattle.schema_report.specs.Reading.{IsBadLine, schema_of_line};

use crate::refusal::Refusal;
use avro_schema::{Schema, SchemaError, parsed_schema_is_declared};
use avro_schema_paths::{Step, paths_of, read_value_is_declared};
use avro_types::Nodes;
use serde_json::Value;
use std::alloc::{AllocError, Global};

/// A schema, the JSON value of its line, and for each of its nodes the path to where it is declared in that value.
#[derive(Drop)]
pub(crate) struct PathedSchema {
    pub(crate) schema: Schema,
    pub(crate) value: Value,
    pub(crate) paths: Vec<Vec<Step>>,
}

/// Returns the JSON value of the text of a schema. `AllocError` where an allocation failed.
fn value_of(alloc: Global, text: &[u8]) -> Result<Value, AllocError>
    ensures { IfOk result (λ value. read text.now ≡ Some (view value)) }
{
    match Value::from_slice(alloc, text) {
        Ok(value) => Ok(value),
        Err(_) => Err(AllocError),
    }
}

/// Returns the paths of the nodes that the value of a text declares. `text` is read by the clauses alone.
fn paths_in(
    alloc: Global,
    text: &[u8],
    value: &Value,
    nodes: &Nodes,
) -> Result<Vec<Vec<Step>>, AllocError>
    requires schema { schema_of text.now ≡ Ok nodes.now }
    requires value { read text.now ≡ Some (view value.now) }
    ensures { IfOk result (λ paths. ArePaths nodes.now (view value.now) (length nodes.now) paths.items) }
{
    parsed_schema_is_declared(); // law
    read_value_is_declared(); // law
    paths_of(alloc, nodes, value)
}

/// Returns the schema of a line, or its first fault: bytes that are no UTF-8 are no JSON.
fn schema_of_line(alloc: Global, line: &[u8]) -> Result<Schema, SchemaError>
    ensures ok { IfOk result (λ schema. schema_of_line line.now ≡ Ok schema.nodes) }
    ensures text { IfOk result (λ schema. schema_of line.now ≡ Ok schema.nodes) }
    ensures err { IfErr result (λ e. e ≢ NoMemory → schema_of_line line.now ≡ Err e) }
{
    match std::str::from_utf8(line) {
        Ok(text) => Schema::parse(alloc, text),
        Err(_) => Err(SchemaError::NotJson),
    }
}

impl Refusal {
    /// Returns the refusal of the schema in a line. A failed allocation is no fault of a schema.
    fn of_schema(line: u8, error: SchemaError) -> Refusal
        ensures memory { error ≡ SchemaError.NoMemory → result ≡ Refusal.NoMemory }
        ensures bad { error ≢ SchemaError.NoMemory → result ≡ Refusal.BadSchema line error }
    {
        if error == SchemaError::NoMemory {
            Refusal::NoMemory
        } else {
            Refusal::BadSchema { line, error }
        }
    }
}

/// Returns the schema of a line of an input, with the paths of its nodes. `BadSchema` with the line's number where it
/// is no schema.
pub(crate) fn read_schema(alloc: Global, line: &[u8], number: u8) -> Result<PathedSchema, Refusal>
    ensures schema { IfOk result (λ s. schema_of_line line.now ≡ Ok s.schema.nodes) }
    ensures value { IfOk result (λ s. read line.now ≡ Some (view s.value)) }
    ensures paths { IfOk result (λ s. ArePaths s.schema.nodes (view s.value) (length s.schema.nodes) s.paths.items) }
    ensures bad { IfErr result (λ e. e ≢ Refusal.NoMemory → IsBadLine line.now number e) }
{
    let schema = match schema_of_line(alloc, line) {
        Ok(schema) => schema,
        Err(error) => return Err(Refusal::of_schema(number, error)),
    };
    let value = value_of(alloc, line)?;
    let paths = paths_in(alloc, line, &value, schema.nodes())?;
    Ok(PathedSchema {
        schema,
        value,
        paths,
    })
}
