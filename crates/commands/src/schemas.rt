//! The two schemas at the front of an input.

ghost use Rattle.std.specs.Prelude.{◌≡◌, ◌≢◌, Err, Ok, IfOk, IfErr, drop};
ghost use Rattle.spec_schema.specs.declared.schema_error.SchemaError.TheVariants.{NoMemory};
ghost use Rattle.spec_lines.specs.Lines.{lines};
ghost use Rattle.spec_lines.specs.Schemas.{schema_of_line, schemas_of};

use crate::refusal::{Refusal, refusal_of_schema};
use avro_schema::{Schema, SchemaError};
use command_io::split_line_or_empty;
use std::alloc::Global;

/// The schemas of an input, and what follows their lines.
#[derive(Drop)]
pub(crate) struct Schemas<'a> {
    pub(crate) writer: Schema,
    pub(crate) reader: Schema,
    pub(crate) later: &'a [u8],
}

/// Returns the schema of a line.
fn schema_of_line(alloc: Global, line: &[u8]) -> Result<Schema, SchemaError>
    ensures ok { IfOk result (λ schema. schema_of_line line.now ≡ Ok schema.nodes) }
    ensures err { IfErr result (λ e. e ≢ NoMemory → schema_of_line line.now ≡ Err e) }
{
    match std::str::from_utf8(line) {
        Ok(text) => Schema::parse(alloc, text),
        Err(_) => Err(SchemaError::NotJson),
    }
}

/// Returns the schemas in the first two lines of an input, and what follows these.
pub(crate) fn schemas_of<'a>(alloc: Global, input: &'a [u8]) -> Result<Schemas<'a>, Refusal>
    ensures ok { IfOk result (λ s. schemas_of (lines input.now) ≡ Ok (s.writer.nodes, s.reader.nodes)) }
    ensures later { IfOk result (λ s. lines s.later.now ≡ drop 2 (lines input.now)) }
    ensures err { IfErr result (λ e. e ≢ Refusal.NoMemory → schemas_of (lines input.now) ≡ Err e) }
{
    let (writer_line, rest) = split_line_or_empty(input);
    let (reader_line, later) = split_line_or_empty(rest);
    let writer = match schema_of_line(alloc, writer_line) {
        Ok(schema) => schema,
        Err(error) => return Err(refusal_of_schema(1, error)),
    };
    let reader = match schema_of_line(alloc, reader_line) {
        Ok(schema) => schema,
        Err(error) => return Err(refusal_of_schema(2, error)),
    };
    Ok(Schemas {
        writer,
        reader,
        later,
    })
}
