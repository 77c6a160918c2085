//! A caller of `avro_schema`.

ghost use Rattle.std.specs.Prelude.{◌≡◌, ◌≢◌, Err, IfErr, IfOk, List, Ok, length};
ghost use Rattle.spec_schema.specs.Schema.{schema_of};
ghost use Rattle.spec_avro.specs.Node.{Node};

use avro_schema::{Schema, SchemaError};
use std::alloc::Global;

/// Returns the number of nodes of the schema that a text declares. The error is the text's first fault, or `NoMemory`.
pub fn count_nodes(alloc: Global, text: &str) -> Result<usize, SchemaError>
    ensures count { IfOk result (λ count. (nodes : List Node)
        × (schema_of text.now ≡ Ok nodes) × (count ≡ length nodes)) }
    ensures fault { IfErr result (λ e. e ≢ SchemaError.NoMemory → schema_of text.now ≡ Err e) }
{
    let schema = Schema::parse(alloc, text)?;
    Ok(schema.len())
}
