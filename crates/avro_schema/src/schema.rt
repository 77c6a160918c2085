//! A schema: its compact text and its nodes, parsed from a text.

ghost use Rattle.std.specs.Prelude.{◌≡◌, ◌<◌, ◌≤◌, length, Some, slice_get, string_bytes, IfErr, IfOk};
ghost use Rattle.std.specs.Option.{ok_or};
ghost use Rattle.serde_json.specs.Data.{Data, depth};
ghost use Rattle.serde_json.specs.Read.{max_depth, read};
ghost use Rattle.serde_json.specs.View.{view};
ghost use Rattle.spec_avro.specs.Conforming.{DefaultsConform};
ghost use Rattle.avro_types.specs.Node.{node_of, nodes_of};
ghost use Rattle.spec_avro.specs.WellFormed.{NodeIsWellFormed};
ghost use Rattle.spec_avro.specs.declared.limits.TheConstants.{MOST_TEXT};
ghost use Rattle.avro_schema_names.specs.Fault.{Tells};
ghost use Rattle.avro_schema.specs.Schema.{IsCompact, Parses, TextGives};
ghost use Rattle.spec_schema.specs.Schema.{declared};
ghost use Rattle.spec_schema.specs.SchemaLaw.{ReadsAsSchema};

use crate::numbers::has_float;
use crate::{all_defaults, nodes_with, walk};
use avro_schema_names::{Drafts, Namespace, SchemaError};
use avro_types::{Kind, MOST_TEXT, Nodes};
use serde_json::Value;
use std::alloc::{AllocError, Global};
use std::marker::Model;
use std::sync::Arc;

/// A schema: its compact text, and its nodes.
///
/// Nodes are numbered in order of appearance, a type before its parts, so the root is node 0. Callers see it as a
/// `Declaration`. Copies share both.
#[derive(Debug, Drop)]
pub struct Schema {
    parts: Arc<Parts, Global>,
}

/// What the copies of a schema share.
#[derive(Debug, Drop)]
struct Parts {
    text: String,
    nodes: Nodes,
}

impl Model for Schema {
    ghost use Rattle.std.specs.Prelude.{string_bytes};
    ghost use Rattle.std.specs.Arc.{arc_value};
    ghost use Rattle.avro_types.specs.DatumCode.{datum_coded};
    ghost use Rattle.spec_schema.specs.Schema.{Declaration};
    ghost use Rattle.avro_schema.specs.Schema.{TextGives};
    ghost use Rattle.std.specs.Coded.{codes};

    ghost Value = { Declaration };

    ghost coded = { Prim.hlevel (codes, datum_coded) };

    ghost view = { λ s. record { text = string_bytes (arc_value s.parts).text; nodes = (arc_value s.parts).nodes } };

    ghost invariant = { λ s. TextGives (string_bytes (arc_value s.parts).text) (arc_value s.parts).nodes };
}

impl Schema {
    /// Parses the schema that a JSON text declares, or returns the first of its faults.
    pub fn parse(alloc: Global, text: &str) -> Result<Schema, SchemaError>
        ensures schema { Parses result text.now }
        ensures memory { IfErr result (λ e. e ≡ SchemaError.NoMemory → length text.now ≤ MOST_TEXT) }
    {
        if text.len() > MOST_TEXT {
            return Err(SchemaError::TooLarge);
        }
        let value = read_json(alloc, text)?;
        if has_float(&value) {
            return Err(SchemaError::BadNumber);
        }
        let kinds = kinds_in(alloc, &value)?;
        let text = value.to_string(alloc)?;
        Ok(Schema::of_parts(alloc, text, Nodes::new(kinds))?)
    }

    /// Returns the schema with a text and the nodes that the text declares.
    fn of_parts(alloc: Global, text: String, nodes: Nodes) -> Result<Schema, AllocError>
        requires { TextGives (string_bytes text) nodes }
        ensures { IfOk result (λ schema. schema ≡ record { text = string_bytes text; nodes = nodes }) }
    {
        let parts = Arc::new(alloc, Parts { text, nodes })?;
        Ok(Schema { parts })
    }

    /// Returns a copy of the schema, which shares its text and its nodes.
    pub fn copy(&self) -> Result<Schema, AllocError>
        ensures { IfOk result (λ schema. schema ≡ self.now) }
    {
        let parts = self.parts.clone()?;
        Ok(Schema { parts })
    }

    /// Returns its compact JSON text: no spaces, the keys of each object sorted.
    pub fn text(&self) -> &str
        ensures { result.now ≡ self.now.text }
    {
        self.parts.text.as_str()
    }

    /// Returns the number of its nodes.
    pub fn len(&self) -> usize
        ensures { result ≡ length self.now.nodes }
    {
        self.parts.nodes.len()
    }

    /// Returns the kind of a node.
    pub fn kind(&self, node: usize) -> &Kind
        requires { node < length self.now.nodes }
        ensures kind { slice_get self.now.nodes node ≡ Some (node_of result.now) }
        ensures well_formed { NodeIsWellFormed self.now.nodes node (node_of result.now) }
    {
        self.parts.nodes.kind(node)
    }

    /// Returns its nodes.
    pub fn nodes(&self) -> &Nodes
        ensures { result.now ≡ self.now.nodes }
    {
        &self.parts.nodes
    }

    /// The law that its text is the compact one of a JSON value, and that its nodes are those that the value declares.
    pub fn is_declared(&self)
        ensures compact { (value : Data) × IsCompact self.now.text value }
        ensures nodes { ReadsAsSchema self.now.text self.now.nodes }
    {
        let _opened = &self.parts; // read for the proof
    }

    /// The law that schemas of the same compact text have the same nodes.
    pub fn same_text_has_same_nodes(&self, other: &Schema)
        requires { self.now.text ≡ other.now.text }
        ensures { self.now.nodes ≡ other.now.nodes }
    {
        let _opened = &self.parts; // read for the proof
        let _other = &other.parts; // read for the proof
    }
}

/// Returns the kinds of the nodes that a JSON value declares, with their defaults read, or the first fault.
fn kinds_in(alloc: Global, value: &Value) -> Result<Vec<Kind>, SchemaError>
    ensures declared { Tells (λ kinds. nodes_of kinds.items) result (declared (view value.now)) }
    ensures defaults { IfOk result (λ kinds. DefaultsConform (nodes_of kinds.items)) }
{
    let mut drafts = Drafts::new(alloc)?;
    let enclosing = Namespace::null(alloc)?;
    walk(alloc, value, &enclosing, &mut drafts)?;
    let defaults = all_defaults(alloc, drafts.as_slice())?;
    Ok(nodes_with(alloc, drafts.into_nodes(), defaults)?)
}

/// Parses a text as a JSON value; `NotJson` where it is none.
fn read_json(alloc: Global, text: &str) -> Result<Value, SchemaError>
    ensures value { Tells view result (ok_or (read text.now) SchemaError.NotJson) }
    ensures nests { IfOk result (λ v. depth (view v) ≤ max_depth) }
{
    match Value::from_str(alloc, text) {
        Ok(value) => Ok(value),
        Err(error) if error.is_memory() => Err(SchemaError::NoMemory),
        Err(_) => Err(SchemaError::NotJson),
    }
}
