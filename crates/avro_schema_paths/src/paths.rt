//! The path of each node of a schema.

ghost use Rattle.std.specs.Prelude.{◌≡◌, length, IfOk};
ghost use Rattle.serde_json.specs.View.{view};
ghost use Rattle.spec_schema.specs.SchemaLaw.{DeclaresSchema};
ghost use Rattle.avro_schema_paths.specs.Adds.{ArePaths};
ghost use Rattle.avro_schema_paths.specs.ByNumber.{AreByNumber};

use crate::entries::{NodePath, Place};
use crate::laws::each_node_has_path;
use crate::placing::add_places;
use crate::step::Step;
use avro_types::Nodes;
use serde_json::Value;
use std::alloc::{AllocError, Global};

/// Returns as many empty paths as are asked for.
fn empty_paths(alloc: Global, count: usize) -> Result<Vec<Vec<Step>>, AllocError>
    ensures { IfOk result (λ paths. length paths.items ≡ count) }
{
    let mut paths = Vec::new(alloc);
    for _node in 0..count {
        paths.push(Vec::new(alloc))?;
    }
    Ok(paths)
}

/// Returns the paths of the nodes below a count, each at the position that is its node's number.
///
/// Each is put there in one pass over the entries.
fn by_number(
    alloc: Global,
    count: usize,
    entries: Vec<NodePath>,
) -> Result<Vec<Vec<Step>>, AllocError>
    ensures { IfOk result (λ paths. AreByNumber entries.items count paths.items) }
{
    let mut paths = empty_paths(alloc, count)?;
    for entry in entries {
        let NodePath { node, path } = entry;
        if node < paths.len() {
            paths[node] = path;
        }
    }
    Ok(paths)
}

/// Returns for each node of a schema, in order of their numbers, the path in its JSON value to where it is declared
/// (Avro 1.11 Specification, "Schema Declaration").
///
/// A name that is referred to declares nothing. A node whose declaration is wrapped, as in
/// `{"type": {"type": "array", "items": "int"}}`, has the path of the outermost wrapper.
pub fn paths_of(alloc: Global, nodes: &Nodes, value: &Value) -> Result<Vec<Vec<Step>>, AllocError>
    requires { DeclaresSchema (view value.now) nodes.now }
    ensures { IfOk result (λ paths. ArePaths nodes.now (view value.now) (length nodes.now) paths.items) }
{
    nodes.is_well_formed(); // law
    each_node_has_path(); // law
    let mut entries = Vec::new(alloc);
    let root = Place {
        outer: &[],
        path: &[],
    };
    add_places(alloc, nodes, value, 0, &root, &mut entries)?;
    by_number(alloc, nodes.len(), entries)
}
