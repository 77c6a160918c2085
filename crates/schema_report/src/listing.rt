//! The nodes of a schema, a line each.

ghost use Rattle.std.specs.Prelude.{◌≡◌, ◌<◌, ◌++◌, length, string_bytes, IfOk, OnOk};
ghost use Rattle.schema_report.specs.Listing.{node_line, node_lines, path_text};

use crate::types::push_type;
use avro_schema_paths::{Step, pointer};
use avro_types::Nodes;
use std::alloc::{AllocError, Global};
use std::fmt::Write;

/// Appends the JSON Pointer of a path (RFC 6901), and `/` for that of the root.
pub(crate) fn push_path(alloc: Global, output: &mut String, path: &[Step]) -> Result<(), AllocError>
    ensures { OnOk result (string_bytes output.new ≡ string_bytes output.old ++ path_text path.now) }
{
    if path.is_empty() {
        return output.push_str("/");
    }
    let text = pointer(alloc, path)?;
    output.push_str(&text)
}

/// Appends the line of a node: its number, what it is, and its path.
fn push_node(
    alloc: Global,
    output: &mut String,
    nodes: &Nodes,
    node: usize,
    path: &[Step],
) -> Result<(), AllocError>
    requires { node < length nodes.now }
    ensures { OnOk result (string_bytes output.new ≡ string_bytes output.old ++ node_line nodes.now node path.now) }
{
    write!(output, "{node} ")?;
    push_type(output, nodes, node)?;
    output.push_str(" ")?;
    push_path(alloc, output, path)?;
    output.push_str("\n")
}

/// Returns the lines of a schema's nodes, in order of their numbers. There is a path for each.
pub(crate) fn list_nodes(
    alloc: Global,
    nodes: &Nodes,
    paths: &[Vec<Step>],
) -> Result<String, AllocError>
    requires { length paths.now ≡ length nodes.now }
    ensures { IfOk result (λ text. string_bytes text ≡ node_lines nodes.now 0 paths.now) }
{
    let mut output = String::new(alloc);
    for (node, path) in paths.iter().enumerate() {
        push_node(alloc, &mut output, nodes, node, path)?;
    }
    Ok(output)
}
