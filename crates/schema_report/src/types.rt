//! Types in words: what a node is, and its full name (Avro 1.11, "Schema Declaration", "Names").

ghost use Rattle.std.specs.Prelude.{◌≡◌, ◌<◌, ◌++◌, length, slice_get, string_bytes, OnOk};
ghost use Rattle.avro_types.specs.Node.{node_of};
ghost use Rattle.schema_report.specs.Types.{kind_word, name_text, type_text, type_at, type_beside};

use avro_types::{Kind, Name, Nodes};
use resolver::{both_items, both_values};
use std::alloc::AllocError;

/// Returns the standard's word for what a node is.
fn kind_word(kind: &Kind) -> &'static str
    ensures { result.now ≡ kind_word (node_of kind.now) }
{
    match kind {
        Kind::Null => "null",
        Kind::Boolean => "boolean",
        Kind::Int => "int",
        Kind::Long => "long",
        Kind::Bytes => "bytes",
        Kind::Text => "string",
        Kind::Fixed { .. } => "fixed",
        Kind::Enum { .. } => "enum",
        Kind::Array(_) => "array",
        Kind::Map(_) => "map",
        Kind::Union(_) => "union",
        Kind::Record { .. } => "record",
    }
}

/// Appends a space and a full name.
fn push_name(output: &mut String, name: &Name) -> Result<(), AllocError>
    ensures { OnOk result (string_bytes output.new ≡ string_bytes output.old ++ name_text name.now) }
{
    name.has_two_parts(); // law
    output.push_str(" ")?;
    if !name.namespace().is_empty() {
        output.push_str(name.namespace())?;
        output.push_str(".")?;
    }
    output.push_str(name.last())
}

/// Appends what a node is, and its full name where it has one, as `long` and `record shop.Order`.
pub(crate) fn push_type(output: &mut String, nodes: &Nodes, node: usize) -> Result<(), AllocError>
    requires { node < length nodes.now }
    ensures { OnOk result (string_bytes output.new ≡ string_bytes output.old ++ type_at nodes.now node) }
{
    let kind = nodes.kind(node);
    output.push_str(kind_word(kind))?;
    match kind {
        Kind::Fixed { name, .. } | Kind::Enum { name, .. } | Kind::Record { name, .. } => {
            push_name(output, name)
        }
        _ => Ok(()),
    }
}

/// Appends the type of a node beside a node of another schema: as long as both are arrays or both are maps, the word
/// for that and then the type of what they hold, by at most this many steps.
pub(crate) fn push_beside(
    output: &mut String,
    nodes: &Nodes,
    node: usize,
    others: &Nodes,
    other: usize,
    steps: usize,
) -> Result<(), AllocError>
    requires node { node < length nodes.now }
    requires other { other < length others.now }
    ensures { OnOk result (string_bytes output.new
        ≡ string_bytes output.old ++ type_beside steps nodes.now node others.now other) }
{
    if steps == 0 {
        return push_type(output, nodes, node);
    }
    if let Some((item, beside)) = both_items(nodes, node, others, other) {
        output.push_str("array of ")?;
        return push_beside(output, nodes, item, others, beside, steps - 1);
    }
    if let Some((value, beside)) = both_values(nodes, node, others, other) {
        output.push_str("map of ")?;
        return push_beside(output, nodes, value, others, beside, steps - 1);
    }
    push_type(output, nodes, node)
}
