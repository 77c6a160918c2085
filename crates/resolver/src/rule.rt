//! Whether two nodes match.

ghost use Rattle.std.specs.Prelude.{◌≡◌, ◌<◌, Some, false, length, slice_get, suc, IfSome};
ghost use Rattle.avro_types.specs.Node.{node_of};
ghost use Rattle.spec_avro.specs.WellFormed.{is_union};
ghost use Rattle.resolver.specs.Matching.{ArePair};
ghost use Rattle.spec_avro.specs.Matching.{both_items, both_values, kinds_match, matches, matches_within, names_match, primitives_match};

use crate::full_names::have_matching_names;
use avro_types::{Kind, Nodes};

/// Returns whether a node is a union.
fn is_union(kind: &Kind) -> bool
    ensures { result ≡ is_union (Some (node_of kind.now)) }
{
    match kind {
        Kind::Union(_) => true,
        _ => false,
    }
}

/// Returns whether both are the same primitive type, or the writer's is promoted to the reader's.
fn primitives_match(writer: &Kind, reader: &Kind) -> bool
    ensures { result ≡ primitives_match (node_of writer.now) (node_of reader.now) }
{
    match (writer, reader) {
        (Kind::Null, Kind::Null) => true,
        (Kind::Boolean, Kind::Boolean) => true,
        (Kind::Int, Kind::Int | Kind::Long) => true,
        (Kind::Long, Kind::Long) => true,
        (Kind::Bytes, Kind::Bytes | Kind::Text) => true,
        (Kind::Text, Kind::Text | Kind::Bytes) => true,
        _ => false,
    }
}

/// Returns whether both are enums, fixed or records that match by their names, fixed by their sizes too.
fn names_match(writer: &Kind, reader: &Kind) -> bool
    ensures { result ≡ names_match (node_of writer.now) (node_of reader.now) }
{
    match (writer, reader) {
        (
            Kind::Enum { name, .. },
            Kind::Enum {
                name: other,
                aliases,
                ..
            },
        ) => have_matching_names(name, other, aliases),
        (
            Kind::Fixed { name, size, .. },
            Kind::Fixed {
                name: other,
                aliases,
                size: most,
            },
        ) => have_matching_names(name, other, aliases) && size == most,
        (
            Kind::Record { name, .. },
            Kind::Record {
                name: other,
                aliases,
                ..
            },
        ) => have_matching_names(name, other, aliases),
        _ => false,
    }
}

/// Returns the nodes of the items of two arrays, the writer's first; `None` where a node is no array.
pub fn both_items(
    writer: &Nodes,
    writer_node: usize,
    reader: &Nodes,
    reader_node: usize,
) -> Option<(usize, usize)>
    requires writer { writer_node < length writer.now }
    requires reader { reader_node < length reader.now }
    ensures nodes { result ≡ both_items (slice_get writer.now writer_node) (slice_get reader.now reader_node) }
    ensures within { IfSome result (ArePair writer.now reader.now) }
{
    match (writer.kind(writer_node), reader.kind(reader_node)) {
        (Kind::Array(item), Kind::Array(other)) => Some((*item, *other)),
        _ => None,
    }
}

/// Returns the nodes of the values of two maps, the writer's first; `None` where a node is no map.
pub fn both_values(
    writer: &Nodes,
    writer_node: usize,
    reader: &Nodes,
    reader_node: usize,
) -> Option<(usize, usize)>
    requires writer { writer_node < length writer.now }
    requires reader { reader_node < length reader.now }
    ensures nodes { result ≡ both_values (slice_get writer.now writer_node) (slice_get reader.now reader_node) }
    ensures within { IfSome result (ArePair writer.now reader.now) }
{
    match (writer.kind(writer_node), reader.kind(reader_node)) {
        (Kind::Map(value), Kind::Map(other)) => Some((*value, *other)),
        _ => None,
    }
}

/// Returns whether two nodes match by what they are, whatever their parts.
fn kinds_match(writer: &Kind, reader: &Kind) -> bool
    ensures { result ≡ kinds_match (node_of writer.now) (node_of reader.now) }
{
    is_union(writer)
        || is_union(reader)
        || primitives_match(writer, reader)
        || names_match(writer, reader)
}

/// Returns whether a writer's node and a reader's node match, within `steps` steps into items and values; `false`
/// where more are needed.
#[tactic(auto, unfolding(spec_avro::specs::Matching::matches_within))]
fn matches_within(steps: usize, w: &Nodes, wn: usize, r: &Nodes, rn: usize) -> bool
    requires writer { wn < length w.now }
    requires reader { rn < length r.now }
    ensures { result ≡ matches_within w.now r.now (suc steps) wn rn }
{
    match (w.kind(wn), r.kind(rn)) {
        (Kind::Array(item), Kind::Array(other)) | (Kind::Map(item), Kind::Map(other)) => {
            steps > 0 && matches_within(steps - 1, w, *item, r, *other)
        }
        (writer, reader) => kinds_match(writer, reader),
    }
}

/// Returns whether a writer's node and a reader's node match.
pub fn matches(writer: &Nodes, writer_node: usize, reader: &Nodes, reader_node: usize) -> bool
    requires writer { writer_node < length writer.now }
    requires reader { reader_node < length reader.now }
    ensures { result ≡ matches writer.now reader.now writer_node reader_node }
{
    matches_within(writer.len(), writer, writer_node, reader, reader_node)
}
