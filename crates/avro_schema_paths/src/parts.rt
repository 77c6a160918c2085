//! The nodes of a node's parts.

ghost use Rattle.std.specs.Prelude.{◌≡◌, ◌<◌, length, map, IfSome, slice_get};
ghost use Rattle.std.specs.List.{AllByRecursion};
ghost use Rattle.avro_types.specs.Node.{fields_of as nodes_fields};
ghost use Rattle.spec_avro.specs.WellFormed.{FieldsBelow};
ghost use Rattle.avro_schema_paths.specs.Places.{types_at, item_at, members_at, value_at};

use avro_types::{Field, Kind, Nodes};

/// Returns the node of an array's items. `None` where the node is no array.
pub(crate) fn item_of(nodes: &Nodes, node: usize) -> Option<usize>
    requires { node < length nodes.now }
    ensures item { result ≡ item_at (slice_get nodes.now node) }
    ensures within { IfSome result (λ k. k < length nodes.now) }
{
    match nodes.kind(node) {
        Kind::Array(item) => Some(*item),
        _ => None,
    }
}

/// Returns the node of a map's values. `None` where the node is no map.
pub(crate) fn value_of(nodes: &Nodes, node: usize) -> Option<usize>
    requires { node < length nodes.now }
    ensures value { result ≡ value_at (slice_get nodes.now node) }
    ensures within { IfSome result (λ k. k < length nodes.now) }
{
    match nodes.kind(node) {
        Kind::Map(inner) => Some(*inner),
        _ => None,
    }
}

/// Returns the nodes of a union's members, and none where the node is no union.
pub(crate) fn members_of(nodes: &Nodes, node: usize) -> &[usize]
    requires { node < length nodes.now }
    ensures members { result.now ≡ members_at (slice_get nodes.now node) }
    ensures within { AllByRecursion (λ k. k < length nodes.now) result.now }
{
    match nodes.kind(node) {
        Kind::Union(members) => members.as_slice(),
        _ => &[],
    }
}

/// Returns the fields of a record, and none where the node is no record.
pub(crate) fn fields_of(nodes: &Nodes, node: usize) -> &[Field]
    requires { node < length nodes.now }
    ensures fields { map (λ f. f.node) (nodes_fields result.now) ≡ types_at (slice_get nodes.now node) }
    ensures within { FieldsBelow (length nodes.now) (nodes_fields result.now) }
{
    match nodes.kind(node) {
        Kind::Record { fields, .. } => fields.as_slice(),
        _ => &[],
    }
}

/// Returns the node of the type of a field. `None` where there is no field at the position.
pub(crate) fn type_of(fields: &[Field], position: usize) -> Option<usize>
    ensures { result ≡ slice_get (map (λ f. f.node) (nodes_fields fields.now)) position }
{
    if position < fields.len() {
        Some(fields[position].node)
    } else {
        None
    }
}

/// Returns the node of a member. `None` where there is no member at the position.
pub(crate) fn member_at(members: &[usize], position: usize) -> Option<usize>
    ensures { result ≡ slice_get members.now position }
{
    if position < members.len() {
        Some(members[position])
    } else {
        None
    }
}
