//! Where each node of a schema is declared in its JSON value.

ghost use Rattle.std.specs.Prelude.{◌≡◌, ◌<◌, ◌∷◌, [], ◌++◌, ◌⊎◌, length, map, is_some, IfSome, OnOk, slice_get};
ghost use Rattle.std.specs.List.{AllByRecursion};
ghost use Rattle.serde_json.specs.Data.{array, string};
ghost use Rattle.serde_json.specs.View.{view, items_view};
ghost use Rattle.avro_types.specs.Node.{fields_of as nodes_fields};
ghost use Rattle.spec_avro.specs.WellFormed.{FieldsBelow};
ghost use Rattle.spec_schema.specs.Word.{leaf_of, word_of};
ghost use Rattle.avro_schema_names.specs.Draft.{data_at};
ghost use Rattle.avro_schema_paths.specs.Parts.{InField, InFields, InHeld, InMember, InObject, InWrapper};
ghost use Rattle.avro_schema_paths.specs.Places.{Places, types_at, item_at, value_at};
ghost use Rattle.avro_schema_paths.specs.Adds.{Adds, IsThis};

use crate::entries::{NodePath, Place, add_node, longer};
use crate::parts::{fields_of, item_of, member_at, members_of, type_of, value_of};
use crate::step::Step;
use avro_schema_names::{Form, Word, form_of_type, leaf_of};
use avro_types::{Field, Nodes};
use serde_json::Value;
use std::alloc::{AllocError, Global};

/// Returns whether a text is a primitive type's name.
fn is_leaf(text: &str) -> bool
    ensures { result ≡ is_some (leaf_of (word_of text.now)) }
{
    leaf_of(Word::of_text(text)).is_some()
}

/// Adds the node that a text declares: none where it is a name ("Primitive Types", "Names"). `nodes` is read by the
/// clauses alone.
fn add_word(
    alloc: Global,
    nodes: &Nodes,
    text: &str,
    node: usize,
    place: &Place,
    out: &mut Vec<NodePath>,
) -> Result<(), AllocError>
    ensures { OnOk result (Adds (Places nodes.now (string text.now) node place.now.outer.now place.now.path.now)
        out.old.items out.new.items) }
{
    if is_leaf(text) {
        return add_node(alloc, node, place.outer, out);
    }
    Ok(())
}

/// Adds the nodes that are declared in a value, each with its path (Avro 1.11 Specification, "Schema Declaration").
///
/// The value is the node `node`, which it may also name where it is declared elsewhere. Entries that are there stay as
/// they are. This recurses as deep as the value nests, which `serde_json` bounds for each value that it reads.
#[cycle(places)]
pub fn add_places(
    alloc: Global,
    nodes: &Nodes,
    value: &Value,
    node: usize,
    place: &Place,
    out: &mut Vec<NodePath>,
) -> Result<(), AllocError>
    requires node { node < length nodes.now }
    ensures { OnOk result (Adds (Places nodes.now (view value.now) node place.now.outer.now place.now.path.now)
        out.old.items out.new.items) }
{
    match value {
        Value::Null | Value::Bool(_) | Value::Number(_) => Ok(()),
        Value::String(text) => add_word(alloc, nodes, text.as_str(), node, place, out),
        Value::Array(items) => add_union(alloc, nodes, items, node, place, out),
        Value::Object(_) => add_object(alloc, nodes, value, node, place, out),
    }
}

/// Adds a union, and what is declared in its members ("Unions").
#[cycle(places)]
fn add_union(
    alloc: Global,
    nodes: &Nodes,
    items: &[Value],
    node: usize,
    place: &Place,
    out: &mut Vec<NodePath>,
) -> Result<(), AllocError>
    requires node { node < length nodes.now }
    ensures { OnOk result (Adds (Places nodes.now (array (items_view items.now)) node place.now.outer.now
        place.now.path.now) out.old.items out.new.items) }
{
    add_node(alloc, node, place.outer, out)?;
    let members = members_of(nodes, node);
    add_members(alloc, nodes, items, members, place.path, out)
}

/// Adds what is declared in the members of a union, whose path is given.
#[cycle(places)]
fn add_members(
    alloc: Global,
    nodes: &Nodes,
    items: &[Value],
    members: &[usize],
    path: &[Step],
    out: &mut Vec<NodePath>,
) -> Result<(), AllocError>
    requires members { AllByRecursion (λ m. m < length nodes.now) members.now }
    ensures { OnOk result (Adds (InMember nodes.now (length items.now) (items_view items.now) members.now path.now)
        out.old.items out.new.items) }
{
    for (i, item) in items.iter().enumerate() {
        let here = longer(alloc, path, &[Step::At(i)])?;
        let member = member_at(members, i);
        add_held(alloc, nodes, Some(item), member, &here, out)?;
    }
    Ok(())
}

/// Adds what is declared in an object, by its `type`.
#[cycle(places)]
fn add_object(
    alloc: Global,
    nodes: &Nodes,
    value: &Value,
    node: usize,
    place: &Place,
    out: &mut Vec<NodePath>,
) -> Result<(), AllocError>
    requires node { node < length nodes.now }
    ensures { OnOk result (Adds (InObject nodes.now (view value.now) node place.now.outer.now place.now.path.now)
        out.old.items out.new.items) }
{
    match form_of_type(value.get("type")) {
        Form::Record => add_record(alloc, nodes, value.get("fields"), node, place, out),
        Form::Enum => add_node(alloc, node, place.outer, out),
        Form::Fixed => add_node(alloc, node, place.outer, out),
        Form::Array => add_array(alloc, nodes, value.get("items"), node, place, out),
        Form::Map => add_map(alloc, nodes, value.get("values"), node, place, out),
        Form::Error => Ok(()),
        Form::Other => add_wrapped(alloc, nodes, value.get("type"), node, place, out),
    }
}

/// Adds an array, and what is declared in its `items` ("Arrays").
#[cycle(places)]
fn add_array(
    alloc: Global,
    nodes: &Nodes,
    value: Option<&Value>,
    node: usize,
    place: &Place,
    out: &mut Vec<NodePath>,
) -> Result<(), AllocError>
    requires node { node < length nodes.now }
    ensures { OnOk result (Adds (λ m q. IsThis node place.now.outer.now m q
        ⊎ InHeld nodes.now (data_at value.entry) (item_at (slice_get nodes.now node))
        (place.now.path.now ++ Step.Items ∷ []) m q) out.old.items out.new.items) }
{
    add_node(alloc, node, place.outer, out)?;
    let here = longer(alloc, place.path, &[Step::Items])?;
    let item = item_of(nodes, node);
    add_held(alloc, nodes, value, item, &here, out)
}

/// Adds a map, and what is declared in its `values` ("Maps").
#[cycle(places)]
fn add_map(
    alloc: Global,
    nodes: &Nodes,
    value: Option<&Value>,
    node: usize,
    place: &Place,
    out: &mut Vec<NodePath>,
) -> Result<(), AllocError>
    requires node { node < length nodes.now }
    ensures { OnOk result (Adds (λ m q. IsThis node place.now.outer.now m q
        ⊎ InHeld nodes.now (data_at value.entry) (value_at (slice_get nodes.now node))
        (place.now.path.now ++ Step.Values ∷ []) m q) out.old.items out.new.items) }
{
    add_node(alloc, node, place.outer, out)?;
    let here = longer(alloc, place.path, &[Step::Values])?;
    let inner = value_of(nodes, node);
    add_held(alloc, nodes, value, inner, &here, out)
}

/// Adds a record, and what is declared in its `fields` ("Records").
#[cycle(places)]
fn add_record(
    alloc: Global,
    nodes: &Nodes,
    value: Option<&Value>,
    node: usize,
    place: &Place,
    out: &mut Vec<NodePath>,
) -> Result<(), AllocError>
    requires node { node < length nodes.now }
    ensures { OnOk result (Adds (λ m q. IsThis node place.now.outer.now m q
        ⊎ InFields nodes.now (data_at value.entry) (types_at (slice_get nodes.now node)) place.now.path.now m q)
        out.old.items out.new.items) }
{
    add_node(alloc, node, place.outer, out)?;
    add_fields(alloc, nodes, value, node, place.path, out)
}

/// Adds what is declared in a value that no object wraps, at a path. It adds nothing where there is no value or no
/// node.
#[cycle(places)]
fn add_held(
    alloc: Global,
    nodes: &Nodes,
    value: Option<&Value>,
    node: Option<usize>,
    path: &[Step],
    out: &mut Vec<NodePath>,
) -> Result<(), AllocError>
    requires node { IfSome node (λ k. k < length nodes.now) }
    ensures { OnOk result (Adds (InHeld nodes.now (data_at value.entry) node path.now) out.old.items out.new.items) }
{
    let Some(value) = value else {
        return Ok(());
    };
    let Some(node) = node else {
        return Ok(());
    };
    let here = Place { outer: path, path };
    add_places(alloc, nodes, value, node, &here, out)
}

/// Adds what is declared in the value that an object wraps. It adds nothing where there is none.
#[cycle(places)]
fn add_wrapped(
    alloc: Global,
    nodes: &Nodes,
    value: Option<&Value>,
    node: usize,
    place: &Place,
    out: &mut Vec<NodePath>,
) -> Result<(), AllocError>
    requires node { node < length nodes.now }
    ensures { OnOk result (Adds (InWrapper nodes.now (data_at value.entry) node place.now.outer.now
        place.now.path.now) out.old.items out.new.items) }
{
    match value {
        None => Ok(()),
        Some(value) => {
            let path = longer(alloc, place.path, &[Step::Type])?;
            let inside = Place {
                outer: place.outer,
                path: &path,
            };
            add_places(alloc, nodes, value, node, &inside, out)
        }
    }
}

/// Adds what is declared in the fields of a record, whose path is given. It adds nothing where there is no list.
#[cycle(places)]
fn add_fields(
    alloc: Global,
    nodes: &Nodes,
    value: Option<&Value>,
    node: usize,
    path: &[Step],
    out: &mut Vec<NodePath>,
) -> Result<(), AllocError>
    requires node { node < length nodes.now }
    ensures { OnOk result (Adds (InFields nodes.now (data_at value.entry) (types_at (slice_get nodes.now node))
        path.now) out.old.items out.new.items) }
{
    let Some(list) = value else {
        return Ok(());
    };
    let Some(items) = list.as_array() else {
        return Ok(());
    };
    let fields = fields_of(nodes, node);
    add_listed(alloc, nodes, items, fields, path, out)
}

/// Adds what is declared in the types of fields, one after another.
#[cycle(places)]
fn add_listed(
    alloc: Global,
    nodes: &Nodes,
    items: &[Value],
    fields: &[Field],
    path: &[Step],
    out: &mut Vec<NodePath>,
) -> Result<(), AllocError>
    requires fields { FieldsBelow (length nodes.now) (nodes_fields fields.now) }
    ensures { OnOk result (Adds (InField nodes.now (length items.now) (items_view items.now)
        (map (λ f. f.node) (nodes_fields fields.now)) path.now) out.old.items out.new.items) }
{
    for (i, item) in items.iter().enumerate() {
        let here = longer(alloc, path, &[Step::Fields, Step::At(i), Step::Type])?;
        let of_type = type_of(fields, i);
        add_held(alloc, nodes, item.get("type"), of_type, &here, out)?;
    }
    Ok(())
}
