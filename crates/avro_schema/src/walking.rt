//! The walk over a JSON value, which leaves the drafts that it declares.

ghost use Rattle.std.specs.Prelude.{◌≡◌, ◌<◌, ◌≤◌, ℕ, List, [], length, map, option_map, IfOk, IfErr, OnErr};
ghost use Rattle.serde_json.specs.Find.{get};
ghost use Rattle.serde_json.specs.View.{view, items_view};
ghost use Rattle.avro_schema.specs.Contract.{Walks, holder_walk, object_as, object_walk};
ghost use Rattle.spec_schema.specs.Draft.{Whole};
ghost use Rattle.avro_schema_names.specs.Draft.{data_at, draft_field_of, field_names};
ghost use Rattle.avro_schema_names.specs.Head.{IsUnnamed};
ghost use Rattle.spec_schema.specs.Head.{head_of_node};
ghost use Rattle.avro_schema_names.specs.Index.{IsNamespaceOf, text_of_namespace};
ghost use Rattle.avro_types.specs.Node.{node_of};
ghost use Rattle.spec_schema.specs.Walk.{leaf, reference, named, walk, members, if_room, union_of, or_unknown, fields, fields_after, field};

use crate::holder::Holder;
use avro_schema_names::{
    Draft, DraftField, Drafts, FieldList, Form, Namespace, SchemaError, Word, are_apart,
    default_symbol, defined_node, field_aliases, field_name, form_of_type, leaf_of, new_names,
    size_of, symbols_of,
};
use avro_types::{Aliases, Kind, MOST_FIELDS, MOST_NODES};
use serde_json::Value;
use std::alloc::Global;

/// Returns the number that the next node gets; `TooLarge` where there are `MOST_NODES` nodes.
fn next_node(drafts: &Drafts) -> Result<usize, SchemaError>
    ensures node { IfOk result (λ n. n ≡ length drafts.now) }
    ensures room { IfOk result (λ n. n < MOST_NODES) }
    ensures full { IfErr result (λ e. e ≡ SchemaError.TooLarge) }
    ensures none { OnErr result (MOST_NODES ≤ length drafts.now) }
{
    let node = drafts.len();
    if node >= MOST_NODES {
        return Err(SchemaError::TooLarge);
    }
    Ok(node)
}

/// Adds a node of a kind that holds no others, and returns its number.
fn walk_leaf(kind: Kind, drafts: &mut Drafts) -> Result<usize, SchemaError>
    requires { IsUnnamed (head_of_node (node_of kind)) }
    ensures { (enclosing : List ℕ) → Walks (λ n. n) result (leaf (node_of kind)) enclosing drafts.old drafts.new }
{
    let node = next_node(drafts)?;
    drafts.push(kind)?;
    Ok(node)
}

/// Returns the node of the type that a text refers to; `Unknown` where none is defined.
fn walk_reference(
    text: &str,
    enclosing: &Namespace,
    drafts: &mut Drafts,
) -> Result<usize, SchemaError>
    requires known { IsNamespaceOf enclosing.now drafts.old }
    ensures { Walks (λ n. n) result (reference text.now) (text_of_namespace enclosing.now) drafts.old drafts.new }
{
    match defined_node(text, enclosing, drafts) {
        Some(node) => Ok(node),
        None => Err(SchemaError::Unknown),
    }
}

/// Returns the node that a text names: a new one for a primitive type, and else the one that is defined.
fn walk_text(text: &str, enclosing: &Namespace, drafts: &mut Drafts) -> Result<usize, SchemaError>
    requires known { IsNamespaceOf enclosing.now drafts.old }
    ensures { Walks (λ n. n) result (named text.now) (text_of_namespace enclosing.now) drafts.old drafts.new }
{
    let word = Word::of_text(text);
    if word.is_left_out() {
        return Err(SchemaError::OutOfProfile);
    }
    match leaf_of(word) {
        Some(kind) => walk_leaf(kind, drafts),
        None => walk_reference(text, enclosing, drafts),
    }
}

/// Adds the node of an enum, and returns its number.
fn walk_enum(
    alloc: Global,
    value: &Value,
    enclosing: &Namespace,
    drafts: &mut Drafts,
) -> Result<usize, SchemaError>
    requires known { IsNamespaceOf enclosing.now drafts.old }
    ensures { Walks (λ n. n) result (object_as Form.Enum (view value.now)) (text_of_namespace enclosing.now)
        drafts.old drafts.new }
{
    let node = next_node(drafts)?;
    let new = new_names(alloc, value, enclosing, drafts)?;
    let symbols = symbols_of(alloc, value.get("symbols"))?;
    let default = default_symbol(&symbols, value.get("default"))?;
    let kind = Kind::Enum {
        name: new.name.copy()?,
        aliases: new.aliases,
        symbols,
        default,
    };
    drafts.define(alloc, &new.name, new.number, Draft::Whole(kind))?;
    Ok(node)
}

/// Adds the node of a fixed, and returns its number.
fn walk_fixed(
    alloc: Global,
    value: &Value,
    enclosing: &Namespace,
    drafts: &mut Drafts,
) -> Result<usize, SchemaError>
    requires known { IsNamespaceOf enclosing.now drafts.old }
    ensures { Walks (λ n. n) result (object_as Form.Fixed (view value.now)) (text_of_namespace enclosing.now)
        drafts.old drafts.new }
{
    let node = next_node(drafts)?;
    let new = new_names(alloc, value, enclosing, drafts)?;
    let size = size_of(value.get("size"))?;
    let kind = Kind::Fixed {
        name: new.name.copy()?,
        aliases: new.aliases,
        size,
    };
    drafts.define(alloc, &new.name, new.number, Draft::Whole(kind))?;
    Ok(node)
}

/// Adds the node of the schema that a value declares and those of its parts after the nodes that are there, and
/// returns its number; of a reference, returns the node that is defined.
///
/// An `Err` is the first fault in the order of the walk; nothing is known of the drafts then.
#[cycle(walk)]
pub fn walk<'v>(
    alloc: Global,
    value: &'v Value,
    enclosing: &Namespace,
    drafts: &mut Drafts<'v>,
) -> Result<usize, SchemaError>
    requires known { IsNamespaceOf enclosing.now drafts.old }
    ensures { Walks (λ n. n) result (walk (view value.now)) (text_of_namespace enclosing.now) drafts.old drafts.new }
{
    match value {
        Value::Null | Value::Bool(_) | Value::Number(_) => Err(SchemaError::Unknown),
        Value::String(text) => walk_text(text.as_str(), enclosing, drafts),
        Value::Array(items) => walk_union(alloc, items, enclosing, drafts),
        Value::Object(_) => walk_object(alloc, value, enclosing, drafts),
    }
}

/// Walks the schema at an attribute, and returns its node; `Unknown` where the attribute is missing.
#[cycle(walk)]
fn walk_at<'v>(
    alloc: Global,
    value: Option<&'v Value>,
    enclosing: &Namespace,
    drafts: &mut Drafts<'v>,
) -> Result<usize, SchemaError>
    requires known { IsNamespaceOf enclosing.now drafts.old }
    ensures { Walks (λ n. n) result (or_unknown (option_map walk (data_at value.entry)))
        (text_of_namespace enclosing.now) drafts.old drafts.new }
{
    match value {
        Some(value) => walk(alloc, value, enclosing, drafts),
        None => Err(SchemaError::Unknown),
    }
}

/// Adds the node of a union, before those of its branches, and returns its number.
#[cycle(walk)]
fn walk_union<'v>(
    alloc: Global,
    items: &'v [Value],
    enclosing: &Namespace,
    drafts: &mut Drafts<'v>,
) -> Result<usize, SchemaError>
    requires known { IsNamespaceOf enclosing.now drafts.old }
    ensures { Walks (λ n. n) result (if_room (union_of (members (items_view items.now))))
        (text_of_namespace enclosing.now) drafts.old drafts.new }
{
    let node = next_node(drafts)?;
    drafts.push(Kind::Union(Vec::new(alloc)))?;
    let members = walk_members(alloc, items, enclosing, drafts)?;
    if !are_apart(alloc, &members, drafts)? {
        return Err(SchemaError::BadUnion);
    }
    drafts.set(node, Draft::Whole(Kind::Union(members)));
    Ok(node)
}

/// Walks the branches of a union in order, and returns their nodes.
#[cycle(walk)]
fn walk_members<'v>(
    alloc: Global,
    items: &'v [Value],
    enclosing: &Namespace,
    drafts: &mut Drafts<'v>,
) -> Result<Vec<usize>, SchemaError>
    requires known { IsNamespaceOf enclosing.now drafts.old }
    ensures { Walks (λ v. v.items) result (members (items_view items.now)) (text_of_namespace enclosing.now)
        drafts.old drafts.new }
{
    let mut members = Vec::new(alloc);
    for item in items {
        let member = walk(alloc, item, enclosing, drafts)?;
        members.push(member)?;
    }
    Ok(members)
}

/// Walks an object by the form that its `type` makes of it, and returns its node.
#[cycle(walk)]
fn walk_object<'v>(
    alloc: Global,
    value: &'v Value,
    enclosing: &Namespace,
    drafts: &mut Drafts<'v>,
) -> Result<usize, SchemaError>
    requires known { IsNamespaceOf enclosing.now drafts.old }
    ensures { Walks (λ n. n) result (object_walk (view value.now)) (text_of_namespace enclosing.now) drafts.old
        drafts.new }
{
    match form_of_type(value.get("type")) {
        Form::Record => walk_record(alloc, value, enclosing, drafts),
        Form::Enum => walk_enum(alloc, value, enclosing, drafts),
        Form::Fixed => walk_fixed(alloc, value, enclosing, drafts),
        Form::Array => walk_holder(alloc, Holder::Array, value.get("items"), enclosing, drafts),
        Form::Map => walk_holder(alloc, Holder::Map, value.get("values"), enclosing, drafts),
        Form::Error => Err(SchemaError::OutOfProfile),
        Form::Other => walk_at(alloc, value.get("type"), enclosing, drafts),
    }
}

/// Adds the node of an array or a map, before that of the type at its attribute, and returns its number.
#[cycle(walk)]
fn walk_holder<'v>(
    alloc: Global,
    holder: Holder,
    value: Option<&'v Value>,
    enclosing: &Namespace,
    drafts: &mut Drafts<'v>,
) -> Result<usize, SchemaError>
    requires known { IsNamespaceOf enclosing.now drafts.old }
    ensures { Walks (λ n. n) result (holder_walk holder (data_at value.entry)) (text_of_namespace enclosing.now)
        drafts.old drafts.new }
{
    let node = next_node(drafts)?;
    drafts.push(holder.kind(0))?;
    let inner = walk_at(alloc, value, enclosing, drafts)?;
    drafts.set(node, Draft::Whole(holder.kind(inner)));
    Ok(node)
}

/// Adds the node of a record, before those of its fields, and returns its number.
#[cycle(walk)]
fn walk_record<'v>(
    alloc: Global,
    value: &'v Value,
    enclosing: &Namespace,
    drafts: &mut Drafts<'v>,
) -> Result<usize, SchemaError>
    requires known { IsNamespaceOf enclosing.now drafts.old }
    ensures { Walks (λ n. n) result (object_as Form.Record (view value.now)) (text_of_namespace enclosing.now)
        drafts.old drafts.new }
{
    let node = next_node(drafts)?;
    let new = new_names(alloc, value, enclosing, drafts)?;
    let open = Draft::Record {
        name: new.name.copy()?,
        aliases: Aliases::of_texts(alloc, new.name.shared_namespace()?, Vec::new(alloc))?,
        fields: Vec::new(alloc),
    };
    let number = drafts.define(alloc, &new.name, new.number, open)?;
    let own = Namespace::of_name(&new.name, number)?;
    let fields = walk_fields(alloc, value.get("fields"), &own, drafts)?;
    let whole = Draft::Record {
        name: new.name,
        aliases: new.aliases,
        fields,
    };
    drafts.set(node, whole);
    Ok(node)
}

/// Walks the fields that the value at `fields` lists, and returns them; `Unknown` where it is no list.
#[cycle(walk)]
fn walk_fields<'v>(
    alloc: Global,
    value: Option<&'v Value>,
    enclosing: &Namespace,
    drafts: &mut Drafts<'v>,
) -> Result<Vec<DraftField<'v>>, SchemaError>
    requires known { IsNamespaceOf enclosing.now drafts.old }
    ensures { Walks (λ v. map draft_field_of v.items) result
        (or_unknown (option_map fields (data_at value.entry))) (text_of_namespace enclosing.now) drafts.old
        drafts.new }
{
    match value {
        None => Err(SchemaError::Unknown),
        Some(value) => match value.as_array() {
            None => Err(SchemaError::Unknown),
            Some(items) => walk_listed(alloc, items, enclosing, drafts),
        },
    }
}

/// Walks listed fields in order, and returns them.
#[cycle(walk)]
fn walk_listed<'v>(
    alloc: Global,
    items: &'v [Value],
    enclosing: &Namespace,
    drafts: &mut Drafts<'v>,
) -> Result<Vec<DraftField<'v>>, SchemaError>
    requires known { IsNamespaceOf enclosing.now drafts.old }
    ensures { Walks (λ v. map draft_field_of v.items) result (fields_after (items_view items.now) [])
        (text_of_namespace enclosing.now) drafts.old drafts.new }
{
    let mut list = FieldList::new(alloc);
    for item in items {
        let field = walk_field(alloc, item, &list, enclosing, drafts)?;
        list.push(field)?;
    }
    Ok(list.into_fields())
}

/// Walks a field that comes after others, and returns it.
#[cycle(walk)]
fn walk_field<'v>(
    alloc: Global,
    value: &'v Value,
    before: &FieldList<'v>,
    enclosing: &Namespace,
    drafts: &mut Drafts<'v>,
) -> Result<DraftField<'v>, SchemaError>
    requires known { IsNamespaceOf enclosing.now drafts.old }
    ensures { Walks draft_field_of result (field (view value.now) (field_names before.now))
        (text_of_namespace enclosing.now) drafts.old drafts.new }
{
    if !value.is_object() {
        return Err(SchemaError::Unknown);
    }
    if before.len() >= MOST_FIELDS {
        return Err(SchemaError::TooLarge);
    }
    let name = field_name(alloc, value.get("name"), before)?;
    let aliases = field_aliases(alloc, value.get("aliases"))?;
    let node = walk_at(alloc, value.get("type"), enclosing, drafts)?;
    Ok(DraftField {
        name,
        aliases,
        node,
        default: value.get("default"),
    })
}
