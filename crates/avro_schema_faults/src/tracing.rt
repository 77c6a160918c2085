//! The walk over a JSON value, with the path of the value that it has come to.

ghost use Rattle.std.specs.Prelude.{◌≡◌, true, [], is_some, map};
ghost use Rattle.serde_json.specs.Data.{array};
ghost use Rattle.serde_json.specs.Find.{as_object};
ghost use Rattle.serde_json.specs.View.{view, items_view};
ghost use Rattle.spec_schema.specs.declared.word.Form.{Form};
ghost use Rattle.avro_schema_names.specs.Draft.{draft_field_of, field_names};
ghost use Rattle.spec_schema.specs.Head.{UnionHead, heads_of};
ghost use Rattle.avro_schema_names.specs.Index.{IsNamespaceOf, text_of_namespace};
ghost use Rattle.avro_schema.specs.Contract.{Walks, object_as, object_walk};
ghost use Rattle.spec_schema.specs.Walk.{field, fields, fields_after, if_room, members, union_of, walk};
ghost use Rattle.avro_schema_faults.specs.Faults.{IsObject, IsOfForm, field_after, listing, schema};
ghost use Rattle.avro_schema_faults.specs.Trail.{Leaves, LeavesFrom, LeavesField, LeavesMember};

use crate::types::{next_node, walk_enum, walk_fixed, walk_text};
use avro_schema_names::{
    Draft, DraftField, Drafts, FieldList, Form, Namespace, SchemaError, are_apart, field_aliases,
    field_name, form_of_type, new_names,
};
use avro_schema_paths::Step;
use avro_types::{Aliases, Kind, MOST_FIELDS};
use serde_json::Value;
use std::alloc::Global;

/// Returns the node of the schema that a value is, after it added that node and those of its parts (Avro 1.11
/// Specification, "Schema Declaration").
///
/// An `Err` is the first fault in the order of the walk, and then the trail has the steps that it had, and after them
/// those to the smallest value that is at fault. After `Ok` the trail is as it was.
#[cycle(walk)]
pub(crate) fn walk<'v>(
    alloc: Global,
    value: &'v Value,
    enclosing: &Namespace,
    drafts: &mut Drafts<'v>,
    trail: &mut Vec<Step>,
) -> Result<usize, SchemaError>
    requires known { IsNamespaceOf enclosing.now drafts.old }
    ensures nodes { Walks (λ n. n) result (walk (view value.now)) (text_of_namespace enclosing.now)
        drafts.old drafts.new }
    ensures place { Leaves result (schema (view value.now) (text_of_namespace enclosing.now) (heads_of drafts.old))
        trail.old.items trail.new.items }
{
    match value {
        Value::Null | Value::Bool(_) | Value::Number(_) => Err(SchemaError::Unknown),
        Value::String(text) => walk_text(text.as_str(), enclosing, drafts),
        Value::Array(items) => walk_union(alloc, items, enclosing, drafts, trail),
        Value::Object(_) => walk_object(alloc, value, enclosing, drafts, trail),
    }
}

/// Returns the node of the schema that is one step away, as `walk` does. After an `Err` the step is in the trail too.
#[cycle(walk)]
fn walk_part<'v>(
    alloc: Global,
    step: Step,
    value: &'v Value,
    enclosing: &Namespace,
    drafts: &mut Drafts<'v>,
    trail: &mut Vec<Step>,
) -> Result<usize, SchemaError>
    requires known { IsNamespaceOf enclosing.now drafts.old }
    ensures nodes { Walks (λ n. n) result (walk (view value.now)) (text_of_namespace enclosing.now)
        drafts.old drafts.new }
    ensures place { LeavesFrom step result
        (schema (view value.now) (text_of_namespace enclosing.now) (heads_of drafts.old))
        trail.old.items trail.new.items }
{
    trail.push(step)?;
    let node = walk(alloc, value, enclosing, drafts, trail)?;
    trail.pop();
    Ok(node)
}

/// Returns the node of a union, after it added that node and those of its branches ("Unions").
#[cycle(walk)]
fn walk_union<'v>(
    alloc: Global,
    items: &'v [Value],
    enclosing: &Namespace,
    drafts: &mut Drafts<'v>,
    trail: &mut Vec<Step>,
) -> Result<usize, SchemaError>
    requires known { IsNamespaceOf enclosing.now drafts.old }
    ensures nodes { Walks (λ n. n) result (if_room (union_of (members (items_view items.now))))
        (text_of_namespace enclosing.now) drafts.old drafts.new }
    ensures place { Leaves result
        (schema (array (items_view items.now)) (text_of_namespace enclosing.now) (heads_of drafts.old))
        trail.old.items trail.new.items }
{
    let node = next_node(drafts)?;
    drafts.push(Kind::Union(Vec::new(alloc)))?;
    let members = walk_members(alloc, items, enclosing, drafts, trail)?;
    if !are_apart(alloc, &members, drafts)? {
        return Err(SchemaError::BadUnion);
    }
    drafts.set(node, Draft::Whole(Kind::Union(members)));
    Ok(node)
}

/// Returns the nodes of a union's branches, in order.
#[cycle(walk)]
fn walk_members<'v>(
    alloc: Global,
    items: &'v [Value],
    enclosing: &Namespace,
    drafts: &mut Drafts<'v>,
    trail: &mut Vec<Step>,
) -> Result<Vec<usize>, SchemaError>
    requires known { IsNamespaceOf enclosing.now drafts.old }
    ensures nodes { Walks (λ v. v.items) result (members (items_view items.now)) (text_of_namespace enclosing.now)
        drafts.old drafts.new }
    ensures place { LeavesMember result (items_view items.now) (text_of_namespace enclosing.now)
        (heads_of drafts.old) trail.old.items trail.new.items }
{
    let mut members = Vec::new(alloc);
    for (i, item) in items.iter().enumerate() {
        let member = walk_part(alloc, Step::At(i), item, enclosing, drafts, trail)?;
        members.push(member)?;
    }
    Ok(members)
}

/// Returns the node of an object, by its `type`.
#[cycle(walk)]
fn walk_object<'v>(
    alloc: Global,
    value: &'v Value,
    enclosing: &Namespace,
    drafts: &mut Drafts<'v>,
    trail: &mut Vec<Step>,
) -> Result<usize, SchemaError>
    requires known { IsNamespaceOf enclosing.now drafts.old }
    requires object { IsObject (view value.now) }
    ensures nodes { Walks (λ n. n) result (object_walk (view value.now)) (text_of_namespace enclosing.now)
        drafts.old drafts.new }
    ensures place { Leaves result (schema (view value.now) (text_of_namespace enclosing.now) (heads_of drafts.old))
        trail.old.items trail.new.items }
{
    match form_of_type(value.get("type")) {
        Form::Record => walk_record(alloc, value, enclosing, drafts, trail),
        Form::Enum => walk_enum(alloc, value, enclosing, drafts),
        Form::Fixed => walk_fixed(alloc, value, enclosing, drafts),
        Form::Array => walk_array(alloc, value, enclosing, drafts, trail),
        Form::Map => walk_map(alloc, value, enclosing, drafts, trail),
        Form::Error => Err(SchemaError::OutOfProfile),
        Form::Other => walk_wrapped(alloc, value, enclosing, drafts, trail),
    }
}

/// Returns the node of the schema that an object wraps. `Unknown` where it has no `type`.
#[cycle(walk)]
fn walk_wrapped<'v>(
    alloc: Global,
    value: &'v Value,
    enclosing: &Namespace,
    drafts: &mut Drafts<'v>,
    trail: &mut Vec<Step>,
) -> Result<usize, SchemaError>
    requires known { IsNamespaceOf enclosing.now drafts.old }
    requires form { IsOfForm Form.Other (view value.now) }
    ensures nodes { Walks (λ n. n) result (object_as Form.Other (view value.now)) (text_of_namespace enclosing.now)
        drafts.old drafts.new }
    ensures place { Leaves result (schema (view value.now) (text_of_namespace enclosing.now) (heads_of drafts.old))
        trail.old.items trail.new.items }
{
    match value.get("type") {
        Some(inner) => walk_part(alloc, Step::Type, inner, enclosing, drafts, trail),
        None => Err(SchemaError::Unknown),
    }
}

/// Returns the node of an array, after it added that node and those of its `items` ("Arrays"). `Unknown` where there
/// are none.
#[cycle(walk)]
fn walk_array<'v>(
    alloc: Global,
    value: &'v Value,
    enclosing: &Namespace,
    drafts: &mut Drafts<'v>,
    trail: &mut Vec<Step>,
) -> Result<usize, SchemaError>
    requires known { IsNamespaceOf enclosing.now drafts.old }
    requires form { IsOfForm Form.Array (view value.now) }
    ensures nodes { Walks (λ n. n) result (object_as Form.Array (view value.now)) (text_of_namespace enclosing.now)
        drafts.old drafts.new }
    ensures place { Leaves result (schema (view value.now) (text_of_namespace enclosing.now) (heads_of drafts.old))
        trail.old.items trail.new.items }
{
    let node = next_node(drafts)?;
    drafts.push(Kind::Array(0))?;
    match value.get("items") {
        Some(items) => {
            let inner = walk_part(alloc, Step::Items, items, enclosing, drafts, trail)?;
            drafts.set(node, Draft::Whole(Kind::Array(inner)));
            Ok(node)
        }
        None => Err(SchemaError::Unknown),
    }
}

/// Returns the node of a map, after it added that node and those of its `values` ("Maps"). `Unknown` where there are
/// none.
#[cycle(walk)]
fn walk_map<'v>(
    alloc: Global,
    value: &'v Value,
    enclosing: &Namespace,
    drafts: &mut Drafts<'v>,
    trail: &mut Vec<Step>,
) -> Result<usize, SchemaError>
    requires known { IsNamespaceOf enclosing.now drafts.old }
    requires form { IsOfForm Form.Map (view value.now) }
    ensures nodes { Walks (λ n. n) result (object_as Form.Map (view value.now)) (text_of_namespace enclosing.now)
        drafts.old drafts.new }
    ensures place { Leaves result (schema (view value.now) (text_of_namespace enclosing.now) (heads_of drafts.old))
        trail.old.items trail.new.items }
{
    let node = next_node(drafts)?;
    drafts.push(Kind::Map(0))?;
    match value.get("values") {
        Some(values) => {
            let inner = walk_part(alloc, Step::Values, values, enclosing, drafts, trail)?;
            drafts.set(node, Draft::Whole(Kind::Map(inner)));
            Ok(node)
        }
        None => Err(SchemaError::Unknown),
    }
}

/// Returns the node of a record, after it added that node and those of its fields ("Records"). `Unknown` where it has
/// no `fields`.
#[cycle(walk)]
fn walk_record<'v>(
    alloc: Global,
    value: &'v Value,
    enclosing: &Namespace,
    drafts: &mut Drafts<'v>,
    trail: &mut Vec<Step>,
) -> Result<usize, SchemaError>
    requires known { IsNamespaceOf enclosing.now drafts.old }
    requires form { IsOfForm Form.Record (view value.now) }
    ensures nodes { Walks (λ n. n) result (object_as Form.Record (view value.now)) (text_of_namespace enclosing.now)
        drafts.old drafts.new }
    ensures place { Leaves result (schema (view value.now) (text_of_namespace enclosing.now) (heads_of drafts.old))
        trail.old.items trail.new.items }
{
    let node = next_node(drafts)?;
    let new = new_names(alloc, value, enclosing, drafts)?;
    let open = Draft::Record {
        name: new.name.copy()?,
        aliases: Aliases::of_texts(alloc, new.name.shared_namespace()?, Vec::new(alloc))?,
        fields: Vec::new(alloc),
    };
    let number = drafts.define(alloc, &new.name, new.number, open)?;
    let own = Namespace::of_name(&new.name, number)?;
    match value.get("fields") {
        Some(listed) => {
            let fields = walk_fields(alloc, listed, &own, drafts, trail)?;
            let whole = Draft::Record {
                name: new.name,
                aliases: new.aliases,
                fields,
            };
            drafts.set(node, whole);
            Ok(node)
        }
        None => Err(SchemaError::Unknown),
    }
}

/// Returns the fields that the value at `fields` lists. `Unknown` where it is no array.
#[cycle(walk)]
fn walk_fields<'v>(
    alloc: Global,
    value: &'v Value,
    enclosing: &Namespace,
    drafts: &mut Drafts<'v>,
    trail: &mut Vec<Step>,
) -> Result<Vec<DraftField<'v>>, SchemaError>
    requires known { IsNamespaceOf enclosing.now drafts.old }
    ensures nodes { Walks (λ v. map draft_field_of v.items) result (fields (view value.now))
        (text_of_namespace enclosing.now) drafts.old drafts.new }
    ensures place { LeavesFrom Step.Fields result
        (listing (view value.now) (text_of_namespace enclosing.now) (heads_of drafts.old))
        trail.old.items trail.new.items }
{
    trail.push(Step::Fields)?;
    match value.as_array() {
        None => Err(SchemaError::Unknown),
        Some(items) => {
            let fields = walk_listed(alloc, items, enclosing, drafts, trail)?;
            trail.pop();
            Ok(fields)
        }
    }
}

/// Returns the fields, in order.
#[cycle(walk)]
fn walk_listed<'v>(
    alloc: Global,
    items: &'v [Value],
    enclosing: &Namespace,
    drafts: &mut Drafts<'v>,
    trail: &mut Vec<Step>,
) -> Result<Vec<DraftField<'v>>, SchemaError>
    requires known { IsNamespaceOf enclosing.now drafts.old }
    ensures nodes { Walks (λ v. map draft_field_of v.items) result (fields_after (items_view items.now) [])
        (text_of_namespace enclosing.now) drafts.old drafts.new }
    ensures place { LeavesField result (items_view items.now) (text_of_namespace enclosing.now)
        (heads_of drafts.old) trail.old.items trail.new.items }
{
    let mut list = FieldList::new(alloc);
    for (i, item) in items.iter().enumerate() {
        trail.push(Step::At(i))?;
        let field = walk_field(alloc, item, &list, enclosing, drafts, trail)?;
        trail.pop();
        list.push(field)?;
    }
    Ok(list.into_fields())
}

/// Returns a field that comes after others. `Unknown` where it is no object or has no `type`, `TooLarge` where there
/// are as many before it as a record may have.
#[cycle(walk)]
fn walk_field<'v>(
    alloc: Global,
    value: &'v Value,
    before: &FieldList<'v>,
    enclosing: &Namespace,
    drafts: &mut Drafts<'v>,
    trail: &mut Vec<Step>,
) -> Result<DraftField<'v>, SchemaError>
    requires known { IsNamespaceOf enclosing.now drafts.old }
    ensures nodes { Walks draft_field_of result (field (view value.now) (field_names before.now))
        (text_of_namespace enclosing.now) drafts.old drafts.new }
    ensures place { Leaves result (field_after (field_names before.now) (view value.now)
        (text_of_namespace enclosing.now) (heads_of drafts.old)) trail.old.items trail.new.items }
{
    if !value.is_object() {
        return Err(SchemaError::Unknown);
    }
    if before.len() >= MOST_FIELDS {
        return Err(SchemaError::TooLarge);
    }
    let name = field_name(alloc, value.get("name"), before)?;
    let aliases = field_aliases(alloc, value.get("aliases"))?;
    match value.get("type") {
        Some(inner) => Ok(DraftField {
            name,
            aliases,
            node: walk_part(alloc, Step::Type, inner, enclosing, drafts, trail)?,
            default: value.get("default"),
        }),
        None => Err(SchemaError::Unknown),
    }
}
