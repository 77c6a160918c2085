//! Reading a JSON value as the default of a field.

ghost use Rattle.std.specs.Prelude.{Some, map, option_map};
ghost use Rattle.std.specs.Option.{ok_or};
ghost use Rattle.serde_json.specs.Find.{get};
ghost use Rattle.serde_json.specs.View.{number_view, view, items_view, members_view};
ghost use Rattle.avro_types.specs.Datum.{data_of, datum_of, pairs_of};
ghost use Rattle.spec_schema.specs.Defaults.{bytes_in, by_first, default_of, fields_value, items_value, leaf_value, number_value, pairs_value, text_value, value_of};
ghost use Rattle.avro_schema_names.specs.Draft.{HasFewSymbols, HaveFewSymbols, draft_field_of, draft_of, drafts_of};
ghost use Rattle.spec_schema.specs.Draft.{Whole};
ghost use Rattle.avro_schema_names.specs.Fault.{Tells};
ghost use Rattle.spec_avro.specs.Node.{UnionNode};
ghost use Rattle.avro_types.specs.Node.{node_of};

use avro_schema_names::{Draft, DraftField, SchemaError, default_member};
use avro_types::{Datum, Kind};
use serde_json::{Map, Number, Value};
use std::alloc::Global;

/// Returns the bytes whose code points a text has; `BadDefault` where a code point is above 255.
fn bytes_in(alloc: Global, text: &str) -> Result<Vec<u8>, SchemaError>
    ensures { Tells (λ v. v.items) result (ok_or (bytes_in text.now) SchemaError.BadDefault) }
{
    let mut bytes = Vec::new(alloc);
    for c in text.chars() {
        let Ok(byte) = u8::try_from(c) else {
            return Err(SchemaError::BadDefault);
        };
        bytes.push(byte)?;
    }
    Ok(bytes)
}

/// Returns the datum that a number is by a kind, or `BadDefault` where it is none.
fn number_default(kind: &Kind, number: &Number) -> Result<Datum, SchemaError>
    ensures { Tells datum_of result (ok_or (number_value (number_view number.now) (Whole (node_of kind.now)))
        SchemaError.BadDefault) }
{
    match (kind, number.as_i64()) {
        (Kind::Int, Some(n)) => match i32::try_from(n) {
            Ok(n) => Ok(Datum::Int(n)),
            Err(_) => Err(SchemaError::BadDefault),
        },
        (Kind::Long, Some(n)) => Ok(Datum::Long(n)),
        _ => Err(SchemaError::BadDefault),
    }
}

/// Returns the datum that a text is by a kind, or `BadDefault` where it is none.
fn text_default(alloc: Global, kind: &Kind, text: &str) -> Result<Datum, SchemaError>
    requires { HasFewSymbols (Whole (node_of kind.now)) }
    ensures { Tells datum_of result (ok_or (text_value text.now (Whole (node_of kind.now))) SchemaError.BadDefault) }
{
    match kind {
        Kind::Bytes => Ok(Datum::Bytes(bytes_in(alloc, text)?)),
        Kind::Text => Ok(Datum::Text(String::from_str(alloc, text)?)),
        Kind::Fixed { size, .. } => {
            let bytes = bytes_in(alloc, text)?;
            if bytes.len() != *size {
                return Err(SchemaError::BadDefault);
            }
            Ok(Datum::Fixed(bytes))
        }
        Kind::Enum { symbols, .. } => match symbols.position_of(text) {
            Some(position) => Ok(Datum::Enum(position as u32)),
            None => Err(SchemaError::BadDefault),
        },
        _ => Err(SchemaError::BadDefault),
    }
}

/// Returns the datum that a value is by a kind that holds no others, or `BadDefault` where it is none.
fn leaf_default(alloc: Global, kind: &Kind, value: &Value) -> Result<Datum, SchemaError>
    requires few { HasFewSymbols (Whole (node_of kind.now)) }
    ensures { Tells datum_of result (ok_or (leaf_value (view value.now) (Whole (node_of kind.now)))
        SchemaError.BadDefault) }
{
    match (kind, value) {
        (Kind::Null, Value::Null) => Ok(Datum::Null),
        (Kind::Boolean, Value::Bool(b)) => Ok(Datum::Boolean(*b)),
        (_, Value::Number(number)) => number_default(kind, number),
        (_, Value::String(text)) => text_default(alloc, kind, text.as_str()),
        _ => Err(SchemaError::BadDefault),
    }
}

/// Returns the datum that a value is by a node, or `BadDefault` where it is none or there is no such node.
#[cycle(default)]
pub fn default_at(
    alloc: Global,
    drafts: &[Draft],
    node: usize,
    value: &Value,
) -> Result<Datum, SchemaError>
    requires few { HaveFewSymbols (drafts_of drafts.now) }
    ensures { Tells datum_of result (ok_or (default_of (drafts_of drafts.now) node (view value.now))
        SchemaError.BadDefault) }
{
    let Some(draft) = drafts.get(node) else {
        return Err(SchemaError::BadDefault);
    };
    match draft {
        Draft::Whole(kind) => match kind {
            Kind::Union(members) => union_default(alloc, drafts, members, value),
            _ => plain_default(alloc, drafts, draft, value),
        },
        Draft::Record { .. } => plain_default(alloc, drafts, draft, value),
    }
}

/// Returns the datum that a value is by a union: one of its first branch.
#[cycle(default)]
fn union_default(
    alloc: Global,
    drafts: &[Draft],
    members: &[usize],
    value: &Value,
) -> Result<Datum, SchemaError>
    requires few { HaveFewSymbols (drafts_of drafts.now) }
    ensures { Tells datum_of result
        (ok_or (by_first (drafts_of drafts.now) (value_of (view value.now) (drafts_of drafts.now))
        (Some (Whole (UnionNode members.now)))) SchemaError.BadDefault) }
{
    let Some(first) = default_member(members) else {
        return Err(SchemaError::BadDefault);
    };
    let Some(draft) = drafts.get(first) else {
        return Err(SchemaError::BadDefault);
    };
    let datum = plain_default(alloc, drafts, draft, value)?;
    Ok(Datum::Union(0, Box::new(alloc, datum)?))
}

/// Returns the datum that a value is by a node that is no union.
#[cycle(default)]
fn plain_default(
    alloc: Global,
    drafts: &[Draft],
    draft: &Draft,
    value: &Value,
) -> Result<Datum, SchemaError>
    requires few { HaveFewSymbols (drafts_of drafts.now) }
    requires own { HasFewSymbols (draft_of draft.now) }
    ensures { Tells datum_of result
        (ok_or (value_of (view value.now) (drafts_of drafts.now) (draft_of draft.now)) SchemaError.BadDefault) }
{
    match draft {
        Draft::Whole(kind) => whole_default(alloc, drafts, kind, value),
        Draft::Record { fields, .. } => {
            if !value.is_object() {
                return Err(SchemaError::BadDefault);
            }
            let data = fields_default(alloc, drafts, fields, value)?;
            Ok(Datum::Record(data))
        }
    }
}

/// Returns the datum that a value is by a kind that is no union.
#[cycle(default)]
fn whole_default(
    alloc: Global,
    drafts: &[Draft],
    kind: &Kind,
    value: &Value,
) -> Result<Datum, SchemaError>
    requires few { HaveFewSymbols (drafts_of drafts.now) }
    requires own { HasFewSymbols (Whole (node_of kind.now)) }
    ensures { Tells datum_of result
        (ok_or (value_of (view value.now) (drafts_of drafts.now) (Whole (node_of kind.now))) SchemaError.BadDefault) }
{
    match kind {
        Kind::Array(node) => {
            let Some(items) = value.as_array() else {
                return Err(SchemaError::BadDefault);
            };
            let data = items_default(alloc, drafts, *node, items)?;
            Ok(Datum::Array(data))
        }
        Kind::Map(node) => {
            let Some(members) = value.as_object() else {
                return Err(SchemaError::BadDefault);
            };
            let pairs = pairs_default(alloc, drafts, *node, members)?;
            Ok(Datum::Map(pairs))
        }
        _ => leaf_default(alloc, kind, value),
    }
}

/// Returns the data that values are by one node, in order.
#[cycle(default)]
fn items_default(
    alloc: Global,
    drafts: &[Draft],
    node: usize,
    items: &[Value],
) -> Result<Vec<Datum>, SchemaError>
    requires few { HaveFewSymbols (drafts_of drafts.now) }
    ensures { Tells (λ v. data_of v.items) result
        (ok_or (items_value (items_view items.now) (drafts_of drafts.now) node) SchemaError.BadDefault) }
{
    let mut data = Vec::new(alloc);
    for item in items {
        let datum = default_at(alloc, drafts, node, item)?;
        data.push(datum)?;
    }
    Ok(data)
}

/// Returns the pairs that the members of an object are, the values by one node.
#[cycle(default)]
fn pairs_default(
    alloc: Global,
    drafts: &[Draft],
    node: usize,
    members: &Map<String, Value>,
) -> Result<Vec<(String, Datum)>, SchemaError>
    requires few { HaveFewSymbols (drafts_of drafts.now) }
    ensures { Tells (λ v. pairs_of v.items) result
        (ok_or (pairs_value (members_view members.now.entries) (drafts_of drafts.now) node) SchemaError.BadDefault) }
{
    let mut pairs = Vec::new(alloc);
    for (key, value) in members.iter() {
        let datum = default_at(alloc, drafts, node, value)?;
        let key = key.clone()?;
        pairs.push((key, datum))?;
    }
    Ok(pairs)
}

/// Returns the data of a record's fields, each of the value under the field's name; `BadDefault` where one is missing.
#[cycle(default)]
fn fields_default(
    alloc: Global,
    drafts: &[Draft],
    fields: &[DraftField],
    value: &Value,
) -> Result<Vec<Datum>, SchemaError>
    requires few { HaveFewSymbols (drafts_of drafts.now) }
    ensures { Tells (λ v. data_of v.items) result
        (ok_or (fields_value (drafts_of drafts.now)
        (λ k. option_map (λ d. value_of d (drafts_of drafts.now)) (get k (view value.now)))
        (map draft_field_of fields.now)) SchemaError.BadDefault) }
{
    let mut data = Vec::new(alloc);
    for field in fields {
        let Some(member) = value.get(field.name.as_str()) else {
            return Err(SchemaError::BadDefault);
        };
        let datum = default_at(alloc, drafts, field.node, member)?;
        data.push(datum)?;
    }
    Ok(data)
}
