//! The search for the value that declares a node, by the node's number.

ghost use Rattle.std.specs.Prelude.{◌≡◌, [], is_some, OnOk};
ghost use Rattle.serde_json.specs.Data.{array, string};
ghost use Rattle.serde_json.specs.Find.{as_object};
ghost use Rattle.serde_json.specs.View.{view, items_view};
ghost use Rattle.spec_schema.specs.Word.{leaf_of, word_of};
ghost use Rattle.spec_schema.specs.declared.word.Form.{Form};
ghost use Rattle.avro_schema_faults.specs.Faults.{IsObject, IsOfForm};
ghost use Rattle.avro_schema_faults.specs.Searching.{Behind, LeadsToField, Searches, SoughtIn, SoughtInField, SoughtInFields, SoughtInList, SoughtInMembers};

use avro_schema_names::{Form, Word, form_of_type, leaf_of};
use avro_schema_paths::Step;
use serde_json::Value;
use std::alloc::AllocError;

/// Returns whether a text is a primitive type's name.
fn is_leaf(text: &str) -> bool
    ensures { result ≡ is_some (leaf_of (word_of text.now)) }
{
    leaf_of(Word::of_text(text)).is_some()
}

/// Returns what is left of `left` nodes after those that a text declares: a name declares none ("Primitive Types",
/// "Names"). `None` where the text declares the node after them.
fn seek_in_text(text: &str, left: usize) -> Option<usize>
    ensures { SoughtIn (string text.now) left result [] }
{
    if is_leaf(text) {
        return left.checked_sub(1);
    }
    Some(left)
}

/// Searches a value for what declares the node after `left` others (Avro 1.11 Specification, "Schema Declaration").
/// Returns `None` where it is found, with its path at the end of the trail. Else the trail is as it was, and what is
/// returned is how many of the others come after the value.
///
/// It reads no names, so its count is that of the walk only where the walk of the value ends with no fault.
#[cycle(seek)]
pub(crate) fn seek(
    value: &Value,
    left: usize,
    trail: &mut Vec<Step>,
) -> Result<Option<usize>, AllocError>
    ensures { Searches result (SoughtIn (view value.now) left) trail.old.items trail.new.items }
{
    match value {
        Value::Null | Value::Bool(_) | Value::Number(_) => Ok(Some(left)),
        Value::String(text) => Ok(seek_in_text(text.as_str(), left)),
        Value::Array(items) => seek_in_union(items, left, trail),
        Value::Object(_) => seek_in_object(value, left, trail),
    }
}

/// Searches a value that is one step away, as `seek` does. Where it finds the node the step is in the trail too.
#[cycle(seek)]
fn seek_in_part(
    step: Step,
    value: &Value,
    left: usize,
    trail: &mut Vec<Step>,
) -> Result<Option<usize>, AllocError>
    ensures { Searches result (Behind step (SoughtIn (view value.now) left)) trail.old.items trail.new.items }
{
    trail.push(step)?;
    let found = seek(value, left, trail)?;
    if found.is_some() {
        trail.pop();
    }
    Ok(found)
}

/// Searches a union ("Unions").
#[cycle(seek)]
fn seek_in_union(
    items: &[Value],
    left: usize,
    trail: &mut Vec<Step>,
) -> Result<Option<usize>, AllocError>
    ensures { Searches result (SoughtIn (array (items_view items.now)) left) trail.old.items trail.new.items }
{
    if left == 0 {
        return Ok(None);
    }
    seek_in_members(items, left - 1, trail)
}

/// Searches the branches of a union, in order.
#[cycle(seek)]
fn seek_in_members(
    items: &[Value],
    left: usize,
    trail: &mut Vec<Step>,
) -> Result<Option<usize>, AllocError>
    ensures { Searches result (SoughtInMembers (items_view items.now) 0 left) trail.old.items trail.new.items }
{
    let mut rest = left;
    for (i, item) in items.iter().enumerate() {
        match seek_in_part(Step::At(i), item, rest, trail)? {
            Some(fewer) => rest = fewer,
            None => return Ok(None),
        }
    }
    Ok(Some(rest))
}

/// Searches an object, by its `type`.
#[cycle(seek)]
fn seek_in_object(
    value: &Value,
    left: usize,
    trail: &mut Vec<Step>,
) -> Result<Option<usize>, AllocError>
    requires object { IsObject (view value.now) }
    ensures { Searches result (SoughtIn (view value.now) left) trail.old.items trail.new.items }
{
    match form_of_type(value.get("type")) {
        Form::Record => seek_in_record(value, left, trail),
        Form::Enum => Ok(left.checked_sub(1)),
        Form::Fixed => Ok(left.checked_sub(1)),
        Form::Array => seek_in_array(value, left, trail),
        Form::Map => seek_in_map(value, left, trail),
        Form::Error => Ok(Some(left)),
        Form::Other => seek_in_wrapper(value, left, trail),
    }
}

/// Searches the schema that an object wraps.
#[cycle(seek)]
fn seek_in_wrapper(
    value: &Value,
    left: usize,
    trail: &mut Vec<Step>,
) -> Result<Option<usize>, AllocError>
    requires form { IsOfForm Form.Other (view value.now) }
    ensures { Searches result (SoughtIn (view value.now) left) trail.old.items trail.new.items }
{
    match value.get("type") {
        Some(inner) => seek_in_part(Step::Type, inner, left, trail),
        None => Ok(Some(left)),
    }
}

/// Searches an array ("Arrays").
#[cycle(seek)]
fn seek_in_array(
    value: &Value,
    left: usize,
    trail: &mut Vec<Step>,
) -> Result<Option<usize>, AllocError>
    requires form { IsOfForm Form.Array (view value.now) }
    ensures { Searches result (SoughtIn (view value.now) left) trail.old.items trail.new.items }
{
    if left == 0 {
        return Ok(None);
    }
    match value.get("items") {
        Some(items) => seek_in_part(Step::Items, items, left - 1, trail),
        None => Ok(Some(left - 1)),
    }
}

/// Searches a map ("Maps").
#[cycle(seek)]
fn seek_in_map(
    value: &Value,
    left: usize,
    trail: &mut Vec<Step>,
) -> Result<Option<usize>, AllocError>
    requires form { IsOfForm Form.Map (view value.now) }
    ensures { Searches result (SoughtIn (view value.now) left) trail.old.items trail.new.items }
{
    if left == 0 {
        return Ok(None);
    }
    match value.get("values") {
        Some(values) => seek_in_part(Step::Values, values, left - 1, trail),
        None => Ok(Some(left - 1)),
    }
}

/// Searches a record ("Records").
#[cycle(seek)]
fn seek_in_record(
    value: &Value,
    left: usize,
    trail: &mut Vec<Step>,
) -> Result<Option<usize>, AllocError>
    requires form { IsOfForm Form.Record (view value.now) }
    ensures { Searches result (SoughtIn (view value.now) left) trail.old.items trail.new.items }
{
    if left == 0 {
        return Ok(None);
    }
    match value.get("fields") {
        Some(listed) => seek_in_fields(listed, left - 1, trail),
        None => Ok(Some(left - 1)),
    }
}

/// Searches the value at `fields`. Where it finds the node the step to that value is in the trail too.
#[cycle(seek)]
fn seek_in_fields(
    value: &Value,
    left: usize,
    trail: &mut Vec<Step>,
) -> Result<Option<usize>, AllocError>
    ensures { Searches result (Behind Step.Fields (SoughtInList (view value.now) left)) trail.old.items
        trail.new.items }
{
    match value.as_array() {
        None => Ok(Some(left)),
        Some(items) => {
            trail.push(Step::Fields)?;
            let found = seek_in_listed(items, left, trail)?;
            if found.is_some() {
                trail.pop();
            }
            Ok(found)
        }
    }
}

/// Searches the fields, in order.
#[cycle(seek)]
fn seek_in_listed(
    items: &[Value],
    left: usize,
    trail: &mut Vec<Step>,
) -> Result<Option<usize>, AllocError>
    ensures { Searches result (SoughtInFields (items_view items.now) 0 left) trail.old.items trail.new.items }
{
    let mut rest = left;
    for (i, item) in items.iter().enumerate() {
        match seek_in_field(i, item, rest, trail)? {
            Some(fewer) => rest = fewer,
            None => return Ok(None),
        }
    }
    Ok(Some(rest))
}

/// Searches the type of the field at a position. Where it finds the node the position is in the trail too.
#[cycle(seek)]
fn seek_in_field(
    position: usize,
    value: &Value,
    left: usize,
    trail: &mut Vec<Step>,
) -> Result<Option<usize>, AllocError>
    ensures { Searches result (Behind (Step.At position) (SoughtInField (view value.now) left)) trail.old.items
        trail.new.items }
{
    match value.get("type") {
        None => Ok(Some(left)),
        Some(inner) => {
            trail.push(Step::At(position))?;
            let found = seek_in_part(Step::Type, inner, left, trail)?;
            if found.is_some() {
                trail.pop();
            }
            Ok(found)
        }
    }
}

/// Adds to the trail the steps to the field at a position of the record that is a node.
pub(crate) fn lead_to_field(
    value: &Value,
    node: usize,
    position: usize,
    trail: &mut Vec<Step>,
) -> Result<(), AllocError>
    ensures { OnOk result (LeadsToField (view value.now) node position trail.old.items trail.new.items) }
{
    seek(value, node, trail)?;
    trail.push(Step::Fields)?;
    trail.push(Step::At(position))?;
    Ok(())
}
