//! The walk of the types that have no parts: primitive types, references, enums and fixed.

ghost use Rattle.std.specs.Prelude.{◌≡◌, ◌<◌, ◌≤◌, ℕ, List, length, IfOk, IfErr, OnErr};
ghost use Rattle.serde_json.specs.View.{view};
ghost use Rattle.avro_types.specs.Node.{node_of};
ghost use Rattle.avro_schema_names.specs.Head.{IsUnnamed};
ghost use Rattle.spec_schema.specs.Head.{head_of_node};
ghost use Rattle.avro_schema_names.specs.Index.{IsNamespaceOf, text_of_namespace};
ghost use Rattle.avro_schema.specs.Contract.{Walks, object_as};
ghost use Rattle.spec_schema.specs.Walk.{leaf, named, reference};

use avro_schema_names::{
    Draft, Drafts, Form, Namespace, SchemaError, Word, default_symbol, defined_node, leaf_of,
    new_names, size_of, symbols_of,
};
use avro_types::{Kind, MOST_NODES};
use serde_json::Value;
use std::alloc::Global;

/// Returns the number that the next node gets. `TooLarge` where there are as many as a schema may have.
pub(crate) fn next_node(drafts: &Drafts) -> Result<usize, SchemaError>
    ensures node { IfOk result (λ n. n ≡ length drafts.now) }
    ensures room { IfOk result (λ n. n < MOST_NODES) }
    ensures full { IfErr result (λ e. e ≡ SchemaError.TooLarge) }
    ensures none { OnErr result (MOST_NODES ≤ length drafts.now) }
{
    let node = drafts.len();
    if node >= MOST_NODES {
        return Err(SchemaError::TooLarge);
    }
    Ok(node)
}

/// Adds the node of a kind that holds no others, and returns its number.
fn walk_leaf(kind: Kind, drafts: &mut Drafts) -> Result<usize, SchemaError>
    requires { IsUnnamed (head_of_node (node_of kind)) }
    ensures { (enclosing : List ℕ) → Walks (λ n. n) result (leaf (node_of kind)) enclosing drafts.old drafts.new }
{
    let node = next_node(drafts)?;
    drafts.push(kind)?;
    Ok(node)
}

/// Returns the node of the type that a text refers to ("Names"). `Unknown` where no node before has that name.
fn walk_reference(
    text: &str,
    enclosing: &Namespace,
    drafts: &mut Drafts,
) -> Result<usize, SchemaError>
    requires known { IsNamespaceOf enclosing.now drafts.old }
    ensures { Walks (λ n. n) result (reference text.now) (text_of_namespace enclosing.now) drafts.old drafts.new }
{
    match defined_node(text, enclosing, drafts) {
        Some(node) => Ok(node),
        None => Err(SchemaError::Unknown),
    }
}

/// Returns the node that a text names, which it adds where the text is a primitive type ("Primitive Types").
pub(crate) fn walk_text(
    text: &str,
    enclosing: &Namespace,
    drafts: &mut Drafts,
) -> Result<usize, SchemaError>
    requires known { IsNamespaceOf enclosing.now drafts.old }
    ensures { Walks (λ n. n) result (named text.now) (text_of_namespace enclosing.now) drafts.old drafts.new }
{
    let word = Word::of_text(text);
    if word.is_left_out() {
        return Err(SchemaError::OutOfProfile);
    }
    match leaf_of(word) {
        Some(kind) => walk_leaf(kind, drafts),
        None => walk_reference(text, enclosing, drafts),
    }
}

/// Adds the node of an enum, and returns its number ("Enums").
pub(crate) fn walk_enum(
    alloc: Global,
    value: &Value,
    enclosing: &Namespace,
    drafts: &mut Drafts,
) -> Result<usize, SchemaError>
    requires known { IsNamespaceOf enclosing.now drafts.old }
    ensures { Walks (λ n. n) result (object_as Form.Enum (view value.now)) (text_of_namespace enclosing.now)
        drafts.old drafts.new }
{
    let node = next_node(drafts)?;
    let new = new_names(alloc, value, enclosing, drafts)?;
    let symbols = symbols_of(alloc, value.get("symbols"))?;
    let default = default_symbol(&symbols, value.get("default"))?;
    let kind = Kind::Enum {
        name: new.name.copy()?,
        aliases: new.aliases,
        symbols,
        default,
    };
    drafts.define(alloc, &new.name, new.number, Draft::Whole(kind))?;
    Ok(node)
}

/// Adds the node of a fixed, and returns its number ("Fixed").
pub(crate) fn walk_fixed(
    alloc: Global,
    value: &Value,
    enclosing: &Namespace,
    drafts: &mut Drafts,
) -> Result<usize, SchemaError>
    requires known { IsNamespaceOf enclosing.now drafts.old }
    ensures { Walks (λ n. n) result (object_as Form.Fixed (view value.now)) (text_of_namespace enclosing.now)
        drafts.old drafts.new }
{
    let node = next_node(drafts)?;
    let new = new_names(alloc, value, enclosing, drafts)?;
    let size = size_of(value.get("size"))?;
    let kind = Kind::Fixed {
        name: new.name.copy()?,
        aliases: new.aliases,
        size,
    };
    drafts.define(alloc, &new.name, new.number, Draft::Whole(kind))?;
    Ok(node)
}
