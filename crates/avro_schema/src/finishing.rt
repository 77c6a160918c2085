//! Reading the defaults of all nodes.

ghost use Rattle.std.specs.Prelude.{◌≡◌, IfOk, map, option_map};
ghost use Rattle.std.specs.Option.{ok_or};
ghost use Rattle.avro_types.specs.Datum.{datum_of};
ghost use Rattle.spec_schema.specs.Defaults.{all_defaults, field_default, field_defaults, fields_with, node_defaults, node_with, nodes_with};
ghost use Rattle.avro_schema_names.specs.Draft.{HaveFewSymbols, data_at, draft_field_of, draft_of, drafts_of};
ghost use Rattle.avro_schema_names.specs.Fault.{Tells};
ghost use Rattle.avro_types.specs.Node.{fields_of, node_of, nodes_of};

use crate::defaults::default_at;
use avro_schema_names::{Draft, DraftField, SchemaError};
use avro_types::{Datum, Field, Kind};
use std::alloc::{AllocError, Global};

/// Returns the datum of a field's default, or `None` where it has no default. `BadDefault` where the default is no
/// value of the field's type.
pub fn field_default(
    alloc: Global,
    drafts: &[Draft],
    field: &DraftField,
) -> Result<Option<Datum>, SchemaError>
    requires { HaveFewSymbols (drafts_of drafts.now) }
    ensures { Tells (option_map datum_of) result (ok_or
        (field_default (drafts_of drafts.now) field.now.node (data_at field.now.default)) SchemaError.BadDefault) }
{
    match field.default {
        None => Ok(None),
        Some(value) => {
            let datum = default_at(alloc, drafts, field.node, value)?;
            Ok(Some(datum))
        }
    }
}

/// Returns the data of fields' defaults, each `None` where a field has no default.
fn field_defaults(
    alloc: Global,
    drafts: &[Draft],
    fields: &[DraftField],
) -> Result<Vec<Option<Datum>>, SchemaError>
    requires { HaveFewSymbols (drafts_of drafts.now) }
    ensures { Tells (λ v. map (option_map datum_of) v.items) result
        (ok_or (field_defaults (drafts_of drafts.now) (map draft_field_of fields.now)) SchemaError.BadDefault) }
{
    let mut defaults = Vec::new(alloc);
    for field in fields {
        let default = field_default(alloc, drafts, field)?;
        defaults.push(default)?;
    }
    Ok(defaults)
}

/// Returns the data of the defaults of a node's fields; none where the node is no record.
fn node_defaults(
    alloc: Global,
    drafts: &[Draft],
    draft: &Draft,
) -> Result<Vec<Option<Datum>>, SchemaError>
    requires { HaveFewSymbols (drafts_of drafts.now) }
    ensures { Tells (λ v. map (option_map datum_of) v.items) result
        (ok_or (node_defaults (drafts_of drafts.now) (draft_of draft.now)) SchemaError.BadDefault) }
{
    match draft {
        Draft::Whole(_) => Ok(Vec::new(alloc)),
        Draft::Record { fields, .. } => field_defaults(alloc, drafts, fields),
    }
}

/// Returns the data of the defaults of all nodes' fields, node by node.
pub fn all_defaults(alloc: Global, drafts: &[Draft]) -> Result<Vec<Vec<Option<Datum>>>, SchemaError>
    requires { HaveFewSymbols (drafts_of drafts.now) }
    ensures { Tells (λ v. map (λ own. map (option_map datum_of) own.items) v.items) result
        (ok_or (all_defaults (drafts_of drafts.now) (drafts_of drafts.now)) SchemaError.BadDefault) }
{
    let mut all = Vec::new(alloc);
    for draft in drafts {
        let own = node_defaults(alloc, drafts, draft)?;
        all.push(own)?;
    }
    Ok(all)
}

/// Returns the fields with their defaults.
fn fields_with(
    alloc: Global,
    fields: Vec<DraftField>,
    defaults: Vec<Option<Datum>>,
) -> Result<Vec<Field>, AllocError>
    ensures { IfOk result (λ v. fields_of v.items ≡ fields_with (map draft_field_of fields.entry.items)
        (map (option_map datum_of) defaults.items)) }
{
    let mut whole = Vec::new(alloc);
    for (field, default) in fields.into_iter().zip(defaults) {
        whole.push(Field {
            name: field.name,
            aliases: field.aliases,
            node: field.node,
            default,
        })?;
    }
    Ok(whole)
}

/// Returns the node with the defaults of its fields.
fn node_with(alloc: Global, draft: Draft, defaults: Vec<Option<Datum>>) -> Result<Kind, AllocError>
    ensures { IfOk result (λ k. node_of k ≡ node_with (draft_of draft.entry)
        (map (option_map datum_of) defaults.items)) }
{
    match draft {
        Draft::Whole(kind) => Ok(kind),
        Draft::Record {
            name,
            aliases,
            fields,
        } => Ok(Kind::Record {
            name,
            aliases,
            fields: fields_with(alloc, fields, defaults)?,
        }),
    }
}

/// Returns the nodes with the defaults of their fields.
pub fn nodes_with(
    alloc: Global,
    drafts: Vec<Draft>,
    all: Vec<Vec<Option<Datum>>>,
) -> Result<Vec<Kind>, AllocError>
    ensures { IfOk result (λ v. nodes_of v.items ≡ nodes_with (drafts_of drafts.entry.items)
        (map (λ own. map (option_map datum_of) own.items) all.items)) }
{
    let mut nodes = Vec::new(alloc);
    for (draft, defaults) in drafts.into_iter().zip(all) {
        let node = node_with(alloc, draft, defaults)?;
        nodes.push(node)?;
    }
    Ok(nodes)
}
