//! The first default that is no value of its field's type.

ghost use Rattle.std.specs.Prelude.{◌≡◌, IfOk, map};
ghost use Rattle.std.specs.List.{position_from};
ghost use Rattle.avro_schema_names.specs.Draft.{HaveFewSymbols, draft_field_of, draft_of, drafts_of};
ghost use Rattle.avro_schema_faults.specs.DefaultPlaces.{bad_field, first_bad, is_bad};

use avro_schema::field_default;
use avro_schema_names::{Draft, DraftField, SchemaError};
use std::alloc::{AllocError, Global};

/// A field, by its record's number and its position there.
#[derive(Clone, Copy, Debug)]
pub(crate) struct FieldPlace {
    pub(crate) node: usize,
    pub(crate) position: usize,
}

/// Returns whether a field has a default that is no value of its type.
fn is_bad(alloc: Global, drafts: &[Draft], field: &DraftField) -> Result<bool, AllocError>
    requires { HaveFewSymbols (drafts_of drafts.now) }
    ensures { IfOk result (λ bad. bad ≡ is_bad (drafts_of drafts.now) (draft_field_of field.now)) }
{
    match field_default(alloc, drafts, field) {
        Ok(_) => Ok(false),
        Err(error) if error == SchemaError::NoMemory => Err(AllocError),
        Err(_) => Ok(true),
    }
}

/// Returns the index of the first field with a bad default; `None` where no field has one.
fn bad_among(
    alloc: Global,
    drafts: &[Draft],
    fields: &[DraftField],
) -> Result<Option<usize>, AllocError>
    requires { HaveFewSymbols (drafts_of drafts.now) }
    ensures { IfOk result (λ found. found
        ≡ position_from (is_bad (drafts_of drafts.now)) 0 (map draft_field_of fields.now)) }
{
    for (i, field) in fields.iter().enumerate() {
        if is_bad(alloc, drafts, field)? {
            return Ok(Some(i));
        }
    }
    Ok(None)
}

/// Returns the index of the first field of a node with a bad default; `None` where no field has one.
fn bad_field(alloc: Global, drafts: &[Draft], draft: &Draft) -> Result<Option<usize>, AllocError>
    requires { HaveFewSymbols (drafts_of drafts.now) }
    ensures { IfOk result (λ found. found ≡ bad_field (drafts_of drafts.now) (draft_of draft.now)) }
{
    match draft {
        Draft::Whole(_) => Ok(None),
        Draft::Record { fields, .. } => bad_among(alloc, drafts, fields),
    }
}

/// Returns the field of the first default that is no value of its field's type. `None` where there is none.
pub(crate) fn first_bad(alloc: Global, drafts: &[Draft]) -> Result<Option<FieldPlace>, AllocError>
    requires { HaveFewSymbols (drafts_of drafts.now) }
    ensures { IfOk result (λ found. found ≡ first_bad (drafts_of drafts.now) 0 (drafts_of drafts.now)) }
{
    for (node, draft) in drafts.iter().enumerate() {
        if let Some(position) = bad_field(alloc, drafts, draft)? {
            return Ok(Some(FieldPlace { node, position }));
        }
    }
    Ok(None)
}
