//! A text's first fault, with the path of the value that is at fault.

ghost use Rattle.std.specs.Prelude.{◌≡◌, [], IfOk};
ghost use Rattle.serde_json.specs.View.{view};
ghost use Rattle.avro_schema_faults.specs.Places.{Finds, FindsIn, IsWholeFault, Leads};

use crate::bad_defaults::first_bad;
use crate::fractions::lead_to_fraction;
use crate::numbers::has_float;
use crate::seeking::lead_to_field;
use crate::tracing::walk;
use avro_schema_names::{Drafts, Namespace, SchemaError};
use avro_schema_paths::Step;
use avro_types::MOST_TEXT;
use serde_json::Value;
use std::alloc::{AllocError, Global};

/// Why a text is no schema, and where: the path in the text's JSON value of the smallest value that is at fault, which
/// is a record's field where its default is.
#[derive(Debug, Drop)]
pub struct Fault {
    pub error: SchemaError,
    pub path: Vec<Step>,
}

/// Returns the fault of a text as a whole, whose path is empty.
fn whole(alloc: Global, error: SchemaError) -> Fault
    ensures { IsWholeFault error result }
{
    Fault {
        error,
        path: Vec::new(alloc),
    }
}

/// Walks a value and reads its defaults, with a trail that is empty. After an `Err` the trail leads to the value that
/// is at fault; where that is a default it leads to the default's field.
fn check_value(alloc: Global, value: &Value, trail: &mut Vec<Step>) -> Result<(), SchemaError>
    requires { trail.old.items ≡ [] }
    ensures { Leads result (view value.now) trail.new.items }
{
    let mut drafts = Drafts::new(alloc)?;
    let enclosing = Namespace::null(alloc)?;
    walk(alloc, value, &enclosing, &mut drafts, trail)?;
    match first_bad(alloc, drafts.as_slice())? {
        None => Ok(()),
        Some(field) => {
            lead_to_field(value, field.node, field.position, trail)?;
            Err(SchemaError::BadDefault)
        }
    }
}

/// Returns the first fault of a value. `None` where it declares a schema.
fn fault_in(alloc: Global, value: &Value) -> Result<Option<Fault>, AllocError>
    ensures { FindsIn result (view value.now) }
{
    let mut path = Vec::new(alloc);
    if has_float(value) {
        lead_to_fraction(value, &mut path)?;
        let error = SchemaError::BadNumber;
        return Ok(Some(Fault { error, path }));
    }
    match check_value(alloc, value, &mut path) {
        Ok(()) => Ok(None),
        Err(error) if error == SchemaError::NoMemory => Err(AllocError),
        Err(error) => Ok(Some(Fault { error, path })),
    }
}

/// Returns the first fault of a text, in the order in which `Schema::parse` finds them; `None` where the text is a
/// schema (Avro 1.11 Specification, "Schema Declaration").
///
/// The path of a default that is no value of its type is that of its field, as `/fields/3` after the path of the
/// record that declares the field; the first default counts, by the numbers of the records and then by the positions
/// of the fields. Where a number is a fraction or out of range the path leads to the smallest value that has one, as
/// far as steps lead. The path is empty where the text is too long or no JSON.
pub fn fault_of(alloc: Global, text: &str) -> Result<Option<Fault>, AllocError>
    ensures { Finds result text.now }
{
    if text.len() > MOST_TEXT {
        return Ok(Some(whole(alloc, SchemaError::TooLarge)));
    }
    match Value::from_str(alloc, text) {
        Ok(value) => fault_in(alloc, &value),
        Err(error) if error.is_memory() => Err(AllocError),
        Err(_) => Ok(Some(whole(alloc, SchemaError::NotJson))),
    }
}
