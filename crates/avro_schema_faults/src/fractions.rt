//! The path to a number that no schema may have.

ghost use Rattle.std.specs.Prelude.{◌≡◌, true, OnOk};
ghost use Rattle.serde_json.specs.Data.{array};
ghost use Rattle.serde_json.specs.Find.{as_object};
ghost use Rattle.serde_json.specs.View.{view, items_view};
ghost use Rattle.serde_json.specs.Written.{has_float};
ghost use Rattle.avro_schema_paths.specs.Following.{step_in};
ghost use Rattle.avro_schema_faults.specs.Faults.{IsObject};
ghost use Rattle.avro_schema_faults.specs.Fractions.{EndsAtFraction, LeadsToFloat, has_float_at};

use crate::numbers::has_float;
use crate::words::step_in;
use avro_schema_paths::Step;
use serde_json::Value;
use std::alloc::AllocError;

/// Returns whether there is a value one step away with a number in it that is held as a float.
fn has_float_at(value: &Value, step: Step) -> bool
    ensures { result ≡ has_float_at (step_in step (view value.now)) }
{
    match step_in(value, step) {
        Some(part) => has_float(part),
        None => false,
    }
}

/// Returns the step to the first element with a number in it that is held as a float; `None` where no element has one.
fn element_with_float(items: &[Value]) -> Option<Step>
    ensures { LeadsToFloat result (array (items_view items.now)) }
{
    for (i, item) in items.iter().enumerate() {
        if has_float(item) {
            return Some(Step::At(i));
        }
    }
    None
}

/// Returns the step to the first of an object's `type`, `items`, `values` and `fields` with a number in it that is
/// held as a float; `None` where none of them has one.
fn attribute_with_float(value: &Value) -> Option<Step>
    requires { IsObject (view value.now) }
    ensures { LeadsToFloat result (view value.now) }
{
    if has_float_at(value, Step::Type) {
        Some(Step::Type)
    } else if has_float_at(value, Step::Items) {
        Some(Step::Items)
    } else if has_float_at(value, Step::Values) {
        Some(Step::Values)
    } else if has_float_at(value, Step::Fields) {
        Some(Step::Fields)
    } else {
        None
    }
}

/// Returns the step to the first value one step away with a number in it that is held as a float; `None` where no such
/// value has one.
fn step_to_float(value: &Value) -> Option<Step>
    ensures { LeadsToFloat result (view value.now) }
{
    match value.as_array() {
        Some(items) => element_with_float(items),
        None if value.is_object() => attribute_with_float(value),
        None => None,
    }
}

/// Adds to the trail the steps to the smallest value with a number that is held as a float, of those to which steps
/// lead.
///
/// This recurses as deep as the value nests, which `serde_json` bounds for each value that it reads.
pub(crate) fn lead_to_fraction(value: &Value, trail: &mut Vec<Step>) -> Result<(), AllocError>
    requires { has_float (view value.now) ≡ true }
    ensures { OnOk result (EndsAtFraction (view value.now) trail.old.items trail.new.items) }
{
    match step_to_float(value) {
        None => Ok(()),
        Some(step) => match step_in(value, step) {
            None => Ok(()),
            Some(part) => {
                trail.push(step)?;
                lead_to_fraction(part, trail)
            }
        },
    }
}
