//! The word in question at a fault.

ghost use Rattle.std.specs.Prelude.{◌≡◌, option_map};
ghost use Rattle.serde_json.specs.View.{view};
ghost use Rattle.avro_schema_names.specs.Draft.{data_at};
ghost use Rattle.avro_schema_paths.specs.Following.{follow, step_in};
ghost use Rattle.avro_schema_faults.specs.Words.{word_at, word_in};

use avro_schema_paths::Step;
use serde_json::Value;

/// Returns the value that is one step away. `None` where there is none.
pub(crate) fn step_in<'v>(value: &'v Value, step: Step) -> Option<&'v Value>
    ensures { data_at result ≡ step_in step (view value.now) }
{
    match step {
        Step::Type => value.get("type"),
        Step::Items => value.get("items"),
        Step::Values => value.get("values"),
        Step::Fields => value.get("fields"),
        Step::At(position) => value.get(position),
    }
}

/// Returns the value at the end of a path. `None` where the path leads nowhere.
fn follow<'v>(value: &'v Value, path: &[Step]) -> Option<&'v Value>
    ensures { data_at result ≡ follow path.now (view value.now) }
{
    let mut found = value;
    for step in path {
        match step_in(found, *step) {
            Some(next) => found = next,
            None => return None,
        }
    }
    Some(found)
}

/// Returns a text, or the text at `name` of an object. `None` where a value is neither.
fn word_in<'v>(value: &'v Value) -> Option<&'v str>
    ensures { option_map (λ text. text.now) result ≡ word_in (view value.now) }
{
    match value {
        Value::String(text) => Some(text.as_str()),
        _ => value.get("name").and_then(Value::as_str),
    }
}

/// Returns the word in question at the end of a path: the text there, or the text at `name` of the object there.
/// `None` where there is neither (Avro 1.11 Specification, "Names").
pub fn word_at<'v>(value: &'v Value, path: &[Step]) -> Option<&'v str>
    ensures { option_map (λ text. text.now) result ≡ word_at path.now (view value.now) }
{
    match follow(value, path) {
        Some(found) => word_in(found),
        None => None,
    }
}
