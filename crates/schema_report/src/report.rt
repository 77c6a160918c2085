//! What is answered to a question, and whether it is yes.

ghost use Rattle.std.specs.Prelude.{◌≡◌, ◌++◌, List, ℕ, Some, codes, option_map, string_bytes, Err, IfOk, OnOk};
ghost use Rattle.schema_report.specs.Faults.{HasPlaceOf, IsBadSchema, bad_schema, has_place, place_text, word_of, word_text};
ghost use Rattle.schema_report.specs.Reading.{schema_of_line};

use crate::listing::push_path;
use avro_schema::SchemaError;
use avro_schema_faults::{fault_of, word_at};
use avro_schema_paths::Step;
use avro_types::MOST_TEXT;
use serde_json::Value;
use std::alloc::{AllocError, Global};

/// Whether the answer to a question is yes: the schema is one, the schemas are compatible, the pair is explained.
#[derive(Clone, Copy, Debug, PartialEq, Eq)]
pub enum Verdict {
    Yes,
    No,
}

/// The lines that answer a question, and whether the answer is yes.
#[derive(Debug, Drop)]
pub struct Report {
    pub text: String,
    pub verdict: Verdict,
}

/// Returns the words that the line with this number is no schema, and its first fault.
fn bad_schema(alloc: Global, number: u8, error: SchemaError) -> Result<String, AllocError>
    ensures { IfOk result (λ text. string_bytes text ≡ bad_schema number error) }
{
    let name = error.name();
    let text = format!(in alloc; "bad schema {number} {name}")?;
    Ok(text)
}

/// Returns whether a fault is at some value of the line's JSON: each is, but that of a line which is no JSON.
fn has_place(error: SchemaError) -> bool
    ensures { result ≡ has_place error }
{
    match error {
        SchemaError::NotJson | SchemaError::NoMemory => false,
        SchemaError::BadNumber
        | SchemaError::BadDefault
        | SchemaError::TooLarge
        | SchemaError::Unknown
        | SchemaError::OutOfProfile
        | SchemaError::BadName
        | SchemaError::Redefined
        | SchemaError::BadUnion
        | SchemaError::BadSymbols => true,
    }
}

/// Returns what is between a quote at the beginning of a text and one at its end; `None` where one of them is missing.
fn unquoted(text: &str) -> Option<&str>
    ensures { (inner : List ℕ) → text.now ≡ codes "\"" ++ (inner ++ codes "\"")
        → option_map (λ t. t.now) result ≡ Some inner }
{
    text.strip_prefix('"')?.strip_suffix('"')
}

/// Returns a colon, a space and a word, as JSON writes it within quotes.
fn word_text(alloc: Global, word: &str) -> Result<String, AllocError>
    ensures { IfOk result (λ text. string_bytes text ≡ word_text (Some word.now)) }
{
    let quoted = Value::String(String::from_str(alloc, word)?).to_string(alloc)?;
    let inner = unquoted(&quoted).unwrap_or("");
    let text = format!(in alloc; ": {inner}")?;
    Ok(text)
}

/// Returns a colon, a space and the word in question at the end of a path in a line's JSON value. The empty text where
/// there is no word, and where the line is too long for a schema or no JSON.
fn word_of(alloc: Global, line: &str, path: &[Step]) -> Result<String, AllocError>
    ensures { IfOk result (λ text. string_bytes text ≡ word_of line.now path.now) }
{
    if line.len() > MOST_TEXT {
        return Ok(String::new(alloc));
    }
    let value = match Value::from_str(alloc, line) {
        Ok(value) => value,
        Err(error) if error.is_memory() => return Err(AllocError),
        Err(_) => return Ok(String::new(alloc)),
    };
    match word_at(&value, path) {
        Some(word) => word_text(alloc, word),
        None => Ok(String::new(alloc)),
    }
}

/// Returns the path of the value that is at fault in a line, after `at`.
fn place_of(alloc: Global, path: &[Step]) -> Result<String, AllocError>
    ensures { IfOk result (λ text. string_bytes text ≡ place_text path.now) }
{
    let mut text = String::from_str(alloc, " at ")?;
    push_path(alloc, &mut text, path)?;
    Ok(text)
}

/// Appends where the fault of a line is, and the word in question; nothing where it has no place.
fn push_place(
    alloc: Global,
    output: &mut String,
    line: &[u8],
    error: SchemaError,
) -> Result<(), AllocError>
    requires { schema_of_line line.now ≡ Err error }
    ensures { OnOk result (HasPlaceOf line.now error (string_bytes output.old) (string_bytes output.new)) }
{
    if !has_place(error) {
        return Ok(());
    }
    let Ok(text) = std::str::from_utf8(line) else {
        return Ok(());
    };
    let Some(fault) = fault_of(alloc, text)? else {
        return Ok(());
    };
    let place = place_of(alloc, &fault.path)?;
    let word = word_of(alloc, text, &fault.path)?;
    output.push_str(&place)?;
    output.push_str(&word)?;
    Ok(())
}

/// Returns the line of a schema that is none: its number, its first fault, the path of the value that is at fault, and
/// the word in question.
pub(crate) fn bad_line(
    alloc: Global,
    number: u8,
    error: SchemaError,
    line: &[u8],
) -> Result<String, AllocError>
    requires { schema_of_line line.now ≡ Err error }
    ensures { IfOk result (λ text. IsBadSchema number line.now error (string_bytes text)) }
{
    let mut text = bad_schema(alloc, number, error)?;
    push_place(alloc, &mut text, line, error)?;
    text.push_str("\n")?;
    Ok(text)
}
