//! Symbols, sizes and other attributes of types.

ghost use Rattle.std.specs.Prelude.{◌≡◌, ◌≢◌, ◌≤◌, ◌&&◌, if◌then◌else◌, IfOk, Ok, Err, length, map, string_bytes};
ghost use Rattle.std.specs.List.{list_all};
ghost use Rattle.serde_json.specs.View.{items_view};
ghost use Rattle.spec_schema.specs.Attributes.{default_symbol, size_of, symbols_of, texts_in, texts_of};
ghost use Rattle.avro_schema_names.specs.Draft.{data_at};
ghost use Rattle.avro_schema_names.specs.Fault.{Tells};
ghost use Rattle.spec_schema.specs.declared.schema_error.SchemaError.TheVariants.{NoMemory};
ghost use Rattle.spec_avro.specs.FullNames.{is_name};
ghost use Rattle.spec_avro.specs.Symbols.{are_distinct};

use crate::names::{is_name, text_of};
use avro_types::{MOST_FIXED, MOST_SYMBOLS, Symbols};
use serde_json::Value;
use spec_schema::SchemaError;
use std::alloc::Global;

/// Returns the texts that values are; `Unknown` where a value is no text.
fn texts_in(alloc: Global, items: &[Value]) -> Result<Vec<String>, SchemaError>
    ensures { Tells (λ v. map string_bytes v.items) result (texts_in (items_view items.now)) }
{
    let mut texts = Vec::new(alloc);
    for item in items {
        let text = text_of(Some(item))?;
        texts.push(String::from_str(alloc, text)?)?;
    }
    Ok(texts)
}

/// Returns the texts that the value at an attribute lists, or `Unknown` where it is no list of texts.
pub fn texts_of(alloc: Global, value: Option<&Value>) -> Result<Vec<String>, SchemaError>
    ensures { Tells (λ v. map string_bytes v.items) result (texts_of (data_at value.entry)) }
{
    match value {
        Some(Value::Array(items)) => texts_in(alloc, items),
        _ => Err(SchemaError::Unknown),
    }
}

/// Returns whether each text is a name.
pub fn are_names(texts: &[String]) -> bool
    ensures { result ≡ list_all (λ s. is_name (string_bytes s)) texts.now }
{
    texts.iter().all(|text| is_name(text.as_bytes()))
}

/// Returns texts as symbols; `BadSymbols` where one is no name or occurs twice.
#[tactic(auto, using(crate::proofs::Texts::all_names))]
fn as_symbols(alloc: Global, texts: Vec<String>) -> Result<Symbols, SchemaError>
    ensures { Tells (λ s. s) result (if list_all is_name (map string_bytes texts.items) && are_distinct
        (map string_bytes texts.items) then Ok (map string_bytes texts.items) else Err SchemaError.BadSymbols) }
{
    if !are_names(&texts) {
        return Err(SchemaError::BadSymbols);
    }
    match Symbols::of_texts(alloc, texts)? {
        Some(symbols) => Ok(symbols),
        None => Err(SchemaError::BadSymbols),
    }
}

/// Returns the symbols of an enum. `Unknown` where they are no list of texts, `BadSymbols` where one is no name or
/// occurs twice, and else `TooLarge` where there are more than `MOST_SYMBOLS`.
#[tactic(auto, unfolding(spec_schema::specs::Attributes::symbols_of))]
pub fn symbols_of(alloc: Global, value: Option<&Value>) -> Result<Symbols, SchemaError>
    ensures symbols { Tells (λ s. s) result (symbols_of (data_at value.entry)) }
    ensures few { IfOk result (λ s. length (s) ≤ MOST_SYMBOLS) }
{
    let symbols = as_symbols(alloc, texts_of(alloc, value)?)?;
    if symbols.len() > MOST_SYMBOLS {
        return Err(SchemaError::TooLarge);
    }
    Ok(symbols)
}

/// Returns the position of the symbol that `default` names, or `None` where the attribute is missing. `Unknown` where
/// it is no text, `BadSymbols` where it is none of the symbols.
pub fn default_symbol(symbols: &Symbols, value: Option<&Value>) -> Result<Option<u32>, SchemaError>
    requires { length (symbols.now) ≤ MOST_SYMBOLS }
    ensures told { Tells (λ n. n) result (default_symbol (symbols.now) (data_at value.entry)) }
    ensures room { result ≢ Err NoMemory }
{
    if value.is_none() {
        return Ok(None);
    }
    let text = text_of(value)?;
    match symbols.position_of(text) {
        Some(position) => Ok(Some(position as u32)),
        None => Err(SchemaError::BadSymbols),
    }
}

/// Returns the size of a fixed in bytes. `Unknown` where the attribute is missing, `BadNumber` where it is no whole
/// number from 0 on, `TooLarge` where it is above `MOST_FIXED`.
pub fn size_of(value: Option<&Value>) -> Result<usize, SchemaError>
    ensures told { Tells (λ n. n) result (size_of (data_at value.entry)) }
    ensures room { result ≢ Err NoMemory }
{
    let Some(value) = value else {
        return Err(SchemaError::Unknown);
    };
    let Some(size) = value.as_u64() else {
        return Err(SchemaError::BadNumber);
    };
    if size > MOST_FIXED as u64 {
        return Err(SchemaError::TooLarge);
    }
    Ok(size as usize)
}
