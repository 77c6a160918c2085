//! Tests of each fault with its place, written out by hand beside its text.

use avro_schema::Schema;
use avro_schema_faults::{Fault, fault_of, word_at};
use avro_schema_paths::pointer;
use serde_json::Value;
use std::alloc::{AllocError, Global};
use std::test::Fail;

const DEEP: &str =
    r#"["null", {"type": "array", "items": {"type": "record", "name": "Order", "fields": [
    {"name": "id", "type": "long"}, {"name": "to", "type": {"type": "map", "values": "Adress"}}]}}]"#;

const TWICE: &str = r#"{"type": "record", "name": "Pair", "fields": [
    {"name": "a", "type": {"type": "fixed", "name": "Part", "size": 2}},
    {"name": "b", "type": {"type": "fixed", "name": "Part", "size": 3}}]}"#;

/// Returns the word in question at a fault of a text.
fn word_of(alloc: Global, text: &str, fault: &Fault) -> Result<String, AllocError> {
    match Value::from_str(alloc, text) {
        Ok(value) => String::from_str(alloc, word_at(&value, &fault.path).unwrap_or("-")),
        Err(_) => String::from_str(alloc, "-"),
    }
}

/// Returns a text's first fault, its place and the word there, with `!` before them where `Schema::parse` does not
/// refuse the text for it.
fn line_of(alloc: Global, text: &str) -> Result<String, AllocError> {
    let parsed = Schema::parse(alloc, text).err();
    match fault_of(alloc, text)? {
        None if parsed.is_none() => String::from_str(alloc, "none"),
        None => String::from_str(alloc, "!none"),
        Some(fault) => {
            let mark = if parsed == Some(fault.error) { "" } else { "!" };
            let place = pointer(alloc, &fault.path)?;
            let word = word_of(alloc, text, &fault)?;
            format!(in alloc; "{mark}{} at {place}: {word}", fault.error.name())
        }
    }
}

#[test]
fn faults_with_their_places(rt: HostRuntime) -> Result<(), Fail> {
    let rows = [
        (r#"{"type": "array", "items": "int"}"#, "none"),
        (DEEP, "Unknown at /1/items/fields/1/type/values: Adress"),
        (TWICE, "Redefined at /fields/1/type: Part"),
        (r#"["null", ["int"]]"#, "BadUnion at : -"),
        (
            r#"{"type": {"type": ["int", "int"]}}"#,
            "BadUnion at /type/type: -",
        ),
        (r#"{"type": "array"}"#, "Unknown at : -"),
        (
            r#"["int", {"type": "map", "value": "int"}]"#,
            "Unknown at /1: -",
        ),
        (
            r#"{"type": "record", "name": "R", "fields": {}}"#,
            "Unknown at /fields: -",
        ),
        (r#"{"type": "record", "name": "R"}"#, "Unknown at : R"),
        ("7", "Unknown at : -"),
        ("[", "NotJson at : -"),
        (r#"{"type": "int", "scale": 0.5}"#, "BadNumber at : -"),
    ];
    for (text, wanted) in rows {
        let line = line_of(rt.alloc(), text)?;
        assert_eq!(rt; line.as_str(), wanted);
    }
    Ok(())
}

#[test]
fn faults_of_named_types_and_fields(rt: HostRuntime) -> Result<(), Fail> {
    let rows = [
        (
            r#"["null", {"type": "enum", "name": "Suit", "symbols": ["A-B"]}]"#,
            "BadSymbols at /1: Suit",
        ),
        (
            r#"["null", {"type": "fixed", "name": "Id", "size": -1}]"#,
            "BadNumber at /1: Id",
        ),
        (
            r#"{"type": "record", "name": "R", "fields": [{"name": "a", "type": "int"}, {"name": "b"}]}"#,
            "Unknown at /fields/1: b",
        ),
        (
            r#"{"type": "record", "name": "R", "fields": [{"name": "a b", "type": "int"}]}"#,
            "BadName at /fields/0: a b",
        ),
        (
            r#"{"type": "record", "name": "R", "fields": [{"name": "a", "type": "float"}]}"#,
            "OutOfProfile at /fields/0/type: float",
        ),
        (
            r#"{"type": "record", "name": "R", "fields": [{"name": "a", "type": "int", "default": "x"}]}"#,
            "BadDefault at /fields/0: a",
        ),
        (
            r#"{"type": "fixed", "name": "Id", "size": 9999999999}"#,
            "TooLarge at : Id",
        ),
    ];
    for (text, wanted) in rows {
        let line = line_of(rt.alloc(), text)?;
        assert_eq!(rt; line.as_str(), wanted);
    }
    Ok(())
}

#[test]
fn defaults_with_their_places(rt: HostRuntime) -> Result<(), Fail> {
    let rows = [
        (
            r#"{"type": "record", "name": "R", "fields": [{"name": "a", "type": "int", "default": 1},
            {"name": "b", "type": "int", "default": "x"}, {"name": "c", "type": "int", "default": "x"}]}"#,
            "BadDefault at /fields/1: b",
        ),
        (
            r#"{"type": {"type": "record", "name": "R", "fields": [{"name": "a", "type": "int", "default": null}]}}"#,
            "BadDefault at /type/fields/0: a",
        ),
        (
            r#"{"type": "array", "items": ["null", {"type": "record", "name": "R", "fields": [
            {"name": "a", "type": "int"}, {"name": "b", "type": "string", "default": 1}]}]}"#,
            "BadDefault at /items/1/fields/1: b",
        ),
        (
            r#"{"type": "map", "values": {"type": "record", "name": "R", "fields": [
            {"name": "a", "type": {"type": "record", "name": "S", "fields": [{"name": "p", "type": "int"}]},
            "default": {"p": "x"}}]}}"#,
            "BadDefault at /values/fields/0: a",
        ),
    ];
    for (text, wanted) in rows {
        let line = line_of(rt.alloc(), text)?;
        assert_eq!(rt; line.as_str(), wanted);
    }
    Ok(())
}

#[test]
fn defaults_by_the_numbers_of_records(rt: HostRuntime) -> Result<(), Fail> {
    let rows = [
        (
            r#"{"type": "record", "name": "R", "fields": [
            {"name": "a", "type": {"type": "record", "name": "S", "fields": [
            {"name": "x", "type": "int"}, {"name": "y", "type": "int", "default": "no"}]}}]}"#,
            "BadDefault at /fields/0/type/fields/1: y",
        ),
        (
            r#"{"type": "record", "name": "R", "fields": [
            {"name": "a", "type": {"type": "record", "name": "S", "fields": [
            {"name": "p", "type": "int", "default": "x"}]}}, {"name": "b", "type": "int", "default": "y"}]}"#,
            "BadDefault at /fields/1: b",
        ),
        (
            r#"{"type": "record", "name": "R", "fields": [
            {"name": "e", "type": {"type": "enum", "name": "E", "symbols": ["A"]}},
            {"name": "f", "type": {"type": "fixed", "name": "F", "size": 1}}, {"name": "g", "type": "E"},
            {"name": "h", "type": {"type": {"type": "record", "name": "S", "fields": [
            {"name": "p", "type": ["int", "null"], "default": null}]}}}]}"#,
            "BadDefault at /fields/3/type/type/fields/0: p",
        ),
    ];
    for (text, wanted) in rows {
        let line = line_of(rt.alloc(), text)?;
        assert_eq!(rt; line.as_str(), wanted);
    }
    Ok(())
}

#[test]
fn fractions_with_their_places(rt: HostRuntime) -> Result<(), Fail> {
    let rows = [
        ("1.5", "BadNumber at : -"),
        (
            r#"["null", {"type": "fixed", "name": "Id", "size": 1.5}]"#,
            "BadNumber at /1: Id",
        ),
        (
            r#"{"type": {"type": "fixed", "name": "Id", "size": 99999999999999999999}}"#,
            "BadNumber at /type: Id",
        ),
        (
            r#"{"type": "record", "name": "R", "fields": [{"name": "a", "type": "int"},
            {"name": "b", "type": "int", "default": 1.5}]}"#,
            "BadNumber at /fields/1: b",
        ),
        (
            r#"{"type": "array", "items": {"type": "map", "values": {"type": "int", "x": [0.5]}}}"#,
            "BadNumber at /items/values: -",
        ),
    ];
    for (text, wanted) in rows {
        let line = line_of(rt.alloc(), text)?;
        assert_eq!(rt; line.as_str(), wanted);
    }
    Ok(())
}
