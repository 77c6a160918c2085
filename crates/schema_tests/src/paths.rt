//! Tests of the pointers of nodes, each written out by hand beside its schema.

use avro_schema::{Schema, SchemaError};
use avro_schema_paths::{Step, paths_of, pointer, read_value_is_declared};
use serde_json::Value;
use std::alloc::Global;
use std::test::Fail;

const LONG_LIST: &str =
    r#"{"type": "record", "name": "LongList", "aliases": ["LinkedLongs"], "fields": [
    {"name": "value", "type": "long"}, {"name": "next", "type": ["null", "LongList"]}]}"#;

const ORDER: &str = r#"{"type": "record", "name": "shop.Order", "fields": [
    {"name": "id", "type": {"type": "long", "logicalType": "x"}},
    {"name": "tags", "type": {"type": "array", "items": {"type": "map", "values": "string"}}},
    {"name": "state", "type": ["null", {"type": "enum", "name": "State", "symbols": ["NEW", "SENT"]}]},
    {"name": "digest", "type": {"type": "fixed", "name": "Digest", "size": 16}},
    {"name": "last", "type": "State"},
    {"name": "sizes", "type": {"type": {"type": "array", "items": "int"}}}]}"#;

/// Returns the pointers of a schema's nodes in order of their numbers, each after a space, and `?` after each that
/// leads nowhere.
fn pointers_in(alloc: Global, text: &str) -> Result<String, SchemaError> {
    let schema = Schema::parse(alloc, text)?;
    schema.is_declared(); // law
    read_value_is_declared(); // law
    let Ok(value) = Value::from_str(alloc, schema.text()) else {
        return Err(SchemaError::NoMemory);
    };
    let mut line = String::new(alloc);
    for path in paths_of(alloc, schema.nodes(), &value)? {
        let found = pointer(alloc, &path)?;
        line.push_str(" ")?;
        line.push_str(&found)?;
        if value.pointer(&found).is_none() {
            line.push_str("?")?;
        }
    }
    Ok(line)
}

#[test]
fn a_root_alone(rt: HostRuntime) -> Result<(), Fail> {
    let line = pointers_in(rt.alloc(), r#""int""#)?;
    assert_eq!(rt; line.as_str(), " ");
    Ok(())
}

#[test]
fn positions_in_decimal_digits(rt: HostRuntime) -> Result<(), Fail> {
    let text = pointer(rt.alloc(), &[Step::Fields, Step::At(10), Step::At(0)])?;
    assert_eq!(rt; text.as_str(), "/fields/10/0");
    Ok(())
}

#[test]
fn a_record_in_itself(rt: HostRuntime) -> Result<(), Fail> {
    let line = pointers_in(rt.alloc(), LONG_LIST)?;
    assert_eq!(rt;
        line.as_str(),
        "  /fields/0/type /fields/1/type /fields/1/type/0"
    );
    Ok(())
}

#[test]
fn each_kind_of_node(rt: HostRuntime) -> Result<(), Fail> {
    let line = pointers_in(rt.alloc(), ORDER)?;
    assert_eq!(rt;
        line.as_str(),
        "  /fields/0/type /fields/1/type /fields/1/type/items \
        /fields/1/type/items/values /fields/2/type /fields/2/type/0 /fields/2/type/1 /fields/3/type \
        /fields/5/type /fields/5/type/type/items"
    );
    Ok(())
}
