//! What contents say.

use crate::texts::same;
use std::alloc::{AllocError, Global};
use upstream_answers::{MOST_ERROR, is_unknown, schema_in};

/// A content, and the text of the schema in it, in parentheses, or the fault.
const SCHEMAS: &str = r#"{"schema":"\"int\""} -> ("int")
{"id":1,"schema":"x","maxId":7} -> (x)
{"schema":""} -> ()
{"schema":"x","schema":"y"} -> (y)
 {"schemaType":"AVRO","schema":"x"}  -> (x)
{"schemaType":null,"references":null,"schema":"x"} -> (x)
{"references":[],"schema":"x"} -> (x)
{"schemaType":"PROTOBUF","schema":"x"} -> NotAvro
{"schemaType":"JSON","schema":"x"} -> NotAvro
{"schemaType":"avro","schema":"x"} -> NotAvro
{"schemaType":7,"references":[1],"schema":"x"} -> NotAvro
{"schema":"x","references":[{"name":"x.Y","subject":"s","version":1}]} -> HasReferences
{"references":{},"schema":"x"} -> HasReferences
{"references":[null]} -> HasReferences
{} -> NoSchema
{"id":1} -> NoSchema
{"schema":null} -> NoSchema
{"schema":{"type":"int"}} -> NoSchema
["schema"] -> NoJson
"schema" -> NoJson
 -> NoJson
<html>hello</html> -> NoJson
{"schema":"x" -> NoJson
"#;

/// A content that is compressed.
const COMPRESSED: &[u8] = b"\x1f\x8b\x08\x00zzzz";

/// Returns the text of the schema in a content, or the fault, as the rows have it.
fn schema_of(alloc: Global, content: &[u8]) -> Result<String, AllocError> {
    match schema_in(alloc, content) {
        Ok(text) => format!(in alloc; "({text})"),
        Err(fault) => format!(in alloc; "{fault:?}"),
    }
}

/// Returns the rows of schemas with what is found in place of what is wanted.
fn schemas_found(alloc: Global) -> Result<String, AllocError> {
    let mut text = String::new(alloc);
    for row in SCHEMAS.lines() {
        let (content, _wanted) = row.split_once(" -> ").unwrap_or((row, ""));
        let found = schema_of(alloc, content.as_bytes())?;
        write!(text, "{content} -> {found}\n")?;
    }
    Ok(text)
}

#[test]
fn schemas_are_found(rt: HostRuntime) -> Result<(), AllocError> {
    same(&rt, &schemas_found(rt.alloc())?, SCHEMAS);
    same(&rt, &schema_of(rt.alloc(), COMPRESSED)?, "NoJson");
    Ok(())
}

/// A content, and whether it says that the id names no schema.
const ERRORS: &str = r#"{"error_code":40403,"message":"Schema not found"} -> true
{"message":"Schema 7 not found","error_code":40403} -> true
 { "error_code" : 40403 }  -> true
{"error_code":40401,"message":"Subject not found"} -> false
{"error_code":404,"message":"HTTP 404 Not Found"} -> false
{"error_code":"40403"} -> false
{"error_code":40403.5} -> false
{"error_code":-40403} -> false
{"errorCode":40403} -> false
[40403] -> false
40403 -> false
{"error_code":40403 -> false
<html>not here</html> -> false
"#;

/// A content whose message is no text.
const NO_TEXT: &[u8] = b"{\"error_code\":40403,\"message\":\"\xff\"}";

/// Returns the rows of errors with what is found in place of what is wanted.
fn errors_found(alloc: Global) -> Result<String, AllocError> {
    let mut text = String::new(alloc);
    for row in ERRORS.lines() {
        let (content, _wanted) = row.split_once(" -> ").unwrap_or((row, ""));
        let found = is_unknown(alloc, content.as_bytes())?;
        write!(text, "{content} -> {found}\n")?;
    }
    Ok(text)
}

#[test]
fn unknown_ids_are_recognized(rt: HostRuntime) -> Result<(), AllocError> {
    same(&rt, &errors_found(rt.alloc())?, ERRORS);
    assert!(rt; !is_unknown(rt.alloc(), NO_TEXT)?);
    Ok(())
}

/// Returns whether a content of a length says that the id names no schema, where it begins as one that does.
fn is_unknown_at(alloc: Global, len: usize) -> Result<bool, AllocError> {
    let mut content = Vec::from_slice(alloc, b"{\"error_code\":40403}")?;
    content.resize(len, b' ')?;
    is_unknown(alloc, &content)
}

#[test]
fn long_errors_are_not_read(rt: HostRuntime) -> Result<(), AllocError> {
    let at_most = is_unknown_at(rt.alloc(), MOST_ERROR)?;
    let above = is_unknown_at(rt.alloc(), MOST_ERROR + 1)?;
    assert!(rt; at_most && !above);
    Ok(())
}
