//! Why the schema of an id is not held.

use super::push_asked;
use crate::listed_upstream::{ListedUpstream, place};
use crate::texts::same;
use schema_registry::SharedRegistry;
use std::alloc::{AllocError, Global};
use std::sync::Wait;
use upstream_schemas::UpstreamSchemas;

/// What comes of a first exchange and of a second one, as `ListedUpstream` has them; the fault, and the number of
/// exchanges. The rows are of no such id, of another answer that is no schema, of a text that is no schema of Avro or
/// not one by itself, and of no answer.
const FAULTS: &str = r#"7 HTTP/1.1 404 Not Found||{"error_code":40403,"message":"Schema not found"}
7 Late
NoSchema, 1

7 HTTP/1.1 404 Not Found||{"error_code":404,"message":"HTTP 404 Not Found"}
7 Late
Upstream(BadAnswer), 1

7 HTTP/1.1 404 Not Found||{"error_code":40401,"message":"Subject not found"}
7 Late
Upstream(BadAnswer), 1

7 HTTP/1.1 404 Not Found||<html>not here</html>
7 Late
Upstream(BadAnswer), 1

7 HTTP/1.1 404 Not Found||
7 Late
Upstream(BadAnswer), 1

7 HTTP/1.1 404 Not Found||{"schema":"\"int\""}
7 Late
Upstream(BadAnswer), 1

7 HTTP/1.1 500 X||{"error_code":50001,"message":"Error in the backend"}
7 Late
Upstream(BadAnswer), 1

7 HTTP/1.1 500 X||{"error_code":40403,"message":"Schema not found"}
7 Late
Upstream(BadAnswer), 1

7 HTTP/1.1 301 X|location: /other||
7 Late
Upstream(BadAnswer), 1

7 HTTP/1.1 301 X||{"schema":"\"int\""}
7 Late
Upstream(BadAnswer), 1

7 HTTP/1.1 200 OK||<html>hello</html>
7 Late
Upstream(BadAnswer), 1

7 HTTP/1.1 200 OK||{"id":7}
7 Late
Upstream(BadAnswer), 1

7 HTTP/1.1 200 OK||{"error_code":40403}
7 Late
Upstream(BadAnswer), 1

7 SSH-2.0-OpenSSH_9.6|
7 Late
Upstream(BadAnswer), 1

7 HTTP/1.1 200 OK||{"schemaType":"PROTOBUF","schema":"syntax = \"proto3\";"}
7 Late
NotAvro, 1

7 HTTP/1.1 200 OK||{"references":[{"name":"x.Y"}],"schema":"\"int\""}
7 Late
HasReferences, 1

7 HTTP/1.1 200 OK||{"schema":"\"whole\""}
7 Late
BadSchema(Unknown), 1

7 HTTP/1.1 200 OK||{"schema":"int"}
7 Late
BadSchema(NotJson), 1

7 Closed
7 Closed
Upstream(BadAnswer), 2

7 Closed
7 Late
Upstream(Late), 2

7 Closed
7 HTTP/1.1 404 Not Found||{"error_code":40403,"message":"Schema not found"}
NoSchema, 2

7 Unreached
7 HTTP/1.1 200 OK||{"schema":"\"int\""}
Upstream(Unreached), 1

7 Late
7 HTTP/1.1 200 OK||{"schema":"\"int\""}
Upstream(Late), 1

7 BadAnswer
7 HTTP/1.1 200 OK||{"schema":"\"int\""}
Upstream(BadAnswer), 1

7 NoMemory
7 HTTP/1.1 200 OK||{"schema":"\"int\""}
NoMemory, 1"#;

/// Returns whether anything is held of the id 7, or registered in this process.
fn is_any_held(schemas: &UpstreamSchemas<'_, ListedUpstream>) -> bool {
    schemas.find(7).is_some() || schemas.registry().find(1).is_some()
}

/// Appends two exchanges, and what comes of them where the id 7 is asked for.
fn push_row<R: Wait>(
    rt: &R,
    schemas: &UpstreamSchemas<'_, ListedUpstream>,
    text: &mut String,
    exchanges: &'static str,
) -> Result<(), AllocError> {
    let upstream = ListedUpstream::new(schemas.alloc(), exchanges);
    write!(text, "{exchanges}\n")?;
    push_asked(text, schemas.registry(), schemas.ask(rt, &upstream, 7))?;
    let held = if is_any_held(schemas) { ", held" } else { "" };
    write!(text, ", {}{held}", upstream.count())
}

/// Returns the rows with what comes of each in place of what is wanted.
fn rows_in_turn<R: Wait>(
    rt: &R,
    schemas: &UpstreamSchemas<'_, ListedUpstream>,
) -> Result<String, AllocError> {
    let mut text = String::new(schemas.alloc());
    for row in FAULTS.split("\n\n") {
        let (exchanges, _wanted) = row.rsplit_once('\n').unwrap_or((row, ""));
        let parting = if text.is_empty() { "" } else { "\n\n" };
        text.push_str(parting)?;
        push_row(rt, schemas, &mut text, exchanges)?;
    }
    Ok(text)
}

/// Returns the rows with what comes of each in place of what is wanted, where nothing is held at first.
fn rows_found<R: Wait>(rt: &R, alloc: Global) -> Result<String, AllocError> {
    let registry = SharedRegistry::new(alloc)?;
    let schemas = UpstreamSchemas::new(rt, alloc, &registry, place(alloc)?)?;
    rows_in_turn(rt, &schemas)
}

#[test]
fn nothing_is_held_at_a_fault(rt: HostRuntime) -> Result<(), AllocError> {
    same(&rt, &rows_found(&rt, rt.alloc())?, FAULTS);
    Ok(())
}
