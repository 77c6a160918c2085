//! The schemas that are held. A script has exchanges, a line each as `ListedUpstream` has them, and after an empty line
//! the steps, each with what comes of it after the arrow: the id, the id of its schema in this process, and its text.

use super::{push_asked, push_seen};
use crate::listed_upstream::{ListedUpstream, place};
use crate::texts::{number, same};
use schema_registry::{KeepFault, SharedRegistry};
use std::alloc::{AllocError, Global};
use std::sync::Wait;
use upstream_schemas::UpstreamSchemas;

/// Holds a text for an id, as one that an earlier process kept for it, and appends what comes of that.
fn push_held<R: Wait>(
    rt: &R,
    schemas: &UpstreamSchemas<'_, ListedUpstream>,
    text: &mut String,
    id: u32,
    held: &str,
) -> Result<(), AllocError> {
    let held = String::from_str(schemas.alloc(), held)?;
    push_asked(text, schemas.registry(), schemas.hold(rt, id, &held))
}

/// Appends the sum of the ids for which a text was to be kept, and the number of bytes of the texts.
fn push_kept(text: &mut String, upstream: &ListedUpstream) -> Result<(), AllocError> {
    let (ids, bytes) = (upstream.kept_ids(), upstream.kept_bytes());
    write!(text, "ids {ids}, bytes {bytes}")
}

/// Appends what comes of a step: a verb with an id, or with an id and a text.
fn push_answer<R: Wait>(
    rt: &R,
    schemas: &UpstreamSchemas<'_, ListedUpstream>,
    upstream: &ListedUpstream,
    text: &mut String,
    step: &str,
) -> Result<(), AllocError> {
    let (verb, words) = step.split_once(' ').unwrap_or((step, ""));
    let (word, held) = words.split_once(' ').unwrap_or((words, ""));
    let id = number(word);
    match verb {
        "ask" => push_asked(text, schemas.registry(), schemas.ask(rt, upstream, id)),
        "find" => push_seen(text, schemas.registry(), schemas.find(id)),
        "hold" => push_held(rt, schemas, text, id, held),
        "kept" => push_kept(text, upstream),
        _ => write!(text, "{}", upstream.count()),
    }
}

/// Returns a script with what comes of its steps in place of what is wanted.
fn answered_by<R: Wait>(
    rt: &R,
    schemas: &UpstreamSchemas<'_, ListedUpstream>,
    upstream: &ListedUpstream,
    steps: &str,
) -> Result<String, AllocError> {
    let alloc = schemas.alloc();
    let mut text = format!(in alloc; "{}\n\n", upstream.exchanges)?;
    for row in steps.lines() {
        let (step, _wanted) = row.split_once(" -> ").unwrap_or((row, ""));
        write!(text, "{step} -> ")?;
        push_answer(rt, schemas, upstream, &mut text, step)?;
        text.push_str("\n")?;
    }
    Ok(text)
}

/// Returns a script with what comes of its steps in place of what is wanted, where `keeping` comes of each text that is
/// to be kept.
fn answered<R: Wait>(
    rt: &R,
    alloc: Global,
    script: &'static str,
    keeping: Result<(), KeepFault>,
) -> Result<String, AllocError> {
    let (exchanges, steps) = script.split_once("\n\n").unwrap_or((script, ""));
    let upstream = ListedUpstream::keeping(alloc, exchanges, keeping);
    let registry = SharedRegistry::new(alloc)?;
    let schemas = UpstreamSchemas::new(rt, alloc, &registry, place(alloc)?)?;
    answered_by(rt, &schemas, &upstream, steps)
}

/// Two ids.
const ASKED_FOR: &str = r#"7 HTTP/1.1 200 OK||{"schema":"\"int\""}
4294967295 HTTP/1.1 200 OK||{"schema":"\"long\""}

find 7 -> none
ask 7 -> 7 as 1, "int"
find 7 -> 7 as 1, "int"
find 4294967295 -> none
ask 4294967295 -> 4294967295 as 2, "long"
find 4294967295 -> 4294967295 as 2, "long"
exchanges -> 2
"#;

#[test]
fn an_id_asked_for_is_found(rt: HostRuntime) -> Result<(), AllocError> {
    same(
        &rt,
        &answered(&rt, rt.alloc(), ASKED_FOR, Ok(()))?,
        ASKED_FOR,
    );
    Ok(())
}

/// An id whose schema is later another one, which reads what the first wrote.
const LATER_LONG: &str = r#"7 HTTP/1.1 200 OK||{"schema":"\"int\""}
7 HTTP/1.1 200 OK||{"schema":"\"long\""}

ask 7 -> 7 as 1, "int"
ask 7 -> 7 as 1, "int"
exchanges -> 1
hold 7 "long" -> 7 as 1, "int"
find 7 -> 7 as 1, "int"
"#;

/// An id whose schema is later another one, which does not.
const LATER_STRING: &str = r#"7 HTTP/1.1 200 OK||{"schema":"\"int\""}
7 HTTP/1.1 200 OK||{"schema":"\"string\""}

ask 7 -> 7 as 1, "int"
ask 7 -> 7 as 1, "int"
exchanges -> 1
hold 7 "string" -> 7 as 1, "int"
find 7 -> 7 as 1, "int"
"#;

#[test]
fn the_first_schema_of_an_id_stays(rt: HostRuntime) -> Result<(), AllocError> {
    same(
        &rt,
        &answered(&rt, rt.alloc(), LATER_LONG, Ok(()))?,
        LATER_LONG,
    );
    same(
        &rt,
        &answered(&rt, rt.alloc(), LATER_STRING, Ok(()))?,
        LATER_STRING,
    );
    Ok(())
}

/// A schema, that schema in other words, with white space that is no part of it, and another.
const EQUAL: &str = r#"7 HTTP/1.1 200 OK||{"schema":"\"int\""}
263 HTTP/1.1 200 OK||{"schemaType":"AVRO","references":[],"schema":" \"int\" "}
4294967295 HTTP/1.1 200 OK||{"schema":"\"long\""}

ask 7 -> 7 as 1, "int"
ask 263 -> 263 as 1, "int"
ask 4294967295 -> 4294967295 as 2, "long"
"#;

#[test]
fn equal_schemas_have_one_receipt_id(rt: HostRuntime) -> Result<(), AllocError> {
    same(&rt, &answered(&rt, rt.alloc(), EQUAL, Ok(()))?, EQUAL);
    Ok(())
}

/// The ids and the texts that are to be kept.
const KEPT: &str = r#"7 HTTP/1.1 200 OK||{"schema":"\"int\""}
263 HTTP/1.1 200 OK||{"schemaType":"AVRO","references":[],"schema":" \"int\" "}

ask 7 -> 7 as 1, "int"
kept -> ids 7, bytes 5
ask 7 -> 7 as 1, "int"
kept -> ids 7, bytes 5
ask 263 -> 263 as 1, "int"
kept -> ids 270, bytes 12
ask 8 -> Upstream(Unreached)
kept -> ids 270, bytes 12
"#;

#[test]
fn a_schema_asked_for_is_kept_once(rt: HostRuntime) -> Result<(), AllocError> {
    same(&rt, &answered(&rt, rt.alloc(), KEPT, Ok(()))?, KEPT);
    Ok(())
}

/// A text that is not stored.
const NOT_STORED: &str = r#"7 HTTP/1.1 200 OK||{"schema":"\"int\""}

ask 7 -> NotStored
find 7 -> none
"#;

/// A text for which memory runs out.
const NO_MEMORY: &str = r#"7 HTTP/1.1 200 OK||{"schema":"\"int\""}

ask 7 -> NoMemory
find 7 -> none
"#;

#[test]
fn a_schema_that_is_not_kept_is_not_held(rt: HostRuntime) -> Result<(), AllocError> {
    same(
        &rt,
        &answered(&rt, rt.alloc(), NOT_STORED, Err(KeepFault::NotStored))?,
        NOT_STORED,
    );
    same(
        &rt,
        &answered(&rt, rt.alloc(), NO_MEMORY, Err(KeepFault::NoMemory))?,
        NO_MEMORY,
    );
    Ok(())
}

/// Three ids of one home, the first slot in which a naming is looked for.
const ONE_HOME: &str = r#"7 HTTP/1.1 200 OK||{"schema":"\"int\""}
10953 HTTP/1.1 200 OK||{"schema":"\"long\""}
50556 HTTP/1.1 200 OK||{"schema":"\"string\""}

ask 7 -> 7 as 1, "int"
find 10953 -> none
ask 10953 -> 10953 as 2, "long"
find 7 -> 7 as 1, "int"
find 50556 -> none
ask 50556 -> 50556 as 3, "string"
find 10953 -> 10953 as 2, "long"
find 50556 -> 50556 as 3, "string"
find 7 -> 7 as 1, "int"
"#;

#[test]
fn ids_of_one_home_are_kept_apart(rt: HostRuntime) -> Result<(), AllocError> {
    same(&rt, &answered(&rt, rt.alloc(), ONE_HOME, Ok(()))?, ONE_HOME);
    Ok(())
}

/// A connection that is closed before any byte came.
const CLOSED: &str = r#"7 Closed
7 HTTP/1.1 200 OK||{"schema":"\"int\""}

ask 7 -> 7 as 1, "int"
exchanges -> 2
"#;

#[test]
fn a_closed_connection_is_tried_once_more(rt: HostRuntime) -> Result<(), AllocError> {
    same(&rt, &answered(&rt, rt.alloc(), CLOSED, Ok(()))?, CLOSED);
    Ok(())
}
