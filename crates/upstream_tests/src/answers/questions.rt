//! The texts of questions.

use crate::listed_upstream::place_of;
use crate::texts::same;
use std::alloc::{AllocError, Global};
use upstream_answers::question_of;

/// Where and by whom a registry is asked for an id.
#[derive(Clone, Copy)]
struct Asking {
    host: &'static str,
    prefix: &'static str,
    credentials: &'static str,
    id: u32,
}

const ROWS: [Asking; 3] = [
    Asking {
        host: "registry:8081",
        prefix: "",
        credentials: "",
        id: 7,
    },
    Asking {
        host: "[::1]",
        prefix: "/apis/ccompat/v7",
        credentials: "",
        id: 0,
    },
    Asking {
        host: "registry",
        prefix: "",
        credentials: "dXNlcjpwYXNz",
        id: 4_294_967_295,
    },
];

/// The questions of the rows.
const QUESTIONS: &str = "GET /schemas/ids/7 HTTP/1.1\r\nhost: registry:8081\r\n\
     accept: application/vnd.schemaregistry.v1+json\r\nconnection: close\r\n\r\n\
     GET /apis/ccompat/v7/schemas/ids/0 HTTP/1.1\r\nhost: [::1]\r\n\
     accept: application/vnd.schemaregistry.v1+json\r\nconnection: close\r\n\r\n\
     GET /schemas/ids/4294967295 HTTP/1.1\r\nhost: registry\r\n\
     accept: application/vnd.schemaregistry.v1+json\r\nconnection: close\r\nauthorization: Basic dXNlcjpwYXNz\r\n\r\n";

/// Returns the question of a row.
fn question(alloc: Global, row: Asking) -> Result<String, AllocError> {
    let place = place_of(alloc, row.host, row.prefix, row.credentials)?;
    question_of(alloc, &place, row.id)
}

/// Returns the questions of the rows, one after another.
fn all_questions(alloc: Global) -> Result<String, AllocError> {
    let mut text = String::new(alloc);
    for row in ROWS {
        text.push_str(&question(alloc, row)?)?;
    }
    Ok(text)
}

#[test]
fn questions_are_written(rt: HostRuntime) -> Result<(), AllocError> {
    same(&rt, &all_questions(rt.alloc())?, QUESTIONS);
    Ok(())
}
