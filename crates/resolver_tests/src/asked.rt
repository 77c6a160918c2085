//! What is asked of the rows of tables.

use crate::again::{ordered, parsed, readable, resolved};
use crate::bytes_tests::{both, call_line};
use crate::lines::{
    alike, bytes_of, debug_line, longest_line, outcome_line, payload_line, words_line,
};
use crate::repeated::push_text;
use crate::same::same;
use avro_bytes::{BlockWalk, Meter};
use avro_datum::NodeForm;
use avro_schema::Nodes;
use resolver::{matches, place_of};
use std::alloc::{AllocError, Global};
use std::process::Abort;

/// What is asked of a writer's schema, a reader's and a payload.
#[derive(Clone, Copy)]
pub(crate) enum Asked {
    /// What a payload's datum is written as.
    Payload,
    /// Whether a payload that is read twice is one datum, which is written as it.
    Alike,
    /// How a payload after one byte is read and skipped, with `units` units before it.
    Skipped { units: u32 },
    /// What is reported of a text that would be written too large.
    Longest,
    /// The outcome of a payload.
    Outcome,
    /// What the reader makes of the writer's datum.
    Resolved,
    /// Whether the reader is safe with the writer.
    Safety,
    /// Whether the types match, and the place of the one in the other.
    Destination,
    /// Whether the writer's fields go to the reader's at the same positions.
    Order,
}

/// Returns what is answered of the nodes of a writer and a reader and of a payload.
fn of_nodes(
    alloc: Global,
    asked: Asked,
    w: &Nodes,
    r: &Nodes,
    payload: &str,
) -> Result<String, AllocError> {
    let payload = bytes_of(alloc, payload)?;
    w.is_well_formed();
    r.is_well_formed();
    match asked {
        Asked::Payload => payload_line(alloc, w, &payload),
        Asked::Alike => debug_line(alloc, alike(alloc, w, &payload)),
        Asked::Skipped { units } => {
            let form = NodeForm::new(alloc, w, 0);
            let at = payload.len().min(1);
            both(alloc, &form, &payload, at, Meter { depth: 0, units })
        }
        Asked::Longest => longest_line(alloc),
        Asked::Outcome => outcome_line(alloc, w, r, &payload),
        Asked::Resolved => debug_line(alloc, resolved(alloc, w, r, &payload)),
        Asked::Safety => debug_line(alloc, readable(alloc, w, r)),
        Asked::Destination => debug_line(alloc, (matches(w, 0, r, 0), place_of(w, 0, r, 0))),
        Asked::Order => debug_line(alloc, ordered(alloc, w, r)),
    }
}

/// Returns what is answered of a row of schemas and a payload. Where it has one schema, that is the writer's and the
/// reader's.
fn of_schemas(alloc: Global, asked: Asked, row: &str) -> Result<String, AllocError> {
    let (writer, rest) = row.split_once('\n').unwrap_or((row, ""));
    let (reader, payload) = rest.split_once('\n').unwrap_or((writer, rest));
    match (&parsed(alloc, writer), &parsed(alloc, reader)) {
        (Ok(w), Ok(r)) => of_nodes(alloc, asked, w.nodes(), r.nodes(), payload),
        (Err(fault), _) | (_, Err(fault)) => words_line(alloc, fault.name()),
    }
}

/// Returns what is answered of a row: of schemas where something is asked of them, and else of a call on bytes.
fn answer(
    alloc: Global,
    walk: &mut BlockWalk,
    asked: Option<Asked>,
    row: &str,
) -> Result<String, AllocError> {
    let mut text = String::new(alloc);
    push_text(&mut text, row)?;
    match asked {
        Some(asked) => of_schemas(alloc, asked, &text),
        None => call_line(alloc, walk, &text),
    }
}

/// Asserts that each row is answered as it says. Rows of calls have a line each, and others are separated by empty
/// lines.
pub(crate) fn assert_rows(
    rt: &(impl Abort + AllocGlobal),
    asked: Option<Asked>,
    rows: &str,
) -> Result<(), AllocError> {
    let mut walk = BlockWalk::walk_of(0, 0, 0, None);
    let parting = if asked.is_none() { "\n" } else { "\n\n" };
    for row in rows.split(parting) {
        let (question, want) = row.rsplit_once(" -> ").unwrap_or((row, ""));
        let found = answer(rt.alloc(), &mut walk, asked, question)?;
        same(rt, question, &found, want);
    }
    Ok(())
}
