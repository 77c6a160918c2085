//! What becomes of the fields of two records.

ghost use Rattle.std.specs.Prelude.{◌≡◌, ◌++◌, IfOk};
ghost use Rattle.avro_types.specs.Node.{field_of, fields_of};
ghost use Rattle.spec_avro.specs.Partners.{routes};
ghost use Rattle.schema_explain.specs.Parts.{absent_line, dropped, dropped_line, field_entries, field_entry, record_entries, source};

use crate::entries::{Entry, Whole, due};
use crate::line::{Fate, Line, Part};
use avro_bytes::MismatchKind;
use avro_types::Field;
use resolver::{Route, routes};
use std::alloc::{AllocError, Global};

/// Returns the position and the node of the writer's field whose partner is the reader's field at a position; `None`
/// where there is none.
fn source_of(routes: &[Route], position: usize) -> Option<(usize, usize)>
    ensures { result ≡ source position 0 routes.now }
{
    for (i, route) in routes.iter().enumerate() {
        if let Some(partner) = route.partner {
            if partner.position == position {
                return Some((i, route.node));
            }
        }
    }
    None
}

/// Returns the line of a reader's field that the writer's record does not have.
fn absent_line(whole: Whole, position: usize, field: &Field) -> Line
    ensures { result ≡ absent_line whole position (field_of field.now) }
{
    let (writer, fate) = match &field.default {
        Some(_) => (None, Fate::Default),
        None => (Some(whole.writer), Fate::Mismatch(MismatchKind::NoDefault)),
    };
    Line {
        depth: whole.depth,
        part: Part::Field {
            writer: None,
            reader: Some(position),
        },
        writer,
        reader: Some(field.node),
        branch: None,
        fate,
    }
}

/// Returns the line of a writer's field that the reader's record does not have.
fn dropped_line(whole: Whole, position: usize, node: usize) -> Line
    ensures { result ≡ dropped_line whole position node }
{
    Line {
        depth: whole.depth,
        part: Part::Field {
            writer: Some(position),
            reader: None,
        },
        writer: Some(node),
        reader: None,
        branch: None,
        fate: Fate::Dropped,
    }
}

/// Returns the entry of a reader's field: a pair with its partner, or the line that it has none.
fn field_entry(whole: Whole, routes: &[Route], position: usize, field: &Field) -> Entry
    ensures { result ≡ field_entry whole routes.now position (field_of field.now) }
{
    match source_of(routes, position) {
        Some((i, node)) => {
            let part = Part::Field {
                writer: Some(i),
                reader: Some(position),
            };
            due(whole, part, node, field.node)
        }
        None => Entry::Ready(absent_line(whole, position, field)),
    }
}

/// Returns the entries of the reader's fields, in the reader's order.
fn field_entries(
    alloc: Global,
    whole: Whole,
    routes: &[Route],
    rs: &[Field],
) -> Result<Vec<Entry>, AllocError>
    ensures { IfOk result (λ v. v.items ≡ field_entries whole routes.now 0 (fields_of rs.now)) }
{
    let mut entries = Vec::new(alloc);
    for (position, field) in rs.iter().enumerate() {
        entries.push(field_entry(whole, routes, position, field))?;
    }
    Ok(entries)
}

/// Returns the entries with the lines of the writer's fields without a partner, in the writer's order.
fn with_dropped(
    whole: Whole,
    routes: &[Route],
    entries: Vec<Entry>,
) -> Result<Vec<Entry>, AllocError>
    ensures { IfOk result (λ v. v.items ≡ entries.items ++ dropped whole 0 routes.now) }
{
    let mut all = entries;
    for (position, route) in routes.iter().enumerate() {
        if route.partner.is_none() {
            all.push(Entry::Ready(dropped_line(whole, position, route.node)))?;
        }
    }
    Ok(all)
}

/// Returns the entries of the fields of two records: the reader's, and then those of the writer's without a partner.
pub(crate) fn record_entries(
    alloc: Global,
    whole: Whole,
    ws: &[Field],
    rs: &[Field],
) -> Result<Vec<Entry>, AllocError>
    ensures { IfOk result (λ v. v.items ≡ record_entries whole (routes (fields_of ws.now) (fields_of rs.now))
        (fields_of rs.now)) }
{
    let routes = routes(alloc, ws, rs)?;
    let entries = field_entries(alloc, whole, &routes, rs)?;
    with_dropped(whole, &routes, entries)
}
