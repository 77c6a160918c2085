//! The parts of a pair, as entries that are still to be explained.

ghost use Rattle.std.specs.Prelude.{◌≡◌, ◌<◌, ◌≤◌, length, map, slice_get, string_bytes, IfOk};
ghost use Rattle.schema_explain.specs.Parts.{branch_entries, parts_of, symbol_entries, symbol_fate};
ghost use Rattle.schema_explain.specs.Bounds.{AreBelow, MOST_PARTS};

use crate::entries::{Entry, Whole, due, one_due};
use crate::fields::record_entries;
use crate::line::{Fate, Line, Part};
use avro_bytes::MismatchKind;
use avro_types::{Kind, Nodes, Symbols};
use std::alloc::{AllocError, Global};

/// Returns the entries of the branches of a writer's union, in order: each goes where the union goes.
fn branch_entries(alloc: Global, whole: Whole, members: &[usize]) -> Result<Vec<Entry>, AllocError>
    ensures { IfOk result (λ v. v.items ≡ branch_entries whole 0 members.now) }
{
    let mut entries = Vec::new(alloc);
    for (position, member) in members.iter().enumerate() {
        entries.push(due(whole, Part::Branch(position), *member, whole.reader))?;
    }
    Ok(entries)
}

/// Returns what becomes of a writer's symbol with a reader's symbols and their default.
fn symbol_fate(theirs: &Symbols, default: Option<u32>, symbol: &str) -> Fate
    ensures { result ≡ symbol_fate theirs.now default symbol.now }
{
    match theirs.position_of(symbol) {
        Some(_) => Fate::Copied,
        None => match default {
            Some(_) => Fate::Default,
            None => Fate::Mismatch(MismatchKind::NoSymbol),
        },
    }
}

/// Returns the lines of a writer's symbols, in order, with a reader's symbols and their default.
fn symbol_entries(
    alloc: Global,
    whole: Whole,
    symbols: &[String],
    theirs: &Symbols,
    default: Option<u32>,
) -> Result<Vec<Entry>, AllocError>
    ensures { IfOk result (λ v. v.items
        ≡ symbol_entries whole theirs.now default 0 (map string_bytes symbols.now)) }
{
    let mut entries = Vec::new(alloc);
    for (position, symbol) in symbols.iter().enumerate() {
        let fate = symbol_fate(theirs, default, symbol);
        entries.push(Entry::Ready(Line {
            depth: whole.depth,
            part: Part::Symbol(position),
            writer: Some(whole.writer),
            reader: Some(whole.reader),
            branch: None,
            fate,
        }))?;
    }
    Ok(entries)
}

/// Returns the entries of the parts of two nodes.
pub(crate) fn parts_of(
    alloc: Global,
    w: &Nodes,
    r: &Nodes,
    whole: Whole,
) -> Result<Vec<Entry>, AllocError>
    requires writer { whole.writer < length w.now }
    requires reader { whole.reader < length r.now }
    ensures parts { IfOk result (λ v. v.items
        ≡ parts_of whole (slice_get w.now whole.writer) (slice_get r.now whole.reader)) }
    ensures below { IfOk result (λ v. AreBelow w.now r.now whole.depth v.items) }
    ensures few { IfOk result (λ v. length v.items ≤ MOST_PARTS) }
{
    match (w.kind(whole.writer), r.kind(whole.reader)) {
        (Kind::Union(members), _) => branch_entries(alloc, whole, members),
        (Kind::Array(item), Kind::Array(other)) => {
            one_due(alloc, whole, Part::Item, (*item, *other))
        }
        (Kind::Map(value), Kind::Map(other)) => {
            one_due(alloc, whole, Part::Value, (*value, *other))
        }
        (
            Kind::Enum { symbols, .. },
            Kind::Enum {
                symbols: theirs,
                default,
                ..
            },
        ) => symbol_entries(alloc, whole, symbols.as_slice(), theirs, *default),
        (Kind::Record { fields: ws, .. }, Kind::Record { fields: rs, .. }) => {
            record_entries(alloc, whole, ws, rs)
        }
        _ => Ok(Vec::new(alloc)),
    }
}
