//! What a writer's symbol becomes with a reader's enum.

ghost use Rattle.std.specs.Prelude.{◌≡◌, ◌≤◌, length, map, slice_get, string_bytes, IfOk};
ghost use Rattle.spec_machine.specs.Numbering.{entry_of};
ghost use Rattle.spec_machine.specs.Writing.{target};
ghost use Rattle.program_ir.specs.Tables.{entry_at};
ghost use Rattle.spec_avro.specs.Resolution.{symbol_for as position_of_symbol};

use crate::misses::Misses;
use avro_bytes::{Mismatch, MismatchKind};
use avro_types::Nodes;
use isa::{Entry, MOST_TABLES};
use resolver::symbol_for;
use std::alloc::{AllocError, Global};

/// Returns the position of a writer's symbol in a reader's enum, or that of the enum's default; `None` where it has
/// neither.
pub fn position_for(nodes: &Nodes, node: usize, symbol: &str) -> Option<u32>
    ensures { result ≡ position_of_symbol (slice_get nodes.now node) symbol.now }
{
    if node < nodes.len() {
        symbol_for(nodes, node, symbol)
    } else {
        None
    }
}

/// Returns what a writer's symbol becomes in a reader's enum: a position there, or else the miss at the index
/// `lacking`.
fn entry_for(r: &Nodes, reader: usize, symbol: &str, lacking: u32) -> Entry
    ensures { result ≡ entry_at lacking (position_of_symbol (slice_get r.now reader) symbol.now) }
{
    match position_for(r, reader, symbol) {
        Some(position) => Entry::Position(position),
        None => Entry::Miss(lacking),
    }
}

/// Returns what each symbol of a writer's enum becomes in a reader's.
pub fn entries(
    alloc: Global,
    reader: &Nodes,
    misses: &Misses,
    writer_node: usize,
    reader_node: usize,
    symbols: &[String],
) -> Result<Vec<Entry>, AllocError>
    requires { length misses.now ≤ MOST_TABLES }
    ensures { IfOk result (λ v. v.items ≡ map (entry_of misses.now)
        (map (target writer_node reader_node (slice_get reader.now reader_node)) (map string_bytes symbols.now))) }
{
    let lacking = misses.number_of(Mismatch {
        kind: MismatchKind::NoSymbol,
        writer_node,
        reader_node,
    }) as u32;
    let mut entries = Vec::new(alloc);
    for position in 0..symbols.len() {
        entries.push(entry_for(reader, reader_node, symbols[position].as_str(), lacking))?;
    }
    Ok(entries)
}
