//! Which of a writer's symbols a reader lacks (Avro 1.11 Specification, "Schema Resolution").

ghost use Rattle.std.specs.Prelude.{◌≡◌, ◌<◌, ◌≤◌, IfOk, length, map, slice_get, string_bytes};
ghost use Rattle.resolver.specs.NextPairs.{some_missing};
ghost use Rattle.spec_avro.specs.Resolution.{symbol_in};
ghost use Rattle.schema_check.specs.Details.{all_missing, missing_positions};

use avro_types::{Kind, MOST_SYMBOLS, Nodes, Symbols};
use std::alloc::{AllocError, Global};

/// Returns the position of a symbol among others, and else the default; None where there is neither.
fn symbol_in(symbols: &Symbols, default: Option<u32>, symbol: &str) -> Option<u32>
    requires { length (symbols.now) ≤ MOST_SYMBOLS }
    ensures { result ≡ symbol_in (symbols.now) default symbol.now }
{
    match symbols.position_of(symbol) {
        Some(position) => Some(position as u32),
        None => default,
    }
}

/// Returns whether some of a writer's symbols is not among a reader's, which has no default.
#[tactic(auto, using(resolver::proofs::SymbolPlace::missing_here))]
pub(crate) fn some_missing(theirs: &Symbols, default: Option<u32>, symbols: &[String]) -> bool
    requires { length (theirs.now) ≤ MOST_SYMBOLS }
    ensures { result ≡ some_missing (theirs.now) default (map string_bytes symbols.now) }
{
    for symbol in symbols {
        if symbol_in(theirs, default, symbol).is_none() {
            return true;
        }
    }
    false
}

/// Returns the positions of a writer's symbols that are not among a reader's, which has no default.
fn missing_positions(
    alloc: Global,
    theirs: &Symbols,
    default: Option<u32>,
    symbols: &[String],
) -> Result<Vec<usize>, AllocError>
    requires { length (theirs.now) ≤ MOST_SYMBOLS }
    ensures { IfOk result (λ v. v.items
        ≡ missing_positions (theirs.now) default 0 (map string_bytes symbols.now)) }
{
    let mut missing = Vec::new(alloc);
    for (position, symbol) in symbols.iter().enumerate() {
        if symbol_in(theirs, default, symbol).is_none() {
            missing.push(position)?;
        }
    }
    Ok(missing)
}

/// Returns the positions of all symbols of the writer's enum that are not among those of the reader's, which has no
/// default; none where either node is no enum. Of a pair that is bad by `NoSymbol` these are what it is bad for.
pub fn all_missing(
    alloc: Global,
    writer: &Nodes,
    writer_node: usize,
    reader: &Nodes,
    reader_node: usize,
) -> Result<Vec<usize>, AllocError>
    requires writer { writer_node < length writer.now }
    requires reader { reader_node < length reader.now }
    ensures { IfOk result (λ v. v.items
        ≡ all_missing (slice_get writer.now writer_node) (slice_get reader.now reader_node)) }
{
    match (writer.kind(writer_node), reader.kind(reader_node)) {
        (
            Kind::Enum { symbols, .. },
            Kind::Enum {
                symbols: theirs,
                default,
                ..
            },
        ) => missing_positions(alloc, theirs, *default, symbols.as_slice()),
        _ => Ok(Vec::new(alloc)),
    }
}
