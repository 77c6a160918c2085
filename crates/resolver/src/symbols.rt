//! Symbols of enums: which one is at a position, and which the reader has.

ghost use Rattle.std.specs.Prelude.{◌≡◌, ◌<◌, ◌≤◌, length, map, option_map, position, slice_get, string_bytes};
ghost use Rattle.spec_avro.specs.Resolution.{symbol_at, symbol_for, symbol_in};
ghost use Rattle.resolver.specs.NextPairs.{some_missing};

use avro_types::{Kind, MOST_SYMBOLS, Nodes, Symbols};

/// Returns the symbol at a position of an enum; `None` where there is none or the node is no enum.
pub fn symbol_at(nodes: &Nodes, node: usize, position: u32) -> Option<&str>
    requires { node < length nodes.now }
    ensures { option_map (λ s. s.now) result ≡ symbol_at (slice_get nodes.now node) position }
{
    match nodes.kind(node) {
        Kind::Enum { symbols, .. } => symbols.get(position as usize),
        _ => None,
    }
}

/// Returns the position of a symbol among others, or else the default.
fn symbol_in(symbols: &Symbols, default: Option<u32>, symbol: &str) -> Option<u32>
    requires { length (symbols.now) ≤ MOST_SYMBOLS }
    ensures { result ≡ symbol_in (symbols.now) default symbol.now }
{
    match symbols.position_of(symbol) {
        Some(position) => Some(position as u32),
        None => default,
    }
}

/// Returns the position of a symbol in an enum, or else that of its default; `None` where it has neither or the node is
/// no enum.
pub fn symbol_for(nodes: &Nodes, node: usize, symbol: &str) -> Option<u32>
    requires { node < length nodes.now }
    ensures { result ≡ symbol_for (slice_get nodes.now node) symbol.now }
{
    match nodes.kind(node) {
        Kind::Enum {
            symbols,
            default,
            ..
        } => symbol_in(symbols, *default, symbol),
        _ => None,
    }
}

/// Returns whether the reader's symbols lack one of the writer's and have no default.
#[tactic(auto, using(crate::proofs::SymbolPlace::missing_here))]
pub(crate) fn some_missing(theirs: &Symbols, default: Option<u32>, symbols: &[String]) -> bool
    requires { length (theirs.now) ≤ MOST_SYMBOLS }
    ensures { result ≡ some_missing (theirs.now) default (map string_bytes symbols.now) }
{
    for symbol in symbols {
        if symbol_in(theirs, default, symbol).is_none() {
            return true;
        }
    }
    false
}
