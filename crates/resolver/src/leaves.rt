//! Data that hold no others, for a reader's node.

ghost use Rattle.std.specs.Prelude.{◌≡◌, ◌<◌, length, slice_get, string_bytes};
ghost use Rattle.spec_avro.specs.Datum.{EnumDatum, IntDatum};
ghost use Rattle.avro_types.specs.Datum.{datum_of};
ghost use Rattle.resolver.specs.Resolution.{Resolves};
ghost use Rattle.spec_avro.specs.Resolution.{bytes_for, int_for, text_for};
ghost use Rattle.resolver.specs.Steps.{inside};

use crate::mismatch::{ResolveError, mismatched};
use crate::symbols::{symbol_at, symbol_for};
use avro_bytes::MismatchKind;
use avro_types::{Datum, Kind, Nodes};

/// Returns an int as a datum of a reader's node: as a long where the node is one.
pub(crate) fn int_for(reader: &Nodes, reader_node: usize, number: i32) -> Datum
    requires { reader_node < length reader.now }
    ensures { datum_of result ≡ int_for (slice_get reader.now reader_node) (IntDatum number) }
{
    match reader.kind(reader_node) {
        Kind::Long => Datum::Long(i64::from(number)),
        _ => Datum::Int(number),
    }
}

/// Returns a string as a datum of a reader's node: as bytes where the node is bytes.
pub(crate) fn text_for(reader: &Nodes, reader_node: usize, text: String) -> Datum
    requires { reader_node < length reader.now }
    ensures { datum_of result ≡ text_for (slice_get reader.now reader_node) (string_bytes text) }
{
    match reader.kind(reader_node) {
        Kind::Bytes => Datum::Bytes(text.into_bytes()),
        _ => Datum::Text(text),
    }
}

/// Returns bytes as a datum of a reader's node: as a string where the node is one and the bytes are UTF-8.
#[tactic(auto, using(crate::proofs::Texts::is_text, crate::proofs::Texts::is_no_text))]
pub(crate) fn bytes_for(
    writer_node: usize,
    reader: &Nodes,
    reader_node: usize,
    bytes: Vec<u8>,
) -> Result<Datum, ResolveError>
    requires { reader_node < length reader.now }
    ensures { Resolves datum_of result
        (bytes_for (slice_get reader.now reader_node) writer_node reader_node bytes.items) }
{
    match reader.kind(reader_node) {
        Kind::Text => match String::from_utf8(bytes) {
            Ok(text) => Ok(Datum::Text(text)),
            Err(_) => Err(mismatched(MismatchKind::BytesNotText, writer_node, reader_node)),
        },
        _ => Ok(Datum::Bytes(bytes)),
    }
}

/// Returns the reader's datum for the writer's symbol at a position; a mismatch where the reader's enum has neither
/// this symbol nor a default.
#[tactic(auto, unfolding(crate::specs::Steps::inside))]
pub(crate) fn enum_for(
    writer: &Nodes,
    writer_node: usize,
    reader: &Nodes,
    reader_node: usize,
    position: u32,
) -> Result<Datum, ResolveError>
    requires writer { writer_node < length writer.now }
    requires reader { reader_node < length reader.now }
    ensures { Resolves datum_of result (inside writer.now reader.now writer_node reader_node (EnumDatum position)) }
{
    let Some(symbol) = symbol_at(writer, writer_node, position) else {
        return Err(mismatched(MismatchKind::NoMatch, writer_node, reader_node));
    };
    match symbol_for(reader, reader_node, symbol) {
        Some(position) => Ok(Datum::Enum(position)),
        None => Err(mismatched(MismatchKind::NoSymbol, writer_node, reader_node)),
    }
}
