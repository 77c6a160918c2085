//! Data that hold no others.

ghost use Rattle.std.specs.Prelude.{◌≡◌, ◌≤◌, length, IfOk};
ghost use Rattle.avro_types.specs.Node.{node_of};
ghost use Rattle.avro_datum.specs.Decoding.{IsLeaf, leaf_at};
ghost use Rattle.avro_datum.specs.Memory.{LeafLacks};
ghost use Rattle.avro_datum.specs.Walking.{Walked};

use crate::sink::Sink;
use avro_bytes::{
    Blob, Bool, Fault, FixedBytes, Int, Long, MalformedKind, Meter, Position, Text, WireForm,
};
use avro_types::{Datum, Kind};

/// Walks over a datum of a kind that holds no others: what is kept of it, the offset after it, and the meter; else the
/// first fault.
pub(crate) fn walk_leaf<S: Sink>(
    sink: &S,
    kind: &Kind,
    bytes: &[u8],
    at: usize,
    meter: Meter,
) -> Result<(S::Kept, usize, Meter), Fault>
    requires leaf { IsLeaf (node_of kind.now) }
    requires in_bounds { at ≤ length bytes.now }
    ensures walks { Walked S.sees (λ x. S.may_lack × LeafLacks (node_of kind.now) x) result
        (leaf_at bytes.now (node_of kind.now) at meter) }
    ensures within { IfOk result (λ r. r.1 ≤ length bytes.now) }
    ensures depth { IfOk result (λ r. r.2.depth ≡ meter.depth) }
    ensures units { IfOk result (λ r. meter.units ≤ r.2.units) }
{
    let alloc = sink.alloc();
    match kind {
        Kind::Null => Ok((sink.null(), at, meter)),
        Kind::Boolean => sink.value(&Bool, Datum::Boolean, bytes, at, meter),
        Kind::Int => sink.value(&Int, Datum::Int, bytes, at, meter),
        Kind::Long => sink.value(&Long, Datum::Long, bytes, at, meter),
        Kind::Bytes => sink.value(&Blob { alloc }, Datum::Bytes, bytes, at, meter),
        Kind::Text => sink.value(&Text { alloc }, Datum::Text, bytes, at, meter),
        Kind::Fixed { size, .. } => {
            let form = FixedBytes { alloc, size: *size };
            sink.value(&form, Datum::Fixed, bytes, at, meter)
        }
        Kind::Enum { symbols, .. } => {
            let form = Position {
                bad: MalformedKind::BadEnum,
                many: symbols.len(),
            };
            sink.value(&form, Datum::Enum, bytes, at, meter)
        }
        Kind::Array(_) | Kind::Map(_) | Kind::Union(_) | Kind::Record { .. } => unreachable!(),
    }
}
