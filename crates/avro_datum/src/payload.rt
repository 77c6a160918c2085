//! Reading a whole payload.

ghost use Rattle.avro_datum.specs.Payload.{ReadsAll};

use crate::walking::read_node;
use avro_bytes::{Fault, MalformedKind, Meter};
use avro_types::{Datum, Nodes};
use std::alloc::Global;
use thiserror::Error;

/// Why a whole payload was not read; of a malformed one the first fault, and its offset. One that ends inside a datum
/// is malformed too.
#[derive(Clone, Copy, Debug, PartialEq, Eq, Error)]
pub enum PayloadError {
    #[error("malformed {} at {at}", .kind.name())]
    Malformed { kind: MalformedKind, at: usize },
    #[error("out of memory")]
    NoMemory,
}

/// Reads a whole payload as a datum of the root node, or returns its first fault.
pub fn read_all(alloc: Global, nodes: &Nodes, payload: &[u8]) -> Result<Datum, PayloadError>
    ensures { ReadsAll nodes.now payload.now result }
{
    nodes.is_well_formed(); // law
    match read_node(alloc, nodes, 0, payload, 0, Meter::START) {
        Ok((datum, to, _)) => {
            if to != payload.len() {
                return Err(PayloadError::Malformed {
                    kind: MalformedKind::Trailing,
                    at: to,
                });
            }
            Ok(datum)
        }
        Err(Fault::Need) => Err(PayloadError::Malformed {
            kind: MalformedKind::Truncated,
            at: payload.len(),
        }),
        Err(Fault::Malformed { kind, at }) => Err(PayloadError::Malformed { kind, at }),
        Err(Fault::NoMemory) => Err(PayloadError::NoMemory),
    }
}
