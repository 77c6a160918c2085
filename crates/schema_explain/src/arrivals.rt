//! Where a datum of a pair arrives, and what becomes of it there.

ghost use Rattle.std.specs.Prelude.{◌≡◌, ◌<◌, Some, length};
ghost use Rattle.avro_types.specs.Node.{node_of};
ghost use Rattle.schema_explain.specs.Arrivals.{arrival, fate_in};

use crate::line::Fate;
use avro_bytes::MismatchKind;
use avro_types::{Kind, Nodes};
use resolver::{Destination, place_of};

/// The reader's node that a writer's datum goes into, the position of its branch where it is one, and what becomes of
/// the datum, as if nothing were explained yet.
#[derive(Clone, Copy, Debug)]
pub(crate) struct Arrival {
    pub(crate) branch: Option<usize>,
    pub(crate) node: usize,
    pub(crate) fate: Fate,
}

/// Returns what becomes of a datum of one node in another that it matches.
fn fate_in(writer: &Kind, reader: &Kind) -> Fate
    ensures { result ≡ fate_in (Some (node_of writer.now)) (Some (node_of reader.now)) }
{
    match (writer, reader) {
        (Kind::Int, Kind::Long) => Fate::Promoted,
        (Kind::Text, Kind::Bytes) => Fate::Promoted,
        (Kind::Bytes, Kind::Text) => Fate::PromotedIfText,
        (Kind::Array(_), Kind::Array(_)) => Fate::Parts,
        (Kind::Map(_), Kind::Map(_)) => Fate::Parts,
        (Kind::Enum { .. }, Kind::Enum { .. }) => Fate::Parts,
        (Kind::Record { .. }, Kind::Record { .. }) => Fate::Parts,
        _ => Fate::Copied,
    }
}

/// Returns the arrival in a reader's node itself.
fn straight(node: usize, fate: Fate) -> Arrival
    ensures { result ≡ record { branch = None; node = node; fate = fate } }
{
    Arrival {
        branch: None,
        node,
        fate,
    }
}

/// Returns where a datum of a writer's node arrives with a reader's node.
pub(crate) fn arrival_of(writer: &Nodes, wn: usize, reader: &Nodes, rn: usize) -> Arrival
    requires writer { wn < length writer.now }
    requires reader { rn < length reader.now }
    ensures arrival { result ≡ arrival writer.now reader.now wn rn }
    ensures within { result.node < length reader.now }
{
    let kind = writer.kind(wn);
    if let Kind::Union(_) = kind {
        return straight(rn, Fate::Parts);
    }
    match place_of(writer, wn, reader, rn) {
        Destination::Straight => straight(rn, fate_in(kind, reader.kind(rn))),
        Destination::IntoMember { position, node } => Arrival {
            branch: Some(position as usize),
            node,
            fate: fate_in(kind, reader.kind(node)),
        },
        Destination::Nowhere => straight(rn, Fate::Mismatch(MismatchKind::NoBranch)),
        Destination::Unmatched => straight(rn, Fate::Mismatch(MismatchKind::NoMatch)),
    }
}
