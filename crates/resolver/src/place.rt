//! Where a value of a writer's node goes in a reader's node.

ghost use Rattle.std.specs.Prelude.{◌≡◌, ◌<◌, ◌≤◌, length};
ghost use Rattle.std.specs.List.{AllByRecursion};
ghost use Rattle.resolver.specs.Matching.{IsNodeOf};
ghost use Rattle.spec_avro.specs.Matching.{first_member, matches, place};

use crate::rule::matches;
use avro_types::{Kind, MOST_NODES, Nodes};
pub use spec_avro::Destination;

/// Returns the first of a union's branches that matches a writer's node, or `Nowhere`.
fn first_member(w: &Nodes, wn: usize, r: &Nodes, members: &[usize]) -> Destination
    requires writer { wn < length w.now }
    requires members { AllByRecursion (λ m. m < length r.now) members.now }
    requires few { length members.now ≤ MOST_NODES }
    ensures place { result ≡ first_member (matches w.now r.now wn) 0 members.now }
    ensures within { IsNodeOf (length r.now) result }
{
    for (position, node) in members.iter().enumerate() {
        if matches(w, wn, r, *node) {
            return Destination::IntoMember {
                position: position as u32,
                node: *node,
            };
        }
    }
    Destination::Nowhere
}

/// Returns where a value of a writer's node goes in a reader's node.
pub fn place_of(
    writer: &Nodes,
    writer_node: usize,
    reader: &Nodes,
    reader_node: usize,
) -> Destination
    requires writer { writer_node < length writer.now }
    requires reader { reader_node < length reader.now }
    ensures place { result ≡ place writer.now reader.now writer_node reader_node }
    ensures within { IsNodeOf (length reader.now) result }
{
    match reader.kind(reader_node) {
        Kind::Union(members) => first_member(writer, writer_node, reader, members),
        _ => {
            if matches(writer, writer_node, reader, reader_node) {
                Destination::Straight
            } else {
                Destination::Unmatched
            }
        }
    }
}
