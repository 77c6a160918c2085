//! The branch of a union at a position.

ghost use Rattle.std.specs.Prelude.{◌≡◌, ◌<◌, length, slice_get, IfSome};
ghost use Rattle.spec_avro.specs.Resolution.{member_at};

use avro_types::{Kind, Nodes};

/// Returns the node of the branch at a position of a union; `None` where there is none or the node is no union.
pub fn member_of(nodes: &Nodes, node: usize, position: u32) -> Option<usize>
    requires { node < length nodes.now }
    ensures node { result ≡ member_at (slice_get nodes.now node) position }
    ensures within { IfSome result (λ member. member < length nodes.now) }
{
    match nodes.kind(node) {
        Kind::Union(members) => members.get(position as usize).copied(),
        _ => None,
    }
}
