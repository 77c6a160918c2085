//! The branch of a union that a node goes into.

ghost use Rattle.std.specs.Prelude.{◌≡◌, ◌<◌, ◌≤◌, ◌&&◌, None, if◌then◌else◌, length, option_map, slice_get, IfOk};
ghost use Rattle.std.specs.BTreeMap.{get};
ghost use Rattle.std.specs.List.{AllByRecursion};
ghost use Rattle.std.specs.Ordering.{nat_cmp};
ghost use Rattle.spec_avro.specs.WellFormed.{full_name_of};
ghost use Rattle.resolver.specs.Matching.{IsNodeOf};
ghost use Rattle.spec_avro.specs.Matching.{first_member, matches};
ghost use Rattle.program_compiler.specs.Members.{ArePositionsOf, least};
ghost use Rattle.program_compiler.specs.NamedTypes.{is_among};

use crate::schema_pair::SchemaPair;
use avro_types::{Kind, MOST_NODES, Name, Nodes};
use resolver::{Destination, matches};
use std::alloc::{AllocError, Global};
use std::collections::BTreeMap;

/// Returns the full name of a record, an enum or a fixed; `None` for any other node.
pub(crate) fn name_of(nodes: &Nodes, node: usize) -> Option<&Name>
    requires { node < length nodes.now }
    ensures { option_map (λ name. name.now) result ≡ full_name_of (slice_get nodes.now node) }
{
    match nodes.kind(node) {
        Kind::Fixed { name, .. } | Kind::Enum { name, .. } | Kind::Record { name, .. } => Some(
            name,
        ),
        _ => None,
    }
}

/// Returns the positions of a union's branches, each under its node.
pub(crate) fn positions_of(
    alloc: Global,
    members: &[usize],
) -> Result<BTreeMap<usize, u32>, AllocError>
    requires { length members.now ≤ MOST_NODES }
    ensures { IfOk result (ArePositionsOf members.now) }
{
    let mut positions = BTreeMap::new(alloc);
    for (position, member) in members.iter().enumerate() {
        positions.entry(*member)?.or_insert(position as u32);
    }
    Ok(positions)
}

/// Returns the lesser of two positions, or the one that there is.
fn least(one: Option<u32>, other: Option<u32>) -> Option<u32>
    ensures { result ≡ least one other }
{
    match (one, other) {
        (Some(one), Some(other)) => Some(one.min(other)),
        (None, other) => other,
        (one, None) => one,
    }
}

impl SchemaPair<'_> {
    /// Returns the position of a node, where it is a branch and matches the writer's node.
    fn matching_position(
        &self,
        wn: usize,
        positions: &BTreeMap<usize, u32>,
        node: usize,
    ) -> Option<u32>
        requires writer { wn < length self.now.writer.now }
        requires reader { node < length self.now.reader.now }
        ensures { result
            ≡ if matches self.now.writer.now self.now.reader.now wn node then get nat_cmp positions.now node else None }
    {
        if matches(self.writer, wn, self.reader, node) {
            positions.get(&node).copied()
        } else {
            None
        }
    }

    /// Returns the first of a union's branches that is a candidate and matches the writer's node, or `Nowhere`.
    pub(crate) fn find_member(
        &self,
        writer_node: usize,
        members: &[usize],
        positions: &BTreeMap<usize, u32>,
        candidates: &[usize],
    ) -> Destination
        requires writer { writer_node < length self.now.writer.now }
        requires members { AllByRecursion (λ m. m < length self.now.reader.now) members.now }
        requires positions { ArePositionsOf members.now positions.now }
        requires candidates { AllByRecursion (λ m. m < length self.now.reader.now) candidates.now }
        ensures place { result ≡ first_member
            (λ m. is_among m candidates.now && matches self.now.writer.now self.now.reader.now writer_node m) 0
            members.now }
        ensures within { IsNodeOf (length self.now.reader.now) result }
    {
        let mut first = None;
        for candidate in candidates {
            first = least(
                first,
                self.matching_position(writer_node, positions, *candidate),
            );
        }
        match first {
            Some(position) => Destination::IntoMember {
                position,
                node: members[position as usize],
            },
            None => Destination::Nowhere,
        }
    }
}
