//! How a pair of nodes is reached from the roots.

ghost use Rattle.std.specs.Prelude.{◌≡◌, ◌<◌, length, reverse, IfOk};
ghost use Rattle.schema_check.specs.BadPairs.{IsCheck};
ghost use Rattle.schema_check.specs.Pairs.{AreBelow, pairs_at};
ghost use Rattle.schema_check.specs.Ways.{IsByParents, IsWay, at_place};

use crate::checking::Check;
use crate::pairs::NodePair;
use avro_types::Nodes;
use std::alloc::{AllocError, Global};

/// Returns the pairs, the last of them first.
fn reversed(alloc: Global, pairs: &[NodePair]) -> Result<Vec<NodePair>, AllocError>
    ensures { IfOk result (λ v. v.items ≡ reverse pairs.now) }
{
    pairs.iter().rev().copied().collect(alloc)
}

/// Returns a way from the roots to the pair at a place of a check: the roots first, that pair last, and between them
/// pairs of which each is the next one's parent. The schemas are those of the check. `writer` and `reader` are read by
/// the clauses alone.
pub fn way_to(
    alloc: Global,
    check: &Check,
    writer: &Nodes,
    reader: &Nodes,
    place: usize,
) -> Result<Vec<NodePair>, AllocError>
    requires check { IsCheck writer.now reader.now check.now }
    requires there { place < length check.now.pairs.items }
    ensures way { IfOk result (λ v. IsWay writer.now reader.now (pairs_at v.items)
        (at_place (pairs_at check.now.pairs.items) place)) }
    ensures by_parents { IfOk result (λ v. IsByParents (pairs_at check.now.pairs.items) check.now.parents.items place
        (pairs_at v.items)) }
    ensures below { IfOk result (λ v. AreBelow (length writer.now) (length reader.now) v.items) }
{
    let mut back = Vec::new(alloc);
    let mut at = place;
    while at > 0 {
        back.push(check.pairs[at])?;
        at = check.parents[at];
    }
    back.push(check.pairs[0])?;
    let way = reversed(alloc, &back)?;
    Ok(way)
}
