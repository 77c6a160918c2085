//! Which pairs of nodes are reached and bad, in the order in which they are reached first.

ghost use Rattle.std.specs.Prelude.{◌≡◌, ◌≤◌, ◌-◌, ◌++◌, length, replicate, IfOk, OnOk};
ghost use Rattle.schema_check.specs.BadPairs.{AreWithin, IsCheck, entry};

use crate::pairs::{NodePair, PairList};
use crate::steps::step_of;
use avro_bytes::MismatchKind;
use avro_types::Nodes;
use std::alloc::{AllocError, Global};

/// A pair of nodes that is reached and bad, and the kind by which it is.
#[derive(Clone, Copy, Debug, PartialEq, Eq)]
pub struct BadPair {
    pub kind: MismatchKind,
    pub writer_node: usize,
    pub reader_node: usize,
    /// Its place among the pairs that are reached.
    pub place: usize,
}

/// What the roots of a writer's and a reader's schema lead to.
#[derive(Debug, Drop)]
pub struct Check {
    /// All pairs that are reached, in the order in which each is reached first.
    pub pairs: Vec<NodePair>,
    /// For each of these the place of the first pair that leads to it; 0 for the roots, which are the first pair.
    pub parents: Vec<usize>,
    /// Those that are bad, in the order of the pairs.
    pub bad: Vec<BadPair>,
}

/// Adds a pair with the kind by which it is bad; nothing where there is none.
fn add_bad(
    bad: &mut Vec<BadPair>,
    kind: Option<MismatchKind>,
    place: usize,
    pair: (usize, usize),
) -> Result<(), AllocError>
    ensures { OnOk result (bad.new.items ≡ bad.old.items ++ entry kind place pair) }
{
    if let Some(kind) = kind {
        bad.push(BadPair {
            kind,
            writer_node: pair.0,
            reader_node: pair.1,
            place,
        })?;
    }
    Ok(())
}

/// Adds this parent for each pair that has none yet.
fn add_parents(parents: &mut Vec<usize>, len: usize, parent: usize) -> Result<(), AllocError>
    requires { length parents.old.items ≤ len }
    ensures { OnOk result (parents.new.items
        ≡ parents.old.items ++ replicate (len - length parents.old.items) parent) }
{
    while parents.len() < len {
        parents.push(parent)?;
    }
    Ok(())
}

/// Returns all pairs that the roots lead to, for each the first that leads to it, and those that are bad, in the order
/// in which they are reached first. No pair is bad just where the reader can read all that the writer writes, but for
/// bytes that are no UTF-8. Each pair is looked at once, and one that is bad leads on like any other.
pub fn check_pair(alloc: Global, writer: &Nodes, reader: &Nodes) -> Result<Check, AllocError>
    ensures check { IfOk result (λ c. IsCheck writer.now reader.now c) }
    ensures within { IfOk result (λ c. AreWithin (length writer.now) (length reader.now) (length c.pairs.items)
        c.bad.items) }
{
    writer.is_well_formed(); // law
    reader.is_well_formed(); // law
    let mut pairs = PairList::new(alloc, writer.len(), reader.len())?;
    pairs.add((0, 0))?;
    let mut parents = Vec::new(alloc);
    parents.push(0)?;
    let mut bad = Vec::new(alloc);
    let mut place = 0;
    while place < pairs.len() {
        let (wn, rn) = pairs.get(place);
        let step = step_of(alloc, writer, wn, reader, rn)?;
        add_bad(&mut bad, step.kind, place, (wn, rn))?;
        pairs.add_all(&step.next)?;
        add_parents(&mut parents, pairs.len(), place)?;
        place += 1;
    }
    let pairs = pairs.to_node_pairs(alloc)?;
    Ok(Check {
        pairs,
        parents,
        bad,
    })
}
