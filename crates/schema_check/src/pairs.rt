//! Pairs of nodes, each once.

ghost use Rattle.std.specs.Prelude.{◌≡◌, ◌<◌, ◌≤◌, ◌*◌, [], length, map, slice_index_or, IfOk, OnOk};
ghost use Rattle.resolver.specs.Pairs.{AreWithin};
ghost use Rattle.schema_check.specs.Pairs.{AreBelow, node_pair, with_all, with_one};

use avro_types::MOST_NODES;
use std::alloc::{AllocError, Global};
use std::marker::Model;

/// A writer's node and a reader's.
#[derive(Clone, Copy, Debug, PartialEq, Eq)]
pub struct NodePair {
    pub writer_node: usize,
    pub reader_node: usize,
}

/// Returns the pairs, with names for their nodes.
fn node_pairs(alloc: Global, pairs: &[(usize, usize)]) -> Result<Vec<NodePair>, AllocError>
    ensures { IfOk result (λ v. v.items ≡ map node_pair pairs.now) }
{
    pairs
        .iter()
        .map(|pair| NodePair {
            writer_node: pair.0,
            reader_node: pair.1,
        })
        .collect(alloc)
}

/// Pairs of nodes in the order in which they came, each once. Callers see it as a `Listed`.
#[derive(Drop)]
pub(crate) struct PairList {
    pairs: Vec<(usize, usize)>,
    seen: Vec<bool>,
    writers: usize,
    readers: usize,
}

impl Model for PairList {
    ghost use Rattle.schema_check.specs.Pairs.{AreMarked, Listed, listed_of};

    ghost Value = { Listed };

    ghost view = { listed_of };

    ghost invariant = { AreMarked };
}

impl PairList {
    /// Returns a list without pairs, for two schemas with these numbers of nodes.
    pub(crate) fn new(alloc: Global, writers: usize, readers: usize) -> Result<PairList, AllocError>
        requires writers { writers ≤ MOST_NODES }
        requires readers { readers ≤ MOST_NODES }
        ensures { IfOk result (λ s. s ≡ record { pairs = []; writers = writers; readers = readers }) }
    {
        let seen = vec![in alloc; false; writers * readers]?;
        Ok(PairList {
            pairs: Vec::new(alloc),
            seen,
            writers,
            readers,
        })
    }

    /// Returns how many pairs there are.
    pub(crate) fn len(&self) -> usize
        ensures len { result ≡ length self.now.pairs }
        ensures few { result ≤ self.now.writers * self.now.readers }
    {
        self.pairs.len()
    }

    /// Returns the pair at a place.
    pub(crate) fn get(&self, place: usize) -> (usize, usize)
        requires { place < length self.now.pairs }
        ensures pair { result ≡ slice_index_or self.now.pairs place result }
        ensures writer { result.0 < self.now.writers }
        ensures reader { result.1 < self.now.readers }
    {
        self.pairs[place]
    }

    /// Adds a pair as the last, unless it is in the list.
    pub(crate) fn add(&mut self, pair: (usize, usize)) -> Result<(), AllocError>
        requires writer { pair.0 < self.old.writers }
        requires reader { pair.1 < self.old.readers }
        ensures pairs { OnOk result (self.new.pairs ≡ with_one self.old.pairs pair) }
        ensures writers { OnOk result (self.new.writers ≡ self.old.writers) }
        ensures readers { OnOk result (self.new.readers ≡ self.old.readers) }
    {
        let place = pair.0 * self.readers + pair.1;
        if self.seen[place] {
            return Ok(());
        }
        self.pairs.push(pair)?;
        self.seen[place] = true;
        Ok(())
    }

    /// Adds each of these pairs that is not in the list.
    pub(crate) fn add_all(&mut self, more: &[(usize, usize)]) -> Result<(), AllocError>
        requires { AreWithin self.old.writers self.old.readers more.now }
        ensures pairs { OnOk result (self.new.pairs ≡ with_all self.old.pairs more.now) }
        ensures writers { OnOk result (self.new.writers ≡ self.old.writers) }
        ensures readers { OnOk result (self.new.readers ≡ self.old.readers) }
    {
        for pair in more {
            self.add(*pair)?;
        }
        Ok(())
    }

    /// Returns the pairs alone, with names for their nodes.
    pub(crate) fn to_node_pairs(&self, alloc: Global) -> Result<Vec<NodePair>, AllocError>
        ensures pairs { IfOk result (λ v. v.items ≡ map node_pair self.now.pairs) }
        ensures below { IfOk result (λ v. AreBelow self.now.writers self.now.readers v.items) }
    {
        let named = node_pairs(alloc, &self.pairs)?;
        Ok(named)
    }
}
