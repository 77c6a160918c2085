//! Pairs of nodes, each once.

ghost use Rattle.std.specs.Prelude.{◌≡◌, ◌<◌, ◌≤◌, ◌*◌, [], length, slice_index_or, IfOk, OnOk};
ghost use Rattle.resolver.specs.Pairs.{Adds};

use avro_types::MOST_NODES;
use std::alloc::{AllocError, Global};
use std::marker::Model;

/// Pairs of nodes in the order in which they came, each once. Callers see it as a `Listed`.
#[derive(Drop)]
pub(crate) struct PairList {
    pairs: Vec<(usize, usize)>,
    seen: Vec<bool>,
    writers: usize,
    readers: usize,
}

impl Model for PairList {
    ghost use Rattle.resolver.specs.Pairs.{AreMarked, Listed, listed_of};

    ghost Value = { Listed };

    ghost view = { listed_of };

    ghost invariant = { AreMarked };
}

impl PairList {
    /// Returns an empty list for the pairs of the given numbers of writer's and reader's nodes.
    pub(crate) fn new(alloc: Global, writers: usize, readers: usize) -> Result<PairList, AllocError>
        requires writers { writers ≤ MOST_NODES }
        requires readers { readers ≤ MOST_NODES }
        ensures { IfOk result (λ s. s ≡ record { pairs = []; writers = writers; readers = readers }) }
    {
        let seen = vec![in alloc; false; writers * readers]?;
        Ok(PairList {
            pairs: Vec::new(alloc),
            seen,
            writers,
            readers,
        })
    }

    /// Returns the number of pairs.
    pub(crate) fn len(&self) -> usize
        ensures len { result ≡ length self.now.pairs }
        ensures few { result ≤ self.now.writers * self.now.readers }
    {
        self.pairs.len()
    }

    /// Returns the pair at an index.
    pub(crate) fn get(&self, place: usize) -> (usize, usize)
        requires { place < length self.now.pairs }
        ensures pair { result ≡ slice_index_or self.now.pairs place result }
        ensures writer { result.0 < self.now.writers }
        ensures reader { result.1 < self.now.readers }
    {
        self.pairs[place]
    }

    /// Adds a pair at the end, unless it is in the list already.
    pub(crate) fn add(&mut self, pair: (usize, usize)) -> Result<(), AllocError>
        requires writer { pair.0 < self.old.writers }
        requires reader { pair.1 < self.old.readers }
        ensures { OnOk result (Adds pair self.old self.new) }
    {
        let place = pair.0 * self.readers + pair.1;
        if self.seen[place] {
            return Ok(());
        }
        self.pairs.push(pair)?;
        self.seen[place] = true;
        Ok(())
    }
}
