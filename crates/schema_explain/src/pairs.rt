//! Pairs of nodes, each once.

ghost use Rattle.std.specs.Prelude.{◌≡◌, ◌<◌, ◌≤◌, ◌*◌, [], length, not, IfOk, OnOk};
ghost use Rattle.schema_explain.specs.Pairs.{is_among, with_one};

use avro_types::MOST_NODES;
use std::alloc::{AllocError, Global};
use std::marker::Model;

/// Pairs of nodes in the order in which they came, each once. Callers see it as a `Listed`.
#[derive(Drop)]
pub(crate) struct PairList {
    pairs: Vec<(usize, usize)>,
    seen: Vec<bool>,
    writers: usize,
    readers: usize,
}

impl Model for PairList {
    ghost use Rattle.schema_explain.specs.Pairs.{AreMarked, Listed, listed_of};

    ghost Value = { Listed };

    ghost view = { listed_of };

    ghost invariant = { AreMarked };
}

impl PairList {
    /// Returns a list without pairs, for two schemas with these numbers of nodes.
    pub(crate) fn new(alloc: Global, writers: usize, readers: usize) -> Result<PairList, AllocError>
        requires writers { writers ≤ MOST_NODES }
        requires readers { readers ≤ MOST_NODES }
        ensures { IfOk result (λ s. s ≡ record { pairs = []; writers = writers; readers = readers }) }
    {
        let seen = vec![in alloc; false; writers * readers]?;
        Ok(PairList {
            pairs: Vec::new(alloc),
            seen,
            writers,
            readers,
        })
    }

    /// Adds a pair as the last and returns true; or returns false where it is in the list.
    pub(crate) fn add(&mut self, pair: (usize, usize)) -> Result<bool, AllocError>
        requires writer { pair.0 < self.old.writers }
        requires reader { pair.1 < self.old.readers }
        ensures new { IfOk result (λ new. new ≡ not (is_among pair self.old.pairs)) }
        ensures pairs { OnOk result (self.new.pairs ≡ with_one self.old.pairs pair) }
        ensures writers { OnOk result (self.new.writers ≡ self.old.writers) }
        ensures readers { OnOk result (self.new.readers ≡ self.old.readers) }
        ensures few { OnOk result (length self.new.pairs ≤ self.new.writers * self.new.readers) }
    {
        let place = pair.0 * self.readers + pair.1;
        if self.seen[place] {
            return Ok(false);
        }
        self.pairs.push(pair)?;
        self.seen[place] = true;
        Ok(true)
    }
}
