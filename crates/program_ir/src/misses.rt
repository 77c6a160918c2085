//! The misses that statements refer to, each once.

ghost use Rattle.std.specs.Prelude.{◌≡◌, ◌++◌, ◌∷◌, [], None, length, OnErr, OnOk};
ghost use Rattle.spec_machine.specs.Numbering.{adding, number, same_miss};
ghost use Rattle.program_ir.specs.Tables.{found, key_of as key_of_miss};

use avro_bytes::Mismatch;
use std::alloc::{AllocError, Global};
use std::collections::BTreeMap;
use std::marker::Model;

/// Returns the key by which a miss is looked up.
fn key_of(miss: Mismatch) -> (u8, usize, usize)
    ensures { result ≡ key_of_miss miss }
{
    (miss.kind.code(), miss.writer_node, miss.reader_node)
}

/// Misses in the order in which they are referred to first, each once. Callers see them as a list.
#[derive(Drop)]
pub struct Misses {
    list: Vec<Mismatch>,
    numbers: BTreeMap<(u8, usize, usize), usize>,
}

impl Model for Misses {
    ghost use Rattle.std.specs.Prelude.{List};
    ghost use Rattle.spec_avro.specs.declared.mismatch.Mismatch.{Mismatch};
    ghost use Rattle.program_ir.specs.Tables.{AreMisses};

    ghost Value = { List Mismatch };

    ghost view = { λ s. s.list.items };

    ghost invariant = { AreMisses };
}

impl Misses {
    /// Returns an empty list of misses.
    pub fn new(alloc: Global) -> Misses
        ensures { result ≡ [] }
    {
        Misses {
            list: Vec::new(alloc),
            numbers: BTreeMap::new(alloc),
        }
    }

    /// Returns the index of a miss; `None` where it is none of them.
    fn get(&self, miss: Mismatch) -> Option<usize>
        ensures { result ≡ found same_miss miss self.now }
    {
        self.numbers.get(&key_of(miss)).copied()
    }

    /// Returns the index of a miss, or the number of misses where it is none of them.
    pub fn number_of(&self, miss: Mismatch) -> usize
        ensures { result ≡ number same_miss miss self.now }
    {
        self.get(miss).unwrap_or(self.len())
    }

    /// Appends a miss that is none of them. An `Err` leaves them as they were.
    fn add_new(&mut self, miss: Mismatch) -> Result<(), AllocError>
        requires { found same_miss miss self.old ≡ None }
        ensures added { OnOk result (self.new ≡ self.old ++ miss ∷ []) }
        ensures refused { OnErr result (self.new ≡ self.old) }
    {
        let number = self.list.len();
        self.list.try_reserve(1)?;
        self.numbers.insert(key_of(miss), number)?;
        self.list.push(miss)?;
        Ok(())
    }

    /// Appends a miss, if it is none of them. An `Err` leaves them as they were.
    pub fn add(&mut self, miss: Mismatch) -> Result<(), AllocError>
        ensures added { OnOk result (self.new ≡ adding same_miss self.old (miss ∷ [])) }
        ensures refused { OnErr result (self.new ≡ self.old) }
    {
        if self.get(miss).is_some() {
            return Ok(());
        }
        self.add_new(miss)
    }

    /// Returns the number of misses.
    pub fn len(&self) -> usize
        ensures { result ≡ length self.now }
    {
        self.list.len()
    }

    /// Returns all of them, in order.
    pub fn into_list(self) -> Vec<Mismatch>
        ensures { result.items ≡ self }
    {
        let Misses { list, numbers: _ } = self;
        list
    }
}
