//! The constants that statements refer to, each once.

ghost use Rattle.std.specs.Prelude.{◌≡◌, ◌++◌, ◌∷◌, [], None, length, IfOk};
ghost use Rattle.std.specs.Str.{bytes_eq};
ghost use Rattle.spec_machine.specs.Numbering.{adding, number};
ghost use Rattle.program_ir.specs.Tables.{found};

use isa::Lists;
use std::alloc::{AllocError, Global};
use std::collections::BTreeMap;
use std::marker::Model;

/// Constants in the order in which they are referred to first, each once. Callers see them as a list.
#[derive(Drop)]
pub struct Constants {
    list: Lists<u8>,
    numbers: BTreeMap<Vec<u8>, usize>,
}

impl Model for Constants {
    ghost use Rattle.std.specs.Prelude.{ℕ, List};
    ghost use Rattle.program_ir.specs.Tables.{AreConstants};

    ghost Value = { List (List ℕ) };

    ghost view = { λ s. s.list };

    ghost invariant = { AreConstants };
}

impl Constants {
    /// Returns an empty list of constants.
    pub fn new(alloc: Global) -> Constants
        ensures { result ≡ [] }
    {
        Constants {
            list: Lists::new(alloc),
            numbers: BTreeMap::new(alloc),
        }
    }

    /// Returns the index of a constant; `None` where it is none of them.
    fn get(&self, bytes: &Vec<u8>) -> Option<usize>
        ensures { result ≡ found bytes_eq bytes.now.items self.now }
    {
        self.numbers.get(bytes).copied()
    }

    /// Returns the index of a constant, or the number of constants where it is none of them.
    pub fn number_of(&self, bytes: &Vec<u8>) -> usize
        ensures { result ≡ number bytes_eq bytes.now.items self.now }
    {
        self.get(bytes).unwrap_or(self.len())
    }

    /// Returns these with a constant appended that is none of them.
    fn with_new(self, bytes: Vec<u8>) -> Result<Constants, AllocError>
        requires { found bytes_eq bytes.items self ≡ None }
        ensures { IfOk result (λ more. more ≡ self ++ bytes.items ∷ []) }
    {
        let Constants {
            mut list,
            mut numbers,
        } = self;
        let number = list.len();
        list.push(bytes.as_slice())?;
        numbers.insert(bytes, number)?;
        Ok(Constants { list, numbers })
    }

    /// Returns these with a constant appended, if it is none of them.
    pub fn with(self, bytes: Vec<u8>) -> Result<Constants, AllocError>
        ensures { IfOk result (λ more. more ≡ adding bytes_eq self (bytes.items ∷ [])) }
    {
        if self.get(&bytes).is_some() {
            return Ok(self);
        }
        self.with_new(bytes)
    }

    /// Returns the number of constants.
    pub fn len(&self) -> usize
        ensures { result ≡ length self.now }
    {
        self.list.len()
    }

    /// Returns their bytes, in order.
    pub fn into_list(self) -> Lists<u8>
        ensures { result ≡ self }
    {
        let Constants { list, numbers: _ } = self;
        list
    }
}
