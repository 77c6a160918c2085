//! The versions of a subject.

ghost use Rattle.std.specs.Prelude.{◌≡◌, ◌≤◌, ◌<◌, ◌^◌, [], ◌∷◌, ◌++◌, length, None, IfOk, OnOk, OnErr};
ghost use Rattle.schema_registry_maps.specs.declared.limits.TheConstants.{MOST_ID};
ghost use Rattle.schema_registry_maps.specs.Maps.{number_of};
ghost use Rattle.spec_registry.specs.Lists.{numbered};

use std::alloc::{AllocError, Global};
use std::collections::BTreeMap;
use std::marker::Model;

/// The versions of a subject. Callers see them as the ids of their schemas, in the order of the versions, which count
/// from 1.
#[derive(Drop)]
pub struct Versions {
    ids: Vec<u32>,
    numbers: BTreeMap<u32, u32>,
}

impl Model for Versions {
    ghost use Rattle.std.specs.Prelude.{ℕ, List};
    ghost use Rattle.schema_registry_maps.specs.Maps.{AreNumbersOf};

    ghost Value = { List ℕ };

    ghost view = { λ v. v.ids.items };

    ghost invariant = { λ v. AreNumbersOf v.numbers v.ids.items };
}

impl Versions {
    /// Returns one version, with the schema of an id.
    pub(crate) fn one(alloc: Global, id: u32) -> Result<Versions, AllocError>
        requires { id ≤ MOST_ID }
        ensures { IfOk result (λ versions. versions ≡ id ∷ []) }
    {
        let mut versions = Versions {
            ids: Vec::new(alloc),
            numbers: BTreeMap::new(alloc),
        };
        versions.add(id)?;
        Ok(versions)
    }

    /// Returns the number of versions.
    pub fn len(&self) -> usize
        ensures len { result ≡ length self.now }
        ensures few { result < 2 ^ 32 }
    {
        self.ids.len()
    }

    /// Returns the ids of their schemas, in the order of the versions.
    pub fn ids(&self) -> &[u32]
        ensures { result.now ≡ self.now }
    {
        &self.ids
    }

    /// Returns the id of the schema of a version; `None` where there is no such version.
    pub fn id_at(&self, number: u32) -> Option<u32>
        ensures { result ≡ numbered self.now number }
    {
        if number == 0 {
            return None;
        }
        self.ids.get(number as usize - 1).copied()
    }

    /// Returns the version that has the schema of an id; `None` where none has.
    pub fn number_of(&self, id: u32) -> Option<u32>
        ensures { result ≡ number_of id self.now }
    {
        self.numbers.get(&id).copied()
    }

    /// Makes the schema of an id the next version.
    pub(crate) fn add(&mut self, id: u32) -> Result<(), AllocError>
        requires new { number_of id self.old ≡ None }
        requires known { id ≤ MOST_ID }
        ensures ok { OnOk result (self.new ≡ self.old ++ id ∷ []) }
        ensures err { OnErr result (self.new ≡ self.old) }
    {
        let number = self.ids.len() as u32 + 1;
        self.ids.push(id)?;
        match self.numbers.insert(id, number) {
            Ok(_) => Ok(()),
            Err(_) => {
                self.ids.pop();
                Err(AllocError)
            }
        }
    }
}
