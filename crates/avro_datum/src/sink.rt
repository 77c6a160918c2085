//! What becomes of the data that a walk over bytes comes to: they are kept, or passed over.

ghost use Rattle.std.specs.Prelude.{◌≡◌, ◌≤◌, ℕ, List, [], ◌∷◌, ◌++◌, length, string_bytes, IfOk, OnOk, OnErr};
ghost use Rattle.avro_bytes.specs.Text.{text_at};
ghost use Rattle.avro_types.specs.Datum.{datum_of};
ghost use Rattle.avro_bytes.specs.Decoding.{map_decoding};
ghost use Rattle.spec_avro.specs.Datum.{Datum as Tree, NullDatum, UnionDatum};
ghost use Rattle.avro_datum.specs.declared.parts.Parts.{Parts as PartsHere};
ghost use Rattle.avro_datum.specs.Walking.{Holds, Part, Walked, part, whole_of};

use crate::parts::{Gathered, Parts};
use avro_bytes::{Fault, Meter, Text, WireForm};
use avro_types::Datum;
use std::alloc::{AllocError, Global};

/// What becomes of the data that a walk comes to.
pub(crate) trait Sink {
    /// What is kept of a datum.
    type Kept: Drop;

    /// What is kept of a key.
    type Key: Drop;

    /// What is kept of the parts of a datum so far.
    type Group: Drop;

    /// What is kept represents a datum.
    ghost sees: { Self.Kept → Tree → Type 0 };

    /// What is kept represents a key.
    ghost sees_key: { Self.Key → List ℕ → Type 0 };

    /// What is kept represents these parts of a datum.
    ghost holds: { (p : PartsHere) → Self.Group → List (Part p) → Type 0 };

    /// Whether keeping may run out of memory.
    ghost may_lack: { Type 0 };

    /// Walks over a value in its form: what is kept of the datum that `make` returns of it, the offset after it, and
    /// the meter; else the first fault.
    fn value<F: WireForm, M: FnOnce(F::Value) -> Datum + Drop>(
        &self,
        form: &F,
        make: M,
        bytes: &[u8],
        at: usize,
        meter: Meter,
    ) -> Result<(Self::Kept, usize, Meter), Fault>
        requires callable { M.IsAlwaysCallable make }
        requires in_bounds { at ≤ length bytes.now }
        ensures walks { (tree : F.Meaning → Tree) → ((v : _) (d : _) → M.post make v d
            → tree (F.meaning v) ≡ datum_of d)
            → Walked sees (λ x. may_lack × F.lacks form.now (F.decoding form.now bytes.now at meter)) result
            (map_decoding tree (F.decoding form.now bytes.now at meter)) }
        ensures within { IfOk result (λ r. r.1 ≤ length bytes.now) }
        ensures depth { IfOk result (λ r. r.2.depth ≡ meter.depth) }
        ensures units { IfOk result (λ r. meter.units ≤ r.2.units) };

    /// Walks over a key: what is kept of it, the offset after it, and the meter; else the first fault.
    fn key(&self, bytes: &[u8], at: usize, meter: Meter) -> Result<(Self::Key, usize, Meter), Fault>
        requires { at ≤ length bytes.now }
        ensures walks { Walked sees_key (λ x. may_lack) result (text_at bytes.now at meter) }
        ensures within { IfOk result (λ r. r.1 ≤ length bytes.now) }
        ensures depth { IfOk result (λ r. r.2.depth ≡ meter.depth) }
        ensures units { IfOk result (λ r. meter.units ≤ r.2.units) };

    /// Returns what values are allocated by.
    fn alloc(&self) -> Global;

    /// Returns the datum that is null.
    fn null(&self) -> Self::Kept
        ensures { sees result NullDatum };

    /// Returns the key of a part that has none.
    fn no_key(&self) -> Self::Key
        ensures { sees_key result [] };

    /// Returns no parts.
    fn no_parts(&self, parts: Parts) -> Self::Group
        ensures { holds parts result [] };

    /// Adds a part after the others. After an `Err` nothing is said of them.
    fn push(
        &self,
        group: &mut Self::Group,
        key: Self::Key,
        datum: Self::Kept,
    ) -> Result<(), AllocError>
        ensures ok { OnOk result ((p : PartsHere) (xs : List (Part p)) (k : List ℕ) (d : Tree) →
            holds p group.old xs → sees_key key k → sees datum d → holds p group.new (xs ++ part p k d ∷ [])) }
        ensures err { OnErr result may_lack };

    /// Returns the datum that has these parts.
    fn whole(&self, group: Self::Group) -> Self::Kept
        ensures { (p : PartsHere) (xs : List (Part p)) → holds p group xs → sees result (whole_of p xs) };

    /// Returns the datum of a union that has this one, in the branch at a position.
    fn branch(&self, position: u32, datum: Self::Kept) -> Result<Self::Kept, AllocError>
        ensures ok { IfOk result (λ r. (d : Tree) → sees datum d → sees r (UnionDatum position d)) }
        ensures err { OnErr result may_lack };
}

/// Keeps the data.
#[derive(Clone, Copy)]
pub(crate) struct Keep {
    pub(crate) alloc: Global,
}

impl Sink for Keep {
    type Kept = Datum;

    type Key = String;

    type Group = Gathered;

    ghost sees = { λ kept d. d ≡ datum_of kept };

    ghost sees_key = { λ key bytes. bytes ≡ string_bytes key };

    ghost holds = { Holds };

    ghost may_lack = { Unit {0} };

    fn value<F: WireForm, M: FnOnce(F::Value) -> Datum + Drop>(
        &self,
        form: &F,
        make: M,
        bytes: &[u8],
        at: usize,
        meter: Meter,
    ) -> Result<(Datum, usize, Meter), Fault> {
        let (value, to, after) = form.read(bytes, at, meter)?;
        Ok((make(value), to, after))
    }

    fn key(&self, bytes: &[u8], at: usize, meter: Meter) -> Result<(String, usize, Meter), Fault> {
        Text { alloc: self.alloc }.read(bytes, at, meter)
    }

    fn alloc(&self) -> Global {
        self.alloc
    }

    fn null(&self) -> Datum {
        Datum::Null
    }

    fn no_key(&self) -> String {
        String::new(self.alloc)
    }

    fn no_parts(&self, parts: Parts) -> Gathered {
        match parts {
            Parts::Fields => Gathered::Fields(Vec::new(self.alloc)),
            Parts::Items => Gathered::Items(Vec::new(self.alloc)),
            Parts::Pairs => Gathered::Pairs(Vec::new(self.alloc)),
        }
    }

    fn push(&self, group: &mut Gathered, key: String, datum: Datum) -> Result<(), AllocError> {
        match group {
            Gathered::Fields(data) => data.push(datum)?,
            Gathered::Items(data) => data.push(datum)?,
            Gathered::Pairs(pairs) => pairs.push((key, datum))?,
        }
        Ok(())
    }

    fn whole(&self, group: Gathered) -> Datum {
        match group {
            Gathered::Fields(data) => Datum::Record(data),
            Gathered::Items(data) => Datum::Array(data),
            Gathered::Pairs(pairs) => Datum::Map(pairs),
        }
    }

    fn branch(&self, position: u32, datum: Datum) -> Result<Datum, AllocError> {
        Ok(Datum::Union(position, Box::new(self.alloc, datum)?))
    }
}

/// Passes over the data, and allocates nothing.
#[derive(Clone, Copy)]
pub(crate) struct Pass {
    pub(crate) alloc: Global,
}

impl Sink for Pass {
    type Kept = ();

    type Key = ();

    type Group = ();

    ghost sees = { λ _ _. Unit {0} };

    ghost sees_key = { λ _ _. Unit {0} };

    ghost holds = { λ _ _ _. Unit {0} };

    ghost may_lack = { ⊥ };

    fn value<F: WireForm, M: FnOnce(F::Value) -> Datum + Drop>(
        &self,
        form: &F,
        _make: M,
        bytes: &[u8],
        at: usize,
        meter: Meter,
    ) -> Result<((), usize, Meter), Fault> {
        let (to, after) = form.skip(bytes, at, meter)?;
        Ok(((), to, after))
    }

    fn key(&self, bytes: &[u8], at: usize, meter: Meter) -> Result<((), usize, Meter), Fault> {
        let (to, meter) = Text { alloc: self.alloc }.skip(bytes, at, meter)?;
        Ok(((), to, meter))
    }

    fn alloc(&self) -> Global {
        self.alloc
    }

    fn null(&self) {}

    fn no_key(&self) {}

    fn no_parts(&self, _parts: Parts) {}

    fn push(&self, _group: &mut (), _key: (), _datum: ()) -> Result<(), AllocError> {
        Ok(())
    }

    fn whole(&self, _group: ()) {}

    fn branch(&self, _position: u32, _datum: ()) -> Result<(), AllocError> {
        Ok(())
    }
}
