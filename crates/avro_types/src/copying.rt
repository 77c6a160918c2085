//! Copying data.

ghost use Rattle.std.specs.Prelude.{◌≡◌, IfOk};
ghost use Rattle.avro_types.specs.Datum.{data_of, datum_of, pairs_of};

use crate::datum::Datum;
use std::alloc::{AllocError, Global};

/// Returns copies of data, in their order.
#[cycle(copy)]
#[tactic(auto, using(crate::proofs::Copies::one_more))]
fn copy_each(alloc: Global, all: &[Datum]) -> Result<Vec<Datum>, AllocError>
    ensures { IfOk result (λ v. data_of v.items ≡ data_of all.now) }
{
    let mut copies = Vec::new(alloc);
    for datum in all {
        let datum = copy_datum(alloc, datum)?;
        copies.push(datum)?;
    }
    Ok(copies)
}

/// Returns copies of the pairs of a map, in their order.
#[cycle(copy)]
#[tactic(auto, using(crate::proofs::Copies::one_pair_more))]
fn copy_pairs(alloc: Global, pairs: &[(String, Datum)]) -> Result<Vec<(String, Datum)>, AllocError>
    ensures { IfOk result (λ v. pairs_of v.items ≡ pairs_of pairs.now) }
{
    let mut copies = Vec::new(alloc);
    for pair in pairs {
        let key = String::from_str(alloc, pair.0.as_str())?;
        let datum = copy_datum(alloc, &pair.1)?;
        copies.push((key, datum))?;
    }
    Ok(copies)
}

/// Returns a copy of a datum.
#[cycle(copy)]
#[tactic(auto, using(crate::proofs::Copies::record_tree, crate::proofs::Copies::array_tree, crate::proofs::Copies::map_tree))]
fn copy_datum(alloc: Global, datum: &Datum) -> Result<Datum, AllocError>
    ensures { IfOk result (λ d. datum_of d ≡ datum_of datum.now) }
{
    match datum {
        Datum::Null => Ok(Datum::Null),
        Datum::Boolean(b) => Ok(Datum::Boolean(*b)),
        Datum::Int(n) => Ok(Datum::Int(*n)),
        Datum::Long(n) => Ok(Datum::Long(*n)),
        Datum::Bytes(bytes) => Ok(Datum::Bytes(bytes.to_vec(alloc)?)),
        Datum::Text(text) => Ok(Datum::Text(String::from_str(alloc, text.as_str())?)),
        Datum::Fixed(bytes) => Ok(Datum::Fixed(bytes.to_vec(alloc)?)),
        Datum::Enum(position) => Ok(Datum::Enum(*position)),
        Datum::Array(items) => Ok(Datum::Array(copy_each(alloc, items)?)),
        Datum::Map(pairs) => Ok(Datum::Map(copy_pairs(alloc, pairs)?)),
        Datum::Union(position, inner) => {
            let inner = copy_datum(alloc, inner)?;
            Ok(Datum::Union(*position, Box::new(alloc, inner)?))
        }
        Datum::Record(fields) => Ok(Datum::Record(copy_each(alloc, fields)?)),
    }
}

impl Datum {
    /// Returns a copy of the datum.
    pub fn copy(&self, alloc: Global) -> Result<Datum, AllocError>
        ensures { IfOk result (λ d. datum_of d ≡ datum_of self.now) }
    {
        copy_datum(alloc, self)
    }
}
